//! The laws that join the words of a trial's statement to those of the layers below, each as the contract of a function that does
//! nothing.
ghost use Rattle.trial_wire.specs.OneStream.{FramesAreRead, RestIsRead};

/// Of all bytes that begin with a login or with a part of one, the frames of the trial's statement are the data frames that a server
/// reads, with the same places and records: up to the first response, and up to the first frame that is longer than any it reads.
pub fn frames_are_read()
    ensures { FramesAreRead }
{}

/// Where no frame is longer, and no response follows the frames, a server reads these frames and nothing more, and the same rest.
pub fn rest_is_read()
    ensures { RestIsRead }
{}
