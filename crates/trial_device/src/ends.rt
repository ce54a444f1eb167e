ghost use Rattle.std.specs.Prelude.{◌≡◌};
ghost use Rattle.trial_device.specs.SideLines.{end_of, got_of};

use avl_values::MediumFault;
use tracker_session::RoundEnd;
use trial_model::{DeviceEnd, Got};

// What was heard, in the words of an outcome.
fn got_of(got: tracker_session::Got) -> Got
    ensures { result ≡ got_of got }
{
    match got {
        tracker_session::Got::Login(byte) => Got::Login(byte),
        tracker_session::Got::Count(count) => Got::Count(count),
        tracker_session::Got::Frame(found) => Got::Frame(found),
    }
}

/// How a connection ended for its device, by the end of its round.
pub fn end_of(round: Result<RoundEnd, MediumFault>) -> DeviceEnd
    ensures { result ≡ end_of round }
{
    match round {
        Ok(RoundEnd::Done(records)) => DeviceEnd::Done(records),
        Ok(RoundEnd::Empty) => DeviceEnd::Empty,
        Ok(RoundEnd::Refused) => DeviceEnd::Refused,
        Ok(RoundEnd::Broken) => DeviceEnd::Broken,
        Ok(RoundEnd::WrongAnswer { got }) => DeviceEnd::WrongAnswer { got: got_of(got) },
        Ok(RoundEnd::TooManyCommands) => DeviceEnd::TooManyCommands,
        Err(MediumFault) => DeviceEnd::MediumFault,
    }
}
