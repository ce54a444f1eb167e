//! The laws of sessions, each as the contract of a function that does nothing.
ghost use Rattle.session_core.specs.Archived.{CountedIsArchived};
ghost use Rattle.session_core.specs.Complete.{WellFormedEnds};

/// Of an archive that was up as a session began, and is a shelf over a medium that tells its content, a power loss after the
/// session, or at any moment inside it, leaves what was there before, all records of each frame that was counted, and nothing
/// further but records of the session's device that are in these frames or in the one after them.
pub fn counted_is_archived()
    ensures { CountedIsArchived }
{}

/// A well-formed stream of a known device is served to its end, and each of its data frames is counted, or a growth of memory is
/// refused: where the link tells its bytes, it carries the stream and doesn't fail, and the archive is a shelf that was up and
/// whose medium doesn't fail.
pub fn well_formed_ends<O>()
    ensures { WellFormedEnds O }
{}
