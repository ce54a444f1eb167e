//! The laws of commands, each as the contract of a function that does nothing.
ghost use Rattle.command_layout.specs.Laws.{AnswerFits, AnswerIsCommand, AnswerIsWellFormed, CommandIsValue, ValueIsCommand, CommandIsWhole, CommandVerdictStays, NoCommandBeginsAnother, WholeIsCommand};

/// A whole verdict says that the body of N bytes is there, and is the command of the value that it says.
pub fn whole_is_command()
    ensures { WholeIsCommand }
{}

/// A command's verdict is whole, whatever bytes follow.
pub fn command_is_whole()
    ensures { CommandIsWhole }
{}

/// A verdict that has come stays, whatever bytes follow.
pub fn command_verdict_stays()
    ensures { CommandVerdictStays }
{}

/// No command's bytes begin another command of the same way, and no command says two values.
pub fn no_command_begins_another()
    ensures { NoCommandBeginsAnother }
{}

/// The value in the body of a command is what the command says.
pub fn command_is_value()
    ensures { CommandIsValue }
{}

/// A body with a value is the command that says it.
pub fn value_is_command()
    ensures { ValueIsCommand }
{}

/// What answers a command of the way down may pass up.
pub fn answer_is_well_formed()
    ensures { AnswerIsWellFormed }
{}

/// With at most 1,024 bytes of text the body of an answer has at most 1,268 bytes.
pub fn answer_fits()
    ensures { AnswerFits }
{}

/// The bytes of an answer are those of a command up.
pub fn answer_is_command()
    ensures { AnswerIsCommand }
{}
