//! The laws of lists of words, each as the contract of a function that does nothing.
ghost use Rattle.fmb_words.specs.Laws.{HelpIsRefused, NoFileIsRefused, OtherCommandIsRefused, OtherDriveIsRefused, PlainDriveIsRead, PlainFileIsTaken, PlainMadeIsRead, PlainServeIsRead, SecondFileIsRefused};

/// `show W` and `trial W`, where W is neither empty nor begins with a hyphen, ask for that command with the file W; `trial W --brief` does so
/// with a brief report.
pub fn plain_file_is_taken()
    ensures { PlainFileIsTaken }
{}

/// No words are refused, and so is a first word that names no command.
pub fn other_command_is_refused()
    ensures { OtherCommandIsRefused }
{}

/// A command's word alone is refused.
pub fn no_file_is_refused()
    ensures { NoFileIsRefused }
{}

/// `show` and `trial` with two files are refused.
pub fn second_file_is_refused()
    ensures { SecondFileIsRefused }
{}

/// `--help` and `-h` are refused words.
pub fn help_is_refused()
    ensures { HelpIsRefused }
{}

/// `made` with three such words asks for just what they say, or is refused where one isn't a number in its range.
pub fn plain_made_is_read()
    ensures { PlainMadeIsRead }
{}

/// The words of `serve`, in the order that is written down, ask for just what they say, or are refused where a number or an IMEI isn't one.
pub fn plain_serve_is_read()
    ensures { PlainServeIsRead }
{}

/// `drive` with an address, a flash and a script asks for just that.
pub fn plain_drive_is_read()
    ensures { PlainDriveIsRead }
{}

/// `drive` with one, two or more than three words is refused.
pub fn other_drive_is_refused()
    ensures { OtherDriveIsRefused }
{}
