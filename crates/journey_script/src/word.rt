ghost use Rattle.std.specs.Prelude.{◌≡◌};
ghost use Rattle.journey_script.specs.Words.{line_word, word_name};

/// The word that begins a line, and says what fields follow.
#[derive(Clone, Copy, Debug, PartialEq, Eq)]
pub enum LineWord {
    Device,
    Io,
    Fix,
    Round,
    Drain,
    Late,
    Close,
    Power,
    Fuse,
}

impl LineWord {
    /// All of them; those that a long script has most of come first.
    const ALL: [LineWord; 9] = [
        LineWord::Fix,
        LineWord::Round,
        LineWord::Late,
        LineWord::Close,
        LineWord::Drain,
        LineWord::Power,
        LineWord::Fuse,
        LineWord::Device,
        LineWord::Io,
    ];

    /// The word as it is in a script.
    pub fn name(self) -> &'static str
        ensures { result.now ≡ word_name self }
    {
        match self {
            LineWord::Device => "device",
            LineWord::Io => "io",
            LineWord::Fix => "fix",
            LineWord::Round => "round",
            LineWord::Drain => "drain",
            LineWord::Late => "late",
            LineWord::Close => "close",
            LineWord::Power => "power",
            LineWord::Fuse => "fuse",
        }
    }

    /// The word of this name; None where no word has it.
    #[tactic(auto, unfolding(crate::specs::Words::line_word))]
    pub fn from_name(name: &[u8]) -> Option<LineWord>
        ensures { result ≡ line_word name.now }
    {
        LineWord::ALL
            .iter()
            .copied()
            .find(|word| word.name().as_bytes() == name)
    }
}
