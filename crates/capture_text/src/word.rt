ghost use Rattle.std.specs.Prelude.{◌≡◌};
ghost use Rattle.capture_text.specs.Words.{name_of, word_of};

/// What the bytes of a capture's line are.
#[derive(Clone, Copy, Debug, PartialEq, Eq)]
pub enum CaptureWord {
    /// A stream up, from the login.
    Up,
    /// A stream up, after the login.
    Frames,
    /// A stream down, from the login's answer.
    Down,
    /// A stream down, after the login's answer.
    Answers,
    /// One datagram.
    Udp,
    /// One reply to a datagram.
    Reply,
}

impl CaptureWord {
    /// All of them.
    const ALL: [CaptureWord; 6] = [
        CaptureWord::Up,
        CaptureWord::Frames,
        CaptureWord::Down,
        CaptureWord::Answers,
        CaptureWord::Udp,
        CaptureWord::Reply,
    ];

    /// The word as it is in a capture.
    pub fn name(self) -> &'static str
        ensures { result.now ≡ name_of self }
    {
        match self {
            CaptureWord::Up => "up",
            CaptureWord::Frames => "frames",
            CaptureWord::Down => "down",
            CaptureWord::Answers => "answers",
            CaptureWord::Udp => "udp",
            CaptureWord::Reply => "reply",
        }
    }

    /// The word of this name; None where no word has it.
    #[tactic(auto, unfolding(crate::specs::Words::word_of))]
    pub fn from_name(name: &[u8]) -> Option<CaptureWord>
        ensures { result ≡ word_of name.now }
    {
        CaptureWord::ALL
            .iter()
            .copied()
            .find(|word| word.name().as_bytes() == name)
    }
}
