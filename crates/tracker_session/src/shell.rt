ghost use Rattle.std.specs.Prelude.{◌≡◌, ℕ, List};
ghost use Rattle.tracker_session.specs.Shells.{plain_answer};

use arrayvec::ArrayVec;

/// What obeys the text of a command, and answers it. Both are told by its state before and the text.
pub trait Shell {
    /// What it returns to a text.
    ghost says: { Self → List ℕ → List ℕ };

    /// Its state after it obeyed a text.
    ghost obeyed: { Self → List ℕ → Self };

    /// Obeys a text, and writes the answer over what was in `answer`.
    fn obey(&mut self, text: &[u8], answer: &mut ArrayVec<u8, 1024>)
        ensures says { answer.new.items ≡ says self.old text.now }
        ensures obeyed { self.new ≡ obeyed self.old text.now };
}

/// A shell that knows one command (this project's own): it answers `fmb 1` to `getver`, and `unknown command` to every
/// other text.
#[derive(Clone, Copy, Debug, PartialEq, Eq)]
pub struct PlainShell;

impl Shell for PlainShell {
    ghost says = { λ shell text. plain_answer text };

    ghost obeyed = { λ shell text. shell };

    fn obey(&mut self, text: &[u8], answer: &mut ArrayVec<u8, 1024>) {
        answer.clear();
        let said: &[u8] = if text == b"getver".as_slice() {
            b"fmb 1"
        } else {
            b"unknown command"
        };
        let _added = answer.try_extend_from_slice(said);
    }
}
