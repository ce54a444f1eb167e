ghost use Rattle.std.specs.Prelude.{◌≡◌, ◌==◌, ◌<◌, ◌∷◌, length, option_map, MatchOption};
ghost use Rattle.std.specs.List.{position};
ghost use Rattle.std.specs.Str.Lines.{lines, strip_carriage_return};
ghost use Rattle.text_lines.specs.Cuts.{cut_at};

use memchr::memchr;

/// What comes before the first such byte of a text and after it; None where there is none.
pub fn split_once(byte: u8, text: &[u8]) -> Option<(&[u8], &[u8])>
    ensures parts { option_map (λ p. (p.0.now, p.1.now)) result ≡ cut_at byte text.now }
    ensures shorter { MatchOption result (Unit {0}) (λ p. length p.1.now < length text.now) }
{
    match place_of(byte, text) {
        Some(place) => Some((&text[..place], &text[place + 1..])),
        None => None,
    }
}

fn place_of(byte: u8, text: &[u8]) -> Option<usize>
    ensures place { result ≡ position (λ b. b == byte) text.now }
    ensures within { MatchOption result (Unit {0}) (λ i. i < length text.now) }
{
    memchr(byte, text)
}

/// The first line of a text that isn't empty, without its end (LF, or CR and LF), and the text after it.
pub fn first_line(text: &[u8]) -> (&[u8], &[u8])
    requires { 0 < length text.now }
    ensures line { lines text.now ≡ result.0.now ∷ lines result.1.now }
    ensures shorter { length result.1.now < length text.now }
{
    match split_once(b'\n', text) {
        Some((line, rest)) => (without_cr(line), rest),
        None => (text, &text[text.len()..]),
    }
}

fn without_cr(line: &[u8]) -> &[u8]
    ensures { result.now ≡ strip_carriage_return line.now }
{
    match line {
        [front @ .., b'\r'] => front,
        _ => line,
    }
}
