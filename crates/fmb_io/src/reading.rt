ghost use Rattle.std.specs.Prelude.{◌≡◌, ◌≢◌, ◌⊎◌, ◌<◌, ◌^◌, IfOk, Err, length};
ghost use Rattle.std.specs.Io.KnownBytes.{IsAtEnd};
ghost use Rattle.avl_values.specs.Causes.{Rose};
ghost use Rattle.fmb_io.specs.Text.{IsReadOf};

use avl_values::{Failed, NoMemory};
use std::alloc::Global;
use text_lines::LONGEST;
use text_streams::Source;

/// How many bytes are asked for at a time.
const PIECE: usize = 65_536;

/// Why a text was not read.
#[derive(Clone, Copy, Debug, PartialEq, Eq)]
pub enum Unread {
    /// The source failed.
    Failed,
    NoMemory,
}

/// Reads a source to its end, or until there are more bytes than a script or a capture may have; then the first 2^24 + 1 are kept.
pub fn read_text<S: Source>(alloc: Global, source: &mut S) -> Result<Vec<u8>, Unread>
    ensures text { IfOk result (λ text. IsReadOf (S.state source.old).left text.items) }
    ensures end { IfOk result (λ text. IsAtEnd (S.state source.new).left ⊎ (2 ^ 24 < length text.items)) }
    ensures failed { result ≡ Err Unread.Failed → Rose (S.state source.old).faults (S.state source.new).faults }
    ensures passed { result ≢ Err Unread.Failed → (S.state source.new).faults ≡ (S.state source.old).faults }
{
    let Ok(mut piece) = vec![in alloc; 0u8; PIECE] else {
        return Err(Unread::NoMemory);
    };
    read_pieces(alloc, source, piece.as_mut_slice())
}

fn read_pieces<S: Source>(
    alloc: Global,
    source: &mut S,
    piece: &mut [u8],
) -> Result<Vec<u8>, Unread>
    requires { 0 < length piece.old }
    ensures text { IfOk result (λ text. IsReadOf (S.state source.old).left text.items) }
    ensures end { IfOk result (λ text. IsAtEnd (S.state source.new).left ⊎ (2 ^ 24 < length text.items)) }
    ensures failed { result ≡ Err Unread.Failed → Rose (S.state source.old).faults (S.state source.new).faults }
    ensures passed { result ≢ Err Unread.Failed → (S.state source.new).faults ≡ (S.state source.old).faults }
{
    let mut text = Vec::new(alloc);
    'pieces: loop {
        let Ok(count) = source.read(piece) else {
            return Err(Unread::Failed);
        };
        let room = LONGEST - text.len();
        let kept = count.min(room + 1);
        let Ok(()) = text.extend_from_slice(&piece[..kept]) else {
            return Err(Unread::NoMemory);
        };
        if count == 0 || room < count {
            return Ok(text);
        }
    }
}
