ghost use Rattle.std.specs.Prelude.{◌≡◌, ◌++◌, ℕ, List, [], Some, OnErr, OnOk};
ghost use Rattle.serde.specs.Event.{Log};
ghost use Rattle.serde_json.specs.Sent.{IsTextOf};
ghost use Rattle.show_lines.specs.Json.{as_line};

use avl_values::NoMemory;
use serde::Serialize;

/// Appends a value as JSON, on a line of its own. NoMemory changes nothing.
pub(crate) fn push_json<T: Serialize>(out: &mut Vec<u8>, value: &T) -> Result<(), NoMemory>
    ensures ok { OnOk result ((log : Log) × (text : List ℕ) × T.writes value.now (Some []) log × IsTextOf log text
        × (out.new.items ≡ out.old.items ++ as_line text)) }
    ensures err { OnErr result (out.new.items ≡ out.old.items) }
{
    let Ok(mut text) = serde_json::to_vec(*out.allocator(), value) else {
        return Err(NoMemory);
    };
    text.push(b'\n')?;
    out.extend_from_slice(&text)?;
    Ok(())
}
