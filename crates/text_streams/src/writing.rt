ghost use Rattle.std.specs.Prelude.{OnOk};
ghost use Rattle.avl_values.specs.Causes.{HasCause};
ghost use Rattle.text_streams.specs.Writes.{PrintsFront, PrintsWhole};

use crate::sink::Sink;
use avl_values::Failed;

/// Writes a whole text, in the pieces that the sink takes. At `Failed` the front of it was written.
pub fn write_text<K: Sink>(sink: &mut K, text: &[u8]) -> Result<(), Failed>
    ensures whole { OnOk result (PrintsWhole text.now (K.state sink.old) (K.state sink.new)) }
    ensures front { PrintsFront text.now (K.state sink.old) (K.state sink.new) }
    ensures cause { HasCause (K.state sink.old).faults (K.state sink.new).faults result }
{
    let mut at = 0;
    while at < text.len() {
        at += sink.write(&text[at..])?;
    }
    Ok(())
}
