//! A record's line. Its members go to the serializer one by one, with no list or map in between.
ghost use Rattle.std.specs.Prelude.{◌≡◌, ◌∷◌, ◌++◌, [], codes, OnErr, OnOk};
ghost use Rattle.std.specs.Fmt.{signed_decimal};
ghost use Rattle.avl_values.specs.RecordValue.{RecordValue};
ghost use Rattle.json.specs.Token.{key, number};
ghost use Rattle.record_codecs.specs.Shown.{Shows, generation_of};
ghost use Rattle.record_layout.specs.Spelling.{IsRecord};
ghost use Rattle.show_lines.specs.Extends.{Extends};
ghost use Rattle.show_lines.specs.Json.{as_line};
ghost use Rattle.show_lines.specs.RecordText.{record_text};
ghost use Rattle.show_lines.specs.Sent.{Sends};
ghost use Rattle.show_lines.specs.Tokens.{record_tokens};

use crate::elements::{elements, nx_elements};
use crate::members;
use crate::push::push_json;
use avl_values::{Codec, Gps, NoMemory};
use record_codecs::{RecordView, view};
use serde::{Described, Serialize, Serializer};
use std::alloc::Global;

/// The generation type, as the serializer takes it.
fn generation(shown: &RecordView<'_>) -> Option<u32>
    ensures { (v : RecordValue) → Shows shown.now v → result ≡ generation_of shown.now v }
{
    shown.generation().map(u32::from)
}

fn altitude<S: Serializer>(out: &mut S, gps: &Gps) -> Result<(), S::Error>
    ensures { OnOk result (Sends (key (codes "altitude") ∷ number (signed_decimal gps.now.altitude) ∷ [])
        (S.written out.old) (S.written out.new)) }
{
    members::signed(out, "altitude", i64::from(gps.altitude))
}

fn latitude<S: Serializer>(out: &mut S, gps: &Gps) -> Result<(), S::Error>
    ensures { OnOk result (Sends (key (codes "latitude") ∷ number (signed_decimal gps.now.latitude) ∷ [])
        (S.written out.old) (S.written out.new)) }
{
    members::signed(out, "latitude", i64::from(gps.latitude))
}

fn longitude<S: Serializer>(out: &mut S, gps: &Gps) -> Result<(), S::Error>
    ensures { OnOk result (Sends (key (codes "longitude") ∷ number (signed_decimal gps.now.longitude) ∷ [])
        (S.written out.old) (S.written out.new)) }
{
    members::signed(out, "longitude", i64::from(gps.longitude))
}

/// A record on a line of a capture.
#[derive(Drop)]
struct RecordLine<'a> {
    codec: Codec,
    bytes: &'a [u8],
    line: u32,
    alloc: Global,
}

impl Described for RecordLine<'_> {
    ghost writes = { λ l old new. (v : RecordValue) → IsRecord l.codec v l.bytes.now → Sends (record_tokens l.codec v l.line) old new };
}

impl Serialize for RecordLine<'_> {
    fn serialize<S: Serializer>(&self, out: &mut S) -> Result<(), S::Error> {
        let record = view(self.codec, self.bytes);
        let gps = record.gps();
        members::begin(out, 14)?;
        altitude(out, &gps)?;
        members::number(out, "angle", gps.angle as u64)?;
        members::number(out, "event", record.event() as u64)?;
        members::number_or_null(out, "generation", generation(&record))?;
        out.key("io")?;
        elements(out, record.ios())?;
        members::text(out, "item", "record")?;
        latitude(out, &gps)?;
        members::number(out, "line", self.line as u64)?;
        longitude(out, &gps)?;
        out.key("nx")?;
        nx_elements(out, self.alloc, record.nx())?;
        members::number(out, "priority", record.priority() as u64)?;
        members::number(out, "satellites", gps.satellites as u64)?;
        members::number(out, "speed", gps.speed as u64)?;
        members::number(out, "time", record.time())?;
        members::end(out)
    }
}

/// Appends the line of a record that is in this line of the capture: of the value that the bytes spell. NoMemory changes nothing.
/// Of bytes that are no record the line is of no use.
pub fn push_record_line(
    out: &mut Vec<u8>,
    codec: Codec,
    bytes: &[u8],
    line: u32,
) -> Result<(), NoMemory>
    ensures ok { OnOk result ((v : RecordValue) → IsRecord codec v bytes.now
        → out.new.items ≡ out.old.items ++ as_line (record_text codec v line)) }
    ensures kept { OnOk result (Extends out.old.items out.new.items) }
    ensures err { OnErr result (out.new.items ≡ out.old.items) }
{
    let alloc = *out.allocator();
    push_json(
        out,
        &RecordLine {
            codec,
            bytes,
            line,
            alloc,
        },
    )
}
