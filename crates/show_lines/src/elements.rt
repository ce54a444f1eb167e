//! A record's I/O elements, sent to a serializer one by one.
ghost use Rattle.std.specs.Prelude.{◌∷◌, [], OnOk};
ghost use Rattle.layout.specs.Bytes.{AreBytes};
ghost use Rattle.record_codecs.specs.Views.{ios_left, nx_left};
ghost use Rattle.show_lines.specs.Sent.{Sends};
ghost use Rattle.show_lines.specs.Tokens.{element_tokens, list_tokens, nx_tokens};

use crate::members::hex;
use avl_values::Io;
use record_codecs::{Ios, Nxs};
use serde::Serializer;
use std::alloc::Global;

/// An element as its id, width and value.
fn element<S: Serializer>(out: &mut S, io: &Io) -> Result<(), S::Error>
    ensures { OnOk result (Sends (element_tokens io.now) (S.written out.old) (S.written out.new)) }
{
    out.begin_seq(Some(3))?;
    out.u64(io.id() as u64)?;
    out.u64(io.width().bytes() as u64)?;
    out.u64(io.value())?;
    out.end_seq()
}

/// The elements of 1, 2, 4 and 8 bytes.
pub(crate) fn elements<S: Serializer>(out: &mut S, ios: Ios<'_>) -> Result<(), S::Error>
    ensures { OnOk result (Sends (list_tokens element_tokens (ios_left ios.entry))
        (S.written out.old) (S.written out.new)) }
{
    out.begin_seq(None)?;
    for io in ios {
        element(out, &io)?;
    }
    out.end_seq()
}

/// An element as its id and its bytes.
fn nx_element<S: Serializer>(
    out: &mut S,
    alloc: Global,
    id: u16,
    bytes: &[u8],
) -> Result<(), S::Error>
    ensures { OnOk result (Sends (nx_tokens (id, bytes.now)) (S.written out.old) (S.written out.new)) }
{
    out.begin_seq(Some(2))?;
    out.u64(id as u64)?;
    hex(out, alloc, bytes)?;
    out.end_seq()
}

/// The elements of any length.
pub(crate) fn nx_elements<S: Serializer>(
    out: &mut S,
    alloc: Global,
    nx: Nxs<'_>,
) -> Result<(), S::Error>
    ensures { OnOk result (Sends (list_tokens nx_tokens (nx_left nx.entry))
        (S.written out.old) (S.written out.new)) }
{
    out.begin_seq(None)?;
    for (id, bytes) in nx {
        nx_element(out, alloc, id, bytes)?;
    }
    out.end_seq()
}
