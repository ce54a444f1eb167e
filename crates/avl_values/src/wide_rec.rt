ghost use Rattle.std.specs.Prelude.{◌≡◌, IfOk};
ghost use Rattle.avl_values.specs.Record.{Record};

use crate::{Codec, NoMemory};
use std::alloc::Global;
use std::marker::Model;

/// A server's record of any length, seen as a pair of codec and bytes.
#[derive(Debug, Drop)]
pub struct WideRec {
    codec: Codec,
    bytes: Vec<u8>,
}

impl Model for WideRec {
    ghost use Rattle.avl_values.specs.Record.{Record};

    ghost Value = { Record };

    ghost view = { λ r. record { codec = r.codec; bytes = r.bytes.items } };
}

impl WideRec {
    /// The record of these bytes.
    pub fn new(alloc: Global, codec: Codec, bytes: &[u8]) -> Result<WideRec, NoMemory>
        ensures { IfOk result (λ r. r ≡ record { codec = codec; bytes = bytes.now }) }
    {
        let bytes = Vec::from_slice(alloc, bytes)?;
        Ok(WideRec { codec, bytes })
    }

    /// The codec that spells the record.
    pub fn codec(&self) -> Codec
        ensures { result ≡ self.now.codec }
    {
        self.codec
    }

    /// The bytes of the record.
    pub fn bytes(&self) -> &[u8]
        ensures { result.now ≡ self.now.bytes }
    {
        self.bytes.as_slice()
    }

    /// An equal record.
    pub fn try_clone(&self) -> Result<WideRec, NoMemory>
        ensures { IfOk result (λ r. r ≡ self.now) }
    {
        let bytes = self.bytes.clone()?;
        Ok(WideRec {
            codec: self.codec,
            bytes,
        })
    }
}
