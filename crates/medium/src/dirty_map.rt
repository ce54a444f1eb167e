ghost use Rattle.std.specs.Prelude.{◌≡◌, ◌+◌, ◌<◌, ◌≤◌, ℕ, true, false, [], length, get_or, replicate, OnOk};
ghost use Rattle.medium.specs.Buffer.{EndBy, IsOutside};
ghost use Rattle.medium_model.specs.Content.{written};

use crate::spans::{Span, Spans, add, mark_from, unmark};
use arrayvec::ArrayVec;
use avl_values::NoMemory;
use std::alloc::Global;
use std::marker::Model;

/// Which bytes were written since the last sync, and the spans in which they stand.
#[derive(Drop)]
pub struct DirtyMap {
    marks: Vec<bool>,
    spans: Spans,
    end: usize,
}

impl Model for DirtyMap {
    ghost use Rattle.std.specs.Prelude.{take, length};
    ghost use Rattle.medium.specs.Buffer.{DirtyMarks, IsMarked};

    ghost Value = { DirtyMarks };

    ghost view = { λ d. record { marks = take d.end d.marks.items; room = length d.marks.items } };

    ghost invariant = { λ d. IsMarked d.spans.items d.end d.marks.items };
}

impl DirtyMap {
    /// No byte is dirty, and there is no room. It takes no memory.
    pub fn new(alloc: Global) -> DirtyMap
        ensures { result ≡ record { marks = []; room = 0 } }
    {
        DirtyMap {
            marks: Vec::new(alloc),
            spans: ArrayVec::new(),
            end: 0,
        }
    }

    /// Gets room up to a place.
    pub fn grow(&mut self, to: usize) -> Result<(), NoMemory>
        ensures marks { self.new.marks ≡ self.old.marks }
        ensures room { self.old.room ≤ self.new.room }
        ensures enough { OnOk result (to ≤ self.new.room) }
    {
        if to > self.marks.len() {
            self.marks.reserve(to - self.marks.len())?;
            self.marks.resize(to, false)?;
        }
        Ok(())
    }

    /// No byte outside of these spans is dirty.
    pub fn spans(&self) -> &[Span]
        ensures clean { (k : ℕ) → IsOutside result.now k → get_or self.now.marks k false ≡ false }
        ensures ends { EndBy (length self.now.marks) result.now }
    {
        self.spans.as_slice()
    }

    /// These bytes are dirty now.
    pub fn mark(&mut self, at: usize, count: usize)
        requires { at + count ≤ self.old.room }
        ensures { self.new ≡ record self.old { marks = written false at (replicate count true) self.old.marks } }
    {
        mark_from(self.marks.as_mut_slice(), at, count, true);
        add(
            &mut self.spans,
            Span {
                first: at,
                end: at + count,
            },
        );
        self.end = self.end.max(at + count);
    }

    /// No byte is dirty now.
    pub fn clear(&mut self)
        ensures { self.new ≡ record self.old { marks = [] } }
    {
        unmark(self.marks.as_mut_slice(), self.spans.as_slice());
        self.spans.clear();
        self.end = 0;
    }
}
