ghost use Rattle.std.specs.Prelude.{◌≡◌, ◌∷◌, ◌++◌, [], suc, IfNone, IfSome, OnErr, OnOk};
ghost use Rattle.fmb_host.specs.Memory.{after_return, empty_queue};

use avl_values::NoMemory;
use std::alloc::Global;
use std::collections::VecDeque;
use std::marker::Model;

/// Things of one kind that a host in memory hands out in order, and those that came back.
#[derive(Drop)]
pub(crate) struct Queue<T> {
    coming: VecDeque<T>,
    back: Vec<T>,
    keeps: bool,
    lent: usize,
}

impl<T> Model for Queue<T> {
    ghost use Rattle.std.specs.Prelude.{◌+◌, ◌≤◌, Some, None, if◌then◌else◌, vec_len};
    ghost use Rattle.std.specs.Vec.{vec_capacity};
    ghost use Rattle.std.specs.VecDeque.{deque_len};
    ghost use Rattle.fmb_host.specs.Memory.{QueueView};

    ghost Value = { QueueView T };

    ghost view = { λ q. record { coming = q.coming.items; back = if q.keeps then Some q.back.items else None; lent = q.lent } };

    ghost invariant = { λ q. vec_len q.back + q.lent + deque_len q.coming ≤ vec_capacity q.back };
}

impl<T: Drop> Queue<T> {
    /// Nothing to come, and nothing out.
    pub(crate) fn new(alloc: Global) -> Queue<T>
        ensures { result ≡ empty_queue }
    {
        Queue {
            coming: VecDeque::new(alloc),
            back: Vec::new(alloc),
            keeps: true,
            lent: 0,
        }
    }

    /// Puts one last among those to come. It takes the memory for its coming back, too. NoMemory changes nothing.
    pub(crate) fn add(&mut self, item: T) -> Result<(), NoMemory>
        ensures ok { OnOk result (self.new ≡ record self.old { coming = self.old.coming ++ item ∷ [] }) }
        ensures err { OnErr result (self.new ≡ self.old) }
    {
        let coming = self.lent + self.coming.len();
        self.back.reserve(coming.saturating_add(1))?;
        self.coming.push_back(item)?;
        Ok(())
    }

    /// Hands out the first of those to come.
    pub(crate) fn take(&mut self) -> Option<T>
        ensures first { IfSome result (λ item. self.old.coming ≡ item ∷ self.new.coming) }
        ensures lent { IfSome result (λ _. self.new ≡ record self.old { coming = self.new.coming; lent = suc self.old.lent }) }
        ensures none { IfNone result ((self.old.coming ≡ []) × (self.new ≡ self.old)) }
    {
        let item = self.coming.pop_front()?;
        self.lent += 1;
        Some(item)
    }

    /// Counts one that is handed out and wasn't among those to come. It takes the memory for its coming back. NoMemory changes
    /// nothing.
    pub(crate) fn lend(&mut self) -> Result<(), NoMemory>
        ensures ok { OnOk result (self.new ≡ record self.old { lent = suc self.old.lent }) }
        ensures err { OnErr result (self.new ≡ self.old) }
    {
        let coming = self.lent + self.coming.len();
        self.back.reserve(coming.saturating_add(1))?;
        self.lent += 1;
        Ok(())
    }

    /// Takes one back, and keeps it where it is one that had been handed out, and all before were. It takes no memory.
    pub(crate) fn give_back(&mut self, item: T)
        ensures { self.new ≡ after_return item self.old }
    {
        if self.lent == 0 {
            self.keeps = false;
            return;
        }
        self.lent -= 1;
        if self.keeps {
            self.back.push_reserved(item);
        }
    }

    /// Those that came back, in order, as long as each was one that had been handed out.
    pub(crate) fn back(&self) -> &[T]
        ensures { IfSome self.now.back (λ items. result.now ≡ items) }
    {
        self.back.as_slice()
    }
}
