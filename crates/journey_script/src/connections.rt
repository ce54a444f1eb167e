//! What the lines so far say of the connections: how many there are, and which are half-open.
ghost use Rattle.std.specs.Prelude.{◌≡◌, ℕ, ◌+◌, ◌==◌, ◌<◌, ◌^◌, [], ◌∷◌, ◌++◌, nat_lt, not, filter, true, false, length, Some, None, IfErr, OnOk};
ghost use Rattle.journey_script.specs.Later.{connection_fault, when};
ghost use Rattle.journey_script.specs.Standing.{open_after};
ghost use Rattle.journey_script.specs.declared.fault.ScriptFault.{ScriptFault as AnyFault};

use crate::fault::ScriptFault;
use arrayvec::ArrayVec;

/// The most half-open connections of a script (this project's own).
const MOST_OPEN: usize = 64;

/// The connections that `round` and `drain` lines made, numbered from 1.
#[derive(Drop)]
pub struct Connections {
    pub count: usize,
    /// The numbers of those that are half-open.
    pub half_open: ArrayVec<usize, 64>,
    /// Whether a fuse waits for the server's next `round`, `drain` or `late` line.
    pub armed: bool,
}

impl Connections {
    /// No connection yet, and no fuse that waits.
    pub fn new() -> Connections
        ensures count { result.count ≡ 0 }
        ensures half_open { result.half_open.items ≡ [] }
        ensures armed { result.armed ≡ false }
    {
        Connections {
            count: 0,
            half_open: ArrayVec::new(),
            armed: false,
        }
    }

    /// A `round` or `drain` line. With a limit either way it leaves its connection half-open, unless a fuse covers it.
    pub fn take_round(&mut self, limited: bool) -> Result<(), ScriptFault>
        requires { self.old.count < 2 ^ 63 }
        ensures sound { OnOk result (when (nat_lt 64 (length (open_after self.old.armed limited self.old.count self.old.half_open.items))) AnyFault.TooManyOpen ≡ None) }
        ensures count { OnOk result (self.new.count ≡ self.old.count + 1) }
        ensures half_open { OnOk result (self.new.half_open.items ≡ open_after self.old.armed limited self.old.count self.old.half_open.items) }
        ensures armed { OnOk result (self.new.armed ≡ false) }
        ensures refused { IfErr result (λ fault. when (nat_lt 64 (length (open_after self.old.armed limited self.old.count self.old.half_open.items))) AnyFault.TooManyOpen ≡ Some fault) }
        ensures limited { IfErr result (λ fault. limited ≡ true) }
    {
        let open = self.half_open.len();
        if self.armed {
            self.half_open.clear();
        } else if limited {
            if open == MOST_OPEN {
                return Err(ScriptFault::TooManyOpen);
            }
            self.half_open.push(self.count + 1);
        }
        self.count += 1;
        self.armed = false;
        Ok(())
    }

    /// A `late` line.
    pub fn take_late(&mut self, connection: u32) -> Result<(), ScriptFault>
        ensures sound { OnOk result (connection_fault self.old.count connection ≡ None) }
        ensures count { OnOk result (self.new.count ≡ self.old.count) }
        ensures half_open { OnOk result (self.new.half_open.items ≡ open_after self.old.armed false self.old.count self.old.half_open.items) }
        ensures armed { OnOk result (self.new.armed ≡ false) }
        ensures refused { IfErr result (λ fault. connection_fault self.old.count connection ≡ Some fault) }
    {
        self.check(connection)?;
        if self.armed {
            self.half_open.clear();
        }
        self.armed = false;
        Ok(())
    }

    /// A `close` line.
    pub fn take_close(&mut self, connection: u32) -> Result<(), ScriptFault>
        ensures sound { OnOk result (connection_fault self.old.count connection ≡ None) }
        ensures count { OnOk result (self.new.count ≡ self.old.count) }
        ensures half_open { OnOk result (self.new.half_open.items ≡ filter (λ n. not (n == connection)) self.old.half_open.items) }
        ensures armed { OnOk result (self.new.armed ≡ self.old.armed) }
        ensures refused { IfErr result (λ fault. connection_fault self.old.count connection ≡ Some fault) }
    {
        self.check(connection)?;
        self.half_open.retain(|n| *n != connection as usize);
        Ok(())
    }

    /// A `power server` line.
    pub fn take_power(&mut self)
        ensures count { self.new.count ≡ self.old.count }
        ensures half_open { self.new.half_open.items ≡ [] }
        ensures armed { self.new.armed ≡ false }
    {
        self.half_open.clear();
        self.armed = false;
    }

    /// A `fuse server` line.
    pub fn take_fuse(&mut self)
        ensures count { self.new.count ≡ self.old.count }
        ensures half_open { self.new.half_open.items ≡ self.old.half_open.items }
        ensures armed { self.new.armed ≡ true }
    {
        self.armed = true;
    }

    fn check(&self, connection: u32) -> Result<(), ScriptFault>
        ensures sound { OnOk result (connection_fault self.now.count connection ≡ None) }
        ensures refused { IfErr result (λ fault. connection_fault self.now.count connection ≡ Some fault) }
    {
        if connection == 0 || self.count < connection as usize {
            return Err(ScriptFault::NoConnection);
        }
        Ok(())
    }
}
