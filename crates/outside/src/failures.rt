ghost use Rattle.std.specs.Prelude.{◌≡◌, ◌≤◌, ◌↔◌, IsTrue, Contains, OnOk, OnErr, if◌then◌else◌};
ghost use Rattle.outside.specs.Calls.{Calls, unused, listing, more};
ghost use Rattle.outside.specs.Counts.{IsCount};

use base_fields::NoMemory;
use std::alloc::Global;
use std::marker::Model;

/// Which calls of an object in memory fail: their numbers, counted from 0 from its making up to the greatest
/// number of 64 bits, and how many have failed.
#[derive(Debug, Drop)]
pub struct Failures {
    next: u64,
    failing: Vec<u64>,
    faults: u64,
}

impl Model for Failures {
    ghost Value = { Calls };

    ghost view = { λ f. record { next = f.next; failing = f.failing.items; faults = f.faults } };
}

impl Failures {
    /// None fails. Takes no memory.
    pub fn new(alloc: Global) -> Failures
        ensures { result ≡ unused }
    {
        Failures {
            next: 0,
            failing: Vec::new(alloc),
            faults: 0,
        }
    }

    /// Lets the call of this number fail.
    pub fn list(&mut self, call: u64) -> Result<(), NoMemory>
        ensures ok { OnOk result (self.new ≡ listing self.old call) }
        ensures err { OnErr result (self.new ≡ self.old) }
    {
        self.failing.push(call)?;
        Ok(())
    }

    /// Whether this call fails, which is then counted.
    pub fn fails(&mut self) -> bool
        ensures exact { IsTrue result ↔ Contains self.old.failing self.old.next }
        ensures after { self.new ≡ record self.old { next = more self.old.next; faults = if result then more self.old.faults else self.old.faults } }
        ensures none_fell { self.old.faults ≤ self.new.faults }
        ensures counted { IsCount self.new.faults }
    {
        let _faults = self.faults;
        let fails = self.failing.contains(&self.next);
        self.next = self.next.saturating_add(1);
        if fails {
            self.faults = self.faults.saturating_add(1);
        }
        fails
    }

    /// Counts a call that fails for another reason.
    pub fn count(&mut self)
        ensures after { self.new ≡ record self.old { faults = more self.old.faults } }
        ensures none_fell { self.old.faults ≤ self.new.faults }
        ensures counted { IsCount self.new.faults }
    {
        self.faults = self.faults.saturating_add(1);
    }
}
