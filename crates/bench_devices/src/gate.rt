ghost use Rattle.std.specs.Prelude.{◌≡◌, ◌≢◌, ◌<◌, ◌≤◌, ◌+◌, ◌↔◌, [], IsTrue, Contains, Some, None, OnOk, OnErr, false, true};
ghost use Rattle.bench.specs.declared.Dev.{Dev};
ghost use Rattle.outside.specs.Counts.{IsCount, Rose};
ghost use Rattle.outside.specs.Calls.{listing, more, one_less, unused};
ghost use Rattle.bench.specs.Disk.{other_of};
ghost use Rattle.bench_devices.specs.History.{Rested, rested, work_of};
ghost use Rattle.bench.specs.Meter.{of_device};

use crate::faults::Faults;
use crate::record::{Kind, Record};
use base_fields::NoMemory;
use bench::Dev;
use outside::Failures;
use std::alloc::Global;

/// Which calls on a bench in memory fail, and what was counted.
#[derive(Debug, Drop)]
pub struct Gate {
    pub failures: Failures,
    /// How many more calls pass, where that was said.
    pub passing: Option<u64>,
    pub faults: Faults,
    /// A call would have passed the room.
    pub past: bool,
    /// No number is listed, and all calls pass.
    pub sure: bool,
    ghost faults_end: { (each : Dev) → IsCount (of_device each faults) },
    ghost none_listed: { IsTrue sure → failures.failing ≡ [] },
    ghost all_pass: { IsTrue sure → passing ≡ None },
    ghost no_fault: { IsTrue sure → past ≡ false → faults ≡ record { target = 0; journal = 0 } },
}

impl Gate {
    /// All calls pass. Takes no memory.
    pub fn new(alloc: Global) -> Gate
        ensures failures { result.failures ≡ unused }
        ensures passing { result.passing ≡ None }
        ensures faults { result.faults ≡ record { target = 0; journal = 0 } }
        ensures past { result.past ≡ false }
        ensures sure { result.sure ≡ true }
    {
        Gate {
            failures: Failures::new(alloc),
            passing: None,
            faults: Faults::new(),
            past: false,
            sure: true,
        }
    }

    /// Lets the call of this number fail.
    pub fn list(&mut self, call: u64) -> Result<(), NoMemory>
        ensures ok { OnOk result ((self.new.failures ≡ listing self.old.failures call) × (self.new.sure ≡ false)) }
        ensures err { OnErr result ((self.new.failures ≡ self.old.failures) × (self.new.sure ≡ self.old.sure)) }
        ensures same_passing { self.new.passing ≡ self.old.passing }
        ensures same_faults { self.new.faults ≡ self.old.faults }
        ensures same_past { self.new.past ≡ self.old.past }
    {
        self.failures.list(call)?;
        self.sure = false;
        Ok(())
    }

    /// Lets so many calls more pass, and none after them.
    pub fn stop_after(&mut self, calls: u64)
        ensures passing { self.new.passing ≡ Some calls }
        ensures sure { self.new.sure ≡ false }
        ensures same_failures { self.new.failures ≡ self.old.failures }
        ensures same_faults { self.new.faults ≡ self.old.faults }
        ensures same_past { self.new.past ≡ self.old.past }
    {
        self.sure = false;
        self.passing = Some(calls);
    }

    /// Whether a call on a device with so many bytes passes. One that fails is counted, and its room is used.
    pub fn passes(&mut self, log: &mut Record, dev: Dev, bytes: usize) -> bool
        ensures exact { IsTrue result ↔ ((¬ Contains self.old.failures.failing self.old.failures.next)
            × (self.old.passing ≢ Some 0)
            × (work_of self.old.past log.old + 32 + bytes ≤ log.old.room)) }
        ensures fits { IsTrue result → log.old.used + 32 + bytes ≤ log.old.room }
        ensures was_not_past { IsTrue result → self.old.past ≡ false }
        ensures same_log { IsTrue result → log.new ≡ log.old }
        ensures same_faults { IsTrue result → self.new.faults ≡ self.old.faults }
        ensures not_past { IsTrue result → self.new.past ≡ false }
        ensures rested { result ≡ false → Rested dev bytes log.old log.new }
        ensures left { result ≡ false → log.new ≡ rested dev bytes (work_of self.old.past log.old) log.old }
        ensures one { result ≡ false → of_device dev self.new.faults ≡ more (of_device dev self.old.faults) }
        ensures rose { result ≡ false → Rose (of_device dev self.old.faults) (of_device dev self.new.faults) }
        ensures none_fell { of_device dev self.old.faults ≤ of_device dev self.new.faults }
        ensures other { of_device (other_of dev) self.new.faults ≡ of_device (other_of dev) self.old.faults }
        ensures no_less { work_of self.old.past log.old ≤ work_of self.new.past log.new }
        ensures work { work_of self.new.past log.new ≤ work_of self.old.past log.old + 32 + bytes }
        ensures past { log.old.room < work_of self.old.past log.old + 32 + bytes → work_of self.new.past log.new ≡ log.old.room + 1 }
        ensures same_room { log.new.room ≡ log.old.room }
        ensures used { log.old.used ≤ log.new.used }
        ensures same_sure { self.new.sure ≡ self.old.sure }
        ensures same_failing { self.new.failures.failing ≡ self.old.failures.failing }
        ensures next { self.new.failures.next ≡ more self.old.failures.next }
        ensures passing { self.new.passing ≡ one_less self.old.passing }
    {
        let listed = self.failures.fails();
        let stopped = stops(&mut self.passing);
        if self.past || !log.has_room(bytes) {
            self.past = true;
        } else if listed || stopped {
            log.push(dev, Kind::Rested, 0, &[], bytes);
        } else {
            return true;
        }
        self.faults.count(dev);
        false
    }
}

/// Whether the calls that pass are used up, after one call more.
fn stops(passing: &mut Option<u64>) -> bool
    ensures exact { IsTrue result ↔ (passing.old ≡ Some 0) }
    ensures one_less { passing.new ≡ one_less passing.old }
{
    match *passing {
        None => false,
        Some(0) => true,
        Some(n) => {
            *passing = Some(n - 1);
            false
        }
    }
}
