ghost use Rattle.std.specs.Prelude.{◌≡◌, ◌≤◌, ℕ, IfOk, OnErr};
ghost use Rattle.bench.specs.declared.Dev.{Dev};
ghost use Rattle.outside.specs.Calls.{more};
ghost use Rattle.outside.specs.Counts.{IsCount, Rose};
ghost use Rattle.bench.specs.Disk.{other_of};
ghost use Rattle.bench.specs.Meter.{Both, of_device};

use bench::{BenchErr, Dev};
use std::io;
use std::marker::Model;

/// How many calls on each device have failed, up to the greatest number of 64 bits.
#[derive(Debug, Drop)]
pub struct Faults {
    target: u64,
    journal: u64,
}

impl Model for Faults {
    ghost Value = { Both ℕ };

    ghost view = { λ f. record { target = f.target; journal = f.journal } };
}

impl Faults {
    pub fn new() -> Faults
        ensures { result ≡ record { target = 0; journal = 0 } }
    {
        Faults {
            target: 0,
            journal: 0,
        }
    }

    /// Counts a call on a device that failed.
    pub fn count(&mut self, dev: Dev)
        ensures none_fell { of_device dev self.old ≤ of_device dev self.new }
        ensures rose { Rose (of_device dev self.old) (of_device dev self.new) }
        ensures one { of_device dev self.new ≡ more (of_device dev self.old) }
        ensures counted { (each : Dev) → IsCount (of_device each self.old) → IsCount (of_device each self.new) }
        ensures other { of_device (other_of dev) self.new ≡ of_device (other_of dev) self.old }
    {
        match dev {
            Dev::Target => self.target = self.target.saturating_add(1),
            Dev::Journal => self.journal = self.journal.saturating_add(1),
        }
    }

    /// Counts a call on a device where it failed.
    pub fn counted<T: Drop>(&mut self, dev: Dev, outcome: io::Result<T>) -> Result<T, BenchErr>
        ensures same { IfOk result (λ value. outcome ≡ Ok value) }
        ensures none_fell { of_device dev self.old ≤ of_device dev self.new }
        ensures failed { OnErr result (Rose (of_device dev self.old) (of_device dev self.new)) }
        ensures counted { (each : Dev) → IsCount (of_device each self.old) → IsCount (of_device each self.new) }
        ensures other { of_device (other_of dev) self.new ≡ of_device (other_of dev) self.old }
    {
        match outcome {
            Ok(value) => Ok(value),
            Err(_) => {
                self.count(dev);
                Err(BenchErr)
            }
        }
    }
}
