//! Files that lie about their length.
ghost use Rattle.std.specs.Prelude.{None};
ghost use Rattle.std.proofs.Common.{lit≤};
ghost use Rattle.outside.specs.Counts.{IsCount};

use outside::{FileErr, Files, WriteErr};

/// Files of blanks of any name, each of which is said to have so many bytes, and ends before that. Nothing is kept of
/// what is written.
#[derive(Debug, Drop)]
pub struct CutFiles {
    len: u64,
    end: u64,
    ends: u64,
    ghost ends_end: { IsCount ends },
}

impl CutFiles {
    /// Files that are said to have `len` bytes, and end behind `end` of them.
    pub fn new(len: u64, end: u64) -> CutFiles {
        CutFiles { len, end, ends: 0 }
    }
}

impl Files for CutFiles {
    ghost told = { ⊥ };

    ghost file = { λ _ _. None };

    ghost counts = { λ c. record { faults = 0; absences = 0; ends = c.ends } };

    ghost counts_end = { λ c. record { faults = lit≤ tt; absences = lit≤ tt; ends = c.ends_end } };

    fn length(&mut self, _name: &str) -> Result<u64, FileErr> {
        Ok(self.len)
    }

    fn read_at(&mut self, _name: &str, off: u64, buf: &mut [u8]) -> Result<usize, FileErr> {
        if off >= self.end {
            self.ends = self.ends.saturating_add(1);
            return Ok(0);
        }
        buf[0] = b' ';
        Ok(1)
    }

    fn create(&mut self, _name: &str, _len: u64) -> Result<(), WriteErr> {
        Ok(())
    }

    fn write_at(&mut self, _name: &str, _off: u64, _bytes: &[u8]) -> Result<(), WriteErr> {
        Ok(())
    }
}
