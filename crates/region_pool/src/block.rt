//! One block of memory of its own, seen as the list of its bytes.
ghost use Rattle.std.specs.Prelude.{◌≡◌, ℕ, ◌+◌, ◌^◌, ◌<◌, ◌≤◌, List, length, take, drop, replicate, IfOk};
ghost use Rattle.std.specs.Borrow.{sem};

use crate::memory::{Bytes, Deed, Start};
use base_fields::NoMemory;
use std::alloc::Global;
use std::marker::Model;

/// A block of `len` bytes, which is freed when it is dropped.
pub(crate) struct Block {
    start: Start,
    len: usize,
    bytes: Bytes,
    deed: Deed<Global>,
    alloc: Global,
}

impl Model for Block {
    ghost use Rattle.std.specs.Prelude.{ℕ, List};
    ghost use Rattle.region_pool.specs.Whole.{IsWhole};

    ghost Value = { List ℕ };

    ghost view = { λ b. b.bytes.items };

    ghost invariant = { λ b. IsWhole b.start b.len b.bytes b.deed b.alloc };
}

impl Block {
    ghost use Rattle.region_pool.specs.Parts.{LendsPart};

    /// A block of zeros.
    pub(crate) fn zeroed(alloc: Global, len: usize) -> Result<Block, NoMemory>
        requires { len < 2 ^ 63 }
        ensures { IfOk result (λ b. b ≡ replicate len 0) }
    {
        let Some((start, mut bytes, deed)) = Deed::allocate(&alloc, len) else {
            return Err(NoMemory);
        };
        for at in 0..len {
            bytes.push(start, at, 0);
        }
        Ok(Block {
            start,
            len,
            bytes,
            deed,
            alloc,
        })
    }

    /// The `len` bytes from number `at` on.
    pub(crate) fn slice(&self, at: usize, len: usize) -> &[u8]
        requires { at + len ≤ length self.now }
        ensures { result.now ≡ take len (drop at self.now) }
    {
        self.bytes.slice(self.start, at, len)
    }

    /// The `len` bytes from number `at` on, to be written in place.
    pub(crate) fn slice_mut(&mut self, at: usize, len: usize) -> &mut [u8]
        requires { at + len ≤ length self.old }
        ensures* writes_back { sem 𝓛 (LendsPart self.entry at len result) }
        ensures value { result.now ≡ take len (drop at self.old) }
    {
        let start = self.start;
        self.bytes.slice_mut(start, at, len)
    }
}

impl Drop for Block {
    fn drop(self) {
        let Block {
            start,
            len,
            bytes,
            deed,
            alloc,
        } = self;
        Deed::deallocate(&alloc, start, len, bytes, deed);
    }
}
