//! The raw memory of a block: where it begins, who owns its bytes, and the right to free it.
//! These functions alone touch the pointer, and each is proved by hand.
ghost use Rattle.std.specs.Prelude.{◌≡◌, ℕ, ◌+◌, ◌^◌, ◌<◌, ◌≤◌, List, [], ◌∷◌, ◌++◌, length, take, drop, IfSome};
ghost use Rattle.std.specs.Borrow.{sem};
ghost use denote.RawPtr.{Ptr};
ghost use Rattle.region_pool.specs.Ownership.{bytes_own, bytes_lent, deed_owns};

use std::alloc::Allocator;
use std::marker::{Model, PhantomData};
use std::slice;

/// Where a block begins. It owns nothing.
#[derive(Clone, Copy)]
pub(crate) struct Start {
    ptr: *mut u8,
}

/// The owner of a block's bytes: the `items` that are written, and behind them room for `spare` more.
pub(crate) struct Bytes {
    ghost at: { Ptr },
    ghost items: { List ℕ },
    ghost spare: { ℕ },
}

impl Model for Bytes {
    ghost also_owns = { λ m. bytes_own m.at m.items m.spare };

    ghost also_shares = { λ m _ κ. bytes_lent m.at m.items m.spare κ };
}

/// The right to give the block of `len` bytes at `at` back to `alloc`.
pub(crate) struct Deed<A: Allocator> {
    by: PhantomData<A>,
    ghost at: { Ptr },
    ghost len: { ℕ },
    ghost alloc: { A },
}

impl<A: Allocator> Model for Deed<A> {
    ghost also_owns = { λ d. deed_owns (A.dealloc_token d.alloc) d.at d.len };
}

impl<A: Allocator> Deed<A> {
    ghost use Rattle.region_pool.specs.Whole.{IsBlank, IsWhole};

    /// A block of `len` bytes, none of them written, if there is memory.
    pub(crate) fn allocate(alloc: &A, len: usize) -> Option<(Start, Bytes, Deed<A>)>
        requires { len < 2 ^ 63 }
        ensures { IfSome result (λ r. IsBlank r.0 len r.1 r.2 alloc.now) }
    {
        match alloc.allocate(len, 1) {
            Ok(ptr) => Some((Start { ptr }, Bytes {}, Deed { by: PhantomData })),
            Err(_) => None,
        }
    }

    /// Gives the block back.
    pub(crate) fn deallocate(alloc: &A, start: Start, len: usize, bytes: Bytes, deed: Deed<A>)
        requires { IsWhole start len bytes deed alloc.now }
    {
        let Bytes {} = bytes;
        let Deed { by: _ } = deed;
        unsafe {
            alloc.deallocate(start.ptr, len, 1);
        }
    }
}

impl Bytes {
    ghost use Rattle.region_pool.specs.Runs.{LendsRun};

    /// Writes the first byte that isn't written yet, which is number `at`.
    pub(crate) fn push(&mut self, start: Start, at: usize, byte: u8)
        requires { (start.ptr ≡ self.old.at) × (at ≡ length self.old.items) × (0 < self.old.spare) }
        ensures { (self.new.at ≡ self.old.at) × (self.new.items ≡ self.old.items ++ byte ∷ []) × (self.new.spare + 1 ≡ self.old.spare) }
    {
        unsafe { start.ptr.add(at).write(byte) }
    }

    /// The `len` bytes from number `from` on.
    pub(crate) fn slice(&self, start: Start, from: usize, len: usize) -> &[u8]
        requires { (start.ptr ≡ self.now.at) × (from + len ≤ length self.now.items) }
        ensures { result.now ≡ take len (drop from self.now.items) }
    {
        unsafe { slice::from_raw_parts(start.ptr.add(from), len) }
    }

    /// The `len` bytes from number `from` on, to be written in place.
    pub(crate) fn slice_mut(&mut self, start: Start, from: usize, len: usize) -> &mut [u8]
        requires { (start.ptr ≡ self.old.at) × (from + len ≤ length self.old.items) }
        ensures* writes_back { sem 𝓛 (LendsRun self.entry from len result) }
        ensures value { result.now ≡ take len (drop from self.old.items) }
    {
        unsafe { slice::from_raw_parts_mut(start.ptr.add(from), len) }
    }
}
