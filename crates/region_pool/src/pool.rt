ghost use Rattle.std.specs.Prelude.{◌≡◌, ℕ, ◌+◌, ◌*◌, ◌^◌, ◌<◌, ◌≤◌, ◌↔◌, length, IfOk, IfSome, IfNone, IsNone, slice_set, position, not, false, map, replicate};
ghost use Rattle.std.specs.Borrow.{sem};
ghost use Rattle.region_pool.specs.Buffers.{IsSize, bytes_at, IsFree, free_of, IsLeaseOf, new_pool, taken, given};

use crate::block::Block;
use base_fields::NoMemory;
use std::alloc::Global;
use std::marker::Model;

/// The most buffers of a pool.
const MOST: usize = 64;

/// The right to one buffer of a pool, from [`Pool::lease`] on. It can't be dropped: [`Pool::give`] takes it back.
/// That a lease is of another pool with the same tag isn't noticed.
pub struct Lease {
    tag: u32,
    slot: u32,
}

impl Model for Lease {
    ghost use Rattle.region_pool.specs.Buffers.{Held};

    ghost Value = { Held };

    ghost view = { λ l. record { tag = l.tag; slot = l.slot } };
}

/// Equal buffers in one block of memory, which is taken once and lent without copying.
#[derive(Drop)]
pub struct Pool {
    tag: u32,
    size: u32,
    count: u32,
    block: Block,
    out: [bool; MOST],
}

impl Model for Pool {
    ghost use Rattle.std.specs.Prelude.{◌≡◌, ◌≤◌, ◌*◌, length, take};
    ghost use Rattle.region_pool.specs.Blocks.{pieces};
    ghost use Rattle.region_pool.specs.Buffers.{Buffers, IsSize};

    ghost Value = { Buffers };

    ghost view = { λ p. record { tag = p.tag; size = p.size; slots = pieces p.size p.count p.block; out = take p.count p.out } };

    ghost invariant = { λ p. ((p.count ≤ 64) × IsSize p.size) × (length p.block ≡ p.count * p.size) };
}

impl Pool {
    ghost use Rattle.region_pool.specs.Loans.{LendsBuffer};

    /// A pool of `count` buffers of `bytes` bytes each. Every byte is 0, and no buffer is out.
    pub fn new(alloc: Global, tag: u32, count: u32, bytes: u32) -> Result<Pool, NoMemory>
        requires buffers { (1 ≤ count) × (count ≤ 64) }
        requires room { IsSize bytes }
        ensures ok { IfOk result (λ p. p ≡ new_pool tag count bytes) }
    {
        let block = Block::zeroed(alloc, block_len(count, bytes))?;
        Ok(Pool {
            tag,
            size: bytes,
            count,
            block,
            out: none_out(),
        })
    }

    /// Takes a buffer out of the pool, with the bytes that it was given back with.
    pub fn lease(&mut self) -> Option<Lease>
        ensures sized { IsSize self.old.size }
        ensures none { IsNone result ↔ (free_of self.old ≡ 0) }
        ensures unchanged { IfNone result (self.new ≡ self.old) }
        ensures was_free { IfSome result (λ l. IsFree self.old l.slot) }
        ensures held { IfSome result (λ l. IsLeaseOf l self.new) }
        ensures out { IfSome result (λ l. self.new ≡ taken self.old l.slot) }
        ensures back { IfSome result (λ l. given self.new l.slot ≡ self.old) }
        ensures fewer { IfSome result (λ _. free_of self.new + 1 ≡ free_of self.old) }
    {
        let Some(slot) = first_free(&self.out[..self.count as usize]) else {
            return None;
        };
        self.out[slot] = true;
        Some(Lease {
            tag: self.tag,
            slot: slot as u32,
        })
    }

    /// The bytes of the leased buffer.
    pub fn bytes(&self, lease: &Lease) -> &[u8]
        requires { IsLeaseOf lease.now self.now }
        ensures len { length result.now ≡ self.now.size }
        ensures value { result.now ≡ bytes_at self.now lease.now.slot }
    {
        let (at, len) = place(lease.slot, self.size);
        self.block.slice(at, len)
    }

    /// The bytes of the leased buffer, to be written in place.
    pub fn bytes_mut(&mut self, lease: &Lease) -> &mut [u8]
        requires { IsLeaseOf lease.now self.old }
        ensures* writes_back { sem 𝓛 (LendsBuffer self.entry lease.now.slot result) }
        ensures len { length result.now ≡ self.old.size }
        ensures value { result.now ≡ bytes_at self.old lease.now.slot }
    {
        let (at, len) = place(lease.slot, self.size);
        self.block.slice_mut(at, len)
    }

    /// Puts the leased buffer back. Its bytes stay until they are written.
    pub fn give(&mut self, lease: Lease)
        requires { IsLeaseOf lease self.old }
        ensures back { self.new ≡ given self.old lease.slot }
        ensures more { free_of self.new ≡ free_of self.old + 1 }
    {
        let Lease { tag: _, slot } = lease;
        self.out[slot as usize] = false;
    }

    /// How many buffers are not out.
    pub fn free(&self) -> u32
        ensures { result ≡ free_of self.now }
    {
        let slots = &self.out[..self.count as usize];
        slots.iter().filter(|is_out| !**is_out).count() as u32
    }

    /// The bytes of one buffer.
    pub fn size(&self) -> u32
        ensures value { result ≡ self.now.size }
        ensures sized { IsSize result }
    {
        self.size
    }
}

/// The marks of a new pool.
fn none_out() -> [bool; MOST]
    ensures { result ≡ replicate 64 false }
{
    [false; MOST]
}

/// The first slot that is not out.
fn first_free(out: &[bool]) -> Option<usize>
    ensures { result ≡ position not out.now }
{
    out.iter().position(|is_out| !*is_out)
}

/// The bytes of the whole block.
fn block_len(count: u32, size: u32) -> usize
    requires { (count ≤ 64) × (size ≤ 4194304) }
    ensures { result ≡ count * size }
{
    count as usize * size as usize
}

/// Where in the block the buffer of a slot begins, and its length.
fn place(slot: u32, size: u32) -> (usize, usize)
    ensures { (result.0 ≡ slot * size) × (result.1 ≡ size) }
{
    let len = size as usize;
    (slot as usize * len, len)
}
