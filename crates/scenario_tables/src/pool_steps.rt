//! A step on a pool of buffers.
ghost use Rattle.std.specs.Prelude.{◌≡◌};

use anyhow::{Result, bail};
use region_pool::Pool;
use scenario_words::Arguments;
use std::alloc::Global;

/// A step on a pool of buffers.
#[derive(Clone, Copy, Debug, PartialEq, Eq)]
pub enum PoolStep {
    /// Three leases of a pool of two buffers of so many bytes: which are had, what a byte written through the first
    /// reads through each, and whether a lease is had once the first is given back.
    ThreeLeases { bytes: u32 },
}

impl PoolStep {
    /// The step of a verb, where it is one of these.
    pub fn read(verb: &str, words: &mut Arguments) -> Result<Option<PoolStep>> {
        match verb {
            "three-leases" => Ok(Some(PoolStep::ThreeLeases {
                bytes: words.word("a buffer's size")?,
            })),
            _ => Ok(None),
        }
    }

    /// Does it, and says what came of it.
    pub fn play(self, alloc: Global) -> Result<String> {
        match self {
            PoolStep::ThreeLeases { bytes } => three_leases(alloc, bytes),
        }
    }
}

/// Whether a lease is had, which goes back at once.
fn has_lease(pool: &mut Pool) -> bool
    ensures { pool.new ≡ pool.old }
{
    match pool.lease() {
        Some(lease) => {
            pool.give(lease);
            true
        }
        None => false,
    }
}

#[tactic(auto, using(region_pool::proofs::Leases::leases))]
fn three_leases(alloc: Global, bytes: u32) -> Result<String> {
    if bytes < 16_384 || bytes > 4_194_304 {
        bail!("no size of a buffer");
    }
    let mut pool = Pool::new(alloc, 0, 2, bytes)?;
    let Some(first) = pool.lease() else {
        bail!("no first lease");
    };
    let Some(second) = pool.lease() else {
        pool.give(first);
        bail!("no second lease");
    };
    let third = has_lease(&mut pool);
    pool.bytes_mut(&first)[0] = 7;
    let own = pool.bytes(&first)[0];
    let other = pool.bytes(&second)[0];
    pool.give(first);
    let again = has_lease(&mut pool);
    pool.give(second);
    Ok(format!(in alloc; "third {third}, own {own}, other {other}, again {again}")?)
}
