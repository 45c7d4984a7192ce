ghost use Rattle.std.specs.Prelude.{◌≡◌, ℕ, ◌+◌, ◌/◌, ◌^◌, ◌<◌, ◌≤◌, ◌++◌, List, IfOk, OnOk, OnErr, length, take, drop};
ghost use Rattle.sha2.specs.Hashers.{Holds256};
ghost use Rattle.sha2.specs.Sha256.{sha256};
ghost use Rattle.bench.specs.Disk.{Looked, StillLeaves};
ghost use Rattle.bench.specs.Meter.{CostsOn, IsAttached, SameNames};
ghost use Rattle.bench.specs.declared.Dev.{Dev};
ghost use Rattle.block_map.specs.Maps.{part_of};
ghost use Rattle.outside.specs.Counts.{Rose};

use base_fields::Span;
use bench::{Bench, BenchErr, Dev};
use sha2::{Digest, Sha256};

/// The SHA-256 digest of a span of the target's bytes, which is read in pieces of the buffer's length.
pub(crate) fn digest_of<B: Bench>(
    bench: &mut B,
    span: Span,
    buf: &mut [u8],
) -> Result<[u8; 32], BenchErr>
    requires attached { IsAttached (B.meter bench.old) Dev.Target }
    requires room { 16384 ≤ length buf.old }
    requires inside { B.told → span.at + span.len ≤ length ((B.disk bench.old).reads Dev.Target) }
    requires bounded { span.at + span.len < 2 ^ 64 }
    ensures exact { B.told → IfOk result (λ digest. digest ≡ sha256 (part_of span ((B.disk bench.old).reads Dev.Target))) }
    ensures looked { Looked (B.disk bench.old) (B.disk bench.new) }
    ensures stays { (each : Dev) → StillLeaves each (B.disk bench.old) (B.disk bench.new) }
    ensures bill { CostsOn Dev.Target (32 + span.len / 512) (B.meter bench.old) (B.meter bench.new) }
    ensures same_names { SameNames (B.meter bench.old) (B.meter bench.new) }
    ensures failed { OnErr result (Rose (B.meter bench.old).faults.target (B.meter bench.new).faults.target) }
{
    let room = buf.len() as u64;
    let mut hasher = Sha256::new();
    let mut done = 0;
    while span.len - done > room {
        add_piece(bench, span.at + done, buf, &mut hasher)?;
        done += room;
    }
    let rest = (span.len - done) as usize;
    add_piece(bench, span.at + done, &mut buf[..rest], &mut hasher)?;
    Ok(hasher.finalize())
}

/// Adds as many bytes of the target as the buffer has to what is hashed.
fn add_piece<B: Bench>(
    bench: &mut B,
    at: u64,
    buf: &mut [u8],
    hasher: &mut Sha256,
) -> Result<(), BenchErr>
    requires attached { IsAttached (B.meter bench.old) Dev.Target }
    requires inside { B.told → at + length buf.old ≤ length ((B.disk bench.old).reads Dev.Target) }
    ensures added { B.told → OnOk result ((m : List ℕ) → Holds256 hasher.old m → Holds256 hasher.new (m ++ take (length buf.old) (drop at ((B.disk bench.old).reads Dev.Target)))) }
    ensures looked { Looked (B.disk bench.old) (B.disk bench.new) }
    ensures stays { (each : Dev) → StillLeaves each (B.disk bench.old) (B.disk bench.new) }
    ensures bill { CostsOn Dev.Target 32 (B.meter bench.old) (B.meter bench.new) }
    ensures same_names { SameNames (B.meter bench.old) (B.meter bench.new) }
    ensures failed { OnErr result (Rose (B.meter bench.old).faults.target (B.meter bench.new).faults.target) }
{
    bench.read_at(Dev::Target, at, buf)?;
    hasher.update(&*buf);
    Ok(())
}
