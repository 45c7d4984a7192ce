ghost use Rattle.std.specs.Prelude.{◌≡◌, ◌+◌, ◌≤◌, ◌↔◌, ℕ, IsErr, IsSome, IsTrue, IfOk, OnErr, string_bytes, None};
ghost use Rattle.std.proofs.Common.{rules};
ghost use Rattle.bench.specs.declared.Dev.{Dev};
ghost use Rattle.bench.specs.Disk.{untold};
ghost use Rattle.bench.specs.Meter.{of_device};
ghost use Rattle.bench_devices.specs.HostBench.{counted, lost_of, name_of};
ghost use Rattle.outside.specs.Counts.{IsCount};

use crate::faults::Faults;
use crate::opening::{Device, open};
use bench::{Bench, BenchErr, Dev};
use std::fs::OpenFile;
use std::io::{ErrorKind, Seek, SeekFrom};
use std::os::unix::fs::FileExt;
use std::{io, rt};

/// Real files and devices, each by its path. They tell nothing of what they hold.
///
/// Once a sync of a device has failed, every later call on it fails: the system may answer the next sync Ok although
/// what was written is lost.
#[derive(Drop)]
pub struct HostBench<R: rt::Files + AllocGlobal> {
    rt: R,
    target: Option<Device<R::File>>,
    journal: Option<Device<R::File>>,
    faults: Faults,
    ghost faults_end: { (each : Dev) → IsCount (of_device each faults) },
}

impl<R: rt::Files + AllocGlobal> HostBench<R>
where
    R::File: FileExt,
{
    /// No device is attached. Touches no file.
    pub fn new(rt: R) -> HostBench<R>
        ensures { ⟦<HostBench<R> as Bench>⟧.meter result ≡ counted (record { target = 0; journal = 0 }) None None }
    {
        HostBench {
            rt,
            target: None,
            journal: None,
            faults: Faults::new(),
        }
    }
}

impl<R: rt::Files + AllocGlobal> Bench for HostBench<R>
where
    R::File: FileExt,
{
    ghost told = { ⊥ };

    ghost disk = { λ _. untold };

    ghost meter = { λ h. counted h.faults (name_of h.target) (name_of h.journal) };

    ghost counts_now = { λ _ m t j le pair. absurd pair.0 };

    ghost only_now = { λ _ t j left. absurd left };

    ghost reads_leave = { λ told. absurd told };

    ghost fails_past_room = { Prim.search rules };

    ghost counts_end = { λ h dev. h.faults_end dev };

    fn attach(&mut self, dev: Dev, name: &str) -> Result<(), BenchErr> {
        let outcome = match dev {
            Dev::Target => attached(&self.rt, dev, name, &self.target, &self.journal),
            Dev::Journal => attached(&self.rt, dev, name, &self.journal, &self.target),
        };
        let device = self.faults.counted(dev, outcome)?;
        match dev {
            Dev::Target => self.target = Some(device),
            Dev::Journal => self.journal = Some(device),
        }
        Ok(())
    }

    fn length(&mut self, dev: Dev) -> Result<u64, BenchErr> {
        let outcome = match dev {
            Dev::Target => end_of(&mut self.target),
            Dev::Journal => end_of(&mut self.journal),
        };
        self.faults.counted(dev, outcome)
    }

    fn read_at(&mut self, dev: Dev, at: u64, buf: &mut [u8]) -> Result<(), BenchErr> {
        let outcome = match dev {
            Dev::Target => read_from(&mut self.target, at, buf),
            Dev::Journal => read_from(&mut self.journal, at, buf),
        };
        self.faults.counted(dev, outcome)
    }

    fn write_at(&mut self, dev: Dev, at: u64, bytes: &[u8]) -> Result<(), BenchErr> {
        let outcome = match dev {
            Dev::Target => write_to(&mut self.target, at, bytes),
            Dev::Journal => write_to(&mut self.journal, at, bytes),
        };
        self.faults.counted(dev, outcome)
    }

    fn grow(&mut self, len: u64) -> Result<(), BenchErr> {
        let outcome = lengthen(&mut self.journal, len);
        self.faults.counted(Dev::Journal, outcome)
    }

    fn sync(&mut self, dev: Dev) -> Result<(), BenchErr> {
        let outcome = match dev {
            Dev::Target => settle(&mut self.target),
            Dev::Journal => settle(&mut self.journal),
        };
        self.faults.counted(dev, outcome)
    }
}

/// Opens a device that takes the place of `own`. Refuses the file that the other device already is, and any device
/// once a sync of `own` has failed.
fn attached<R: rt::Files + AllocGlobal>(
    rt: &R,
    dev: Dev,
    name: &str,
    own: &Option<Device<R::File>>,
    other: &Option<Device<R::File>>,
) -> io::Result<Device<R::File>>
    ensures named { IfOk result (λ d. string_bytes d.name ≡ name.now) }
    ensures lost { IsTrue (lost_of own.now) → IsErr result }
{
    usable(own)?;
    let device = open(rt, dev, name)?;
    match other {
        Some(other) if other.node.is_same(device.node) => {
            Err(io::Error::from(ErrorKind::ResourceBusy))
        }
        _ => Ok(device),
    }
}

/// Fails where a sync of the device has failed.
fn usable<F>(device: &Option<Device<F>>) -> io::Result<()>
    ensures { IsErr result ↔ IsTrue (lost_of device.now) }
{
    match device {
        Some(device) if device.lost => Err(io::Error::from(ErrorKind::Other)),
        _ => Ok(()),
    }
}

/// The place of the end, which a block device has too where its metadata says 0.
fn end_of<F: Seek>(device: &mut Option<Device<F>>) -> io::Result<u64>
    requires { IsSome device.old }
    ensures name { name_of device.new ≡ name_of device.old }
    ensures lost { IsTrue (lost_of device.old) → IsErr result }
    ensures same_lost { lost_of device.new ≡ lost_of device.old }
{
    usable(device)?;
    match device {
        Some(device) => device.file.seek(SeekFrom::End(0)),
        None => unreachable!(),
    }
}

/// Fills the buffer, or fails where the range isn't inside the length.
fn read_from<F: FileExt + Seek>(
    device: &mut Option<Device<F>>,
    at: u64,
    buf: &mut [u8],
) -> io::Result<()>
    requires { IsSome device.old }
    ensures name { name_of device.new ≡ name_of device.old }
    ensures lost { IsTrue (lost_of device.old) → IsErr result }
    ensures same_lost { lost_of device.new ≡ lost_of device.old }
{
    usable(device)?;
    let Some(device) = device else { unreachable!() };
    let end = device.file.seek(SeekFrom::End(0))?;
    within(at, buf.len(), end)?;
    device.file.read_exact_at(buf, at)
}

/// Writes bytes, or fails where the range isn't inside the length.
fn write_to<F: FileExt + Seek>(
    device: &mut Option<Device<F>>,
    at: u64,
    bytes: &[u8],
) -> io::Result<()>
    requires { IsSome device.old }
    ensures name { name_of device.new ≡ name_of device.old }
    ensures lost { IsTrue (lost_of device.old) → IsErr result }
    ensures same_lost { lost_of device.new ≡ lost_of device.old }
{
    usable(device)?;
    let Some(device) = device else { unreachable!() };
    let end = device.file.seek(SeekFrom::End(0))?;
    within(at, bytes.len(), end)?;
    device.file.write_all_at(bytes, at)
}

/// Fails where a range, also one of no bytes, doesn't lie before the end.
fn within(at: u64, len: usize, end: u64) -> io::Result<()>
    ensures { IfOk result (λ _. at + len ≤ end) }
{
    if at > end || len as u64 > end - at {
        return Err(io::Error::from(ErrorKind::UnexpectedEof));
    }
    Ok(())
}

/// Sets the length, or fails where that is below the present one.
fn lengthen<F: OpenFile + Seek>(device: &mut Option<Device<F>>, len: u64) -> io::Result<()>
    requires { IsSome device.old }
    ensures name { name_of device.new ≡ name_of device.old }
    ensures lost { IsTrue (lost_of device.old) → IsErr result }
    ensures same_lost { lost_of device.new ≡ lost_of device.old }
{
    usable(device)?;
    let Some(device) = device else { unreachable!() };
    let end = device.file.seek(SeekFrom::End(0))?;
    if len < end {
        return Err(io::Error::from(ErrorKind::InvalidInput));
    }
    if len > end {
        device.file.set_len(len)?;
    }
    Ok(())
}

/// Waits until all that was written, and the length, is on the disk. Where that fails, the device is lost.
fn settle<F: OpenFile>(device: &mut Option<Device<F>>) -> io::Result<()>
    requires { IsSome device.old }
    ensures name { name_of device.new ≡ name_of device.old }
    ensures lost { IsTrue (lost_of device.old) → IsErr result }
    ensures failed { OnErr result (IsTrue (lost_of device.new)) }
{
    usable(device)?;
    let Some(device) = device else { unreachable!() };
    let outcome = device.file.sync_data();
    device.lost = outcome.is_err();
    outcome
}
