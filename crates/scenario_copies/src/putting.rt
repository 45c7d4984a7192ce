//! A unit that is put.
ghost use Rattle.std.specs.Prelude.{◌≡◌, ◌+◌, ◌<◌, ◌^◌, IfOk, length};
ghost use Rattle.bench.specs.declared.Dev.{Dev};
ghost use Rattle.bench.specs.Meter.{IsAttached, SameNames};
ghost use Rattle.copier.specs.Copiers.{Fits};
ghost use Rattle.copier_course.specs.Courses.{IsCopyJob};

use crate::lines::show_step;
use anyhow::{Result, bail};
use base_fields::Span;
use bench::Bench;
use copier::{Copier, CopyJob, Need};
use outside::{Files, fill};
use std::alloc::Global;

/// Puts the unit that is next with the source's bytes, or with so many equal ones, and says what came of it.
pub fn put<F: Files, B: Bench>(
    alloc: Global,
    files: &mut F,
    bench: &mut B,
    copier: &mut Copier<'_>,
    job: &CopyJob,
    byte: Option<u8>,
) -> Result<String>
    requires target { IsAttached (B.meter bench.old) Dev.Target }
    requires journal { IsAttached (B.meter bench.old) Dev.Journal }
    requires fits { B.told → Fits copier.old.job copier.old.progress (B.disk bench.old) }
    requires own { copier.old.job ≡ job.now }
    requires job { IsCopyJob job.now }
    ensures fits { B.told → Fits copier.new.job copier.new.progress (B.disk bench.new) }
    ensures job { copier.new.job ≡ copier.old.job }
    ensures lease { copier.new.lease ≡ copier.old.lease }
    ensures same_names { SameNames (B.meter bench.old) (B.meter bench.new) }
{
    let Need::Unit { k } = copier.need() else {
        return Ok(String::from_str(alloc, "no unit is next")?);
    };
    if k >= job.units.count() {
        bail!("no such unit");
    }
    let span = job.units.span(k);
    let bytes = match byte {
        Some(byte) => equal_bytes(alloc, span.len as usize, byte)?,
        None => bytes_in(alloc, files, job.source.text(), span)?,
    };
    show_step(alloc, &job.source, copier.put(bench, k, &bytes))
}

/// So many equal bytes.
fn equal_bytes(alloc: Global, len: usize, byte: u8) -> Result<Vec<u8>>
    ensures { IfOk result (λ bytes. length bytes.items ≡ len) }
{
    Ok(vec![in alloc; byte; len]?)
}

/// The bytes of a file in a span.
fn bytes_in<F: Files>(alloc: Global, files: &mut F, name: &str, span: Span) -> Result<Vec<u8>>
    requires { span.at + span.len < 2 ^ 64 }
    ensures { IfOk result (λ bytes. length bytes.items ≡ span.len) }
{
    let mut bytes = vec![in alloc; 0; span.len as usize]?;
    match fill(files, name, span.at, &mut bytes) {
        Ok(()) => Ok(bytes),
        Err(fault) => bail!("the unit's bytes aren't read: {fault:?}"),
    }
}
