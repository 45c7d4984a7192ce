ghost use Rattle.std.specs.Prelude.{◌≡◌, ◌+◌, ◌<◌, ◌^◌, IfErr, length};
ghost use Rattle.outside.specs.Counts.{NoneFell};
ghost use Rattle.outside.specs.Reading.{span_of};
ghost use Rattle.copier.specs.Faults.{IsReadFault};
ghost use Rattle.copier.specs.Steps.{ReadsInto};

use crate::CopyFault;
use base_fields::Span;
use outside::{Files, FillFault, fill};

/// Reads a span of the source into a part of the buffer, which has its length.
pub(crate) fn read_unit<F: Files>(
    files: &mut F,
    name: &str,
    span: Span,
    part: &mut [u8],
) -> Result<(), CopyFault>
    requires whole { length part.old ≡ span.len }
    requires bounded { span.at + span.len < 2 ^ 64 }
    ensures size { length part.new ≡ span.len }
    ensures none_fell { NoneFell (F.counts files.old) (F.counts files.new) }
    ensures same_files { F.file files.new ≡ F.file files.old }
    ensures cause { IfErr result (IsReadFault (F.counts files.old) (F.counts files.new)) }
    ensures read { F.told → ReadsInto (span_of (F.file files.old name.now) span.at span.len) part.new result }
{
    match fill(files, name, span.at, part) {
        Ok(()) => Ok(()),
        Err(FillFault::Missing) => Err(CopyFault::Missing),
        Err(FillFault::Short { at }) => Err(CopyFault::SourceShort { at }),
        Err(FillFault::Failed) => Err(CopyFault::FileFault),
    }
}
