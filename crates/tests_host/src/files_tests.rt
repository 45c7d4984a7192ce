use crate::script::{Content, Script};
use crate::scripted::{Scripted, ScriptedOutput};
use host_files::{HostFiles, HostPrinter};
use outside::{FileErr, Files, PrintErr, Printer, WriteErr};
use std::test::Fail;

#[test]
fn a_file_stays_open(rt: HostRuntime) -> Result<(), Fail> {
    let script = Script::new(rt.alloc(), Content::of(b"abcd"), Content::absent());
    let mut files = HostFiles::new(Scripted { script: &script });
    let mut buf = [0u8; 2];
    for off in [0, 1, 2] {
        assert_eq!(rt; files.read_at("target", off, &mut buf), Ok(2));
    }
    assert_eq!(rt; buf, *b"cd");
    assert_eq!(rt; files.length("target"), Ok(4));
    assert_eq!(rt; script.opened.get(), 1);
    // A buffer that is full asks no more.
    assert_eq!(rt; script.reads.get(), 3);
    Ok(())
}

#[test]
fn a_read_past_the_end_is_an_end(rt: HostRuntime) -> Result<(), Fail> {
    let script = Script::new(rt.alloc(), Content::of(b"abcd"), Content::absent());
    let mut files = HostFiles::new(Scripted { script: &script });
    let mut buf = [0u8; 3];
    for off in [4, 5, 1 << 63, u64::MAX] {
        assert_eq!(rt; files.read_at("target", off, &mut buf), Ok(0));
    }
    assert_eq!(rt; files.read_at("target", 2, &mut buf), Ok(2));
    Ok(())
}

#[test]
fn short_and_interrupted_reads_fill(rt: HostRuntime) -> Result<(), Fail> {
    for call in [1, 2, 4, u64::MAX] {
        let script = Script::new(rt.alloc(), Content::of(b"abcd"), Content::absent());
        script.most.set(1);
        script.interrupted.set(call);
        let mut files = HostFiles::new(Scripted { script: &script });
        let mut buf = [0u8; 4];
        assert_eq!(rt; files.read_at("target", 0, &mut buf), Ok(4));
        assert_eq!(rt; buf, *b"abcd");
    }
    Ok(())
}

#[test]
fn a_file_is_made_and_written(rt: HostRuntime) -> Result<(), Fail> {
    let script = Script::new(rt.alloc(), Content::absent(), Content::absent());
    script.most.set(1);
    let mut files = HostFiles::new(Scripted { script: &script });
    assert_eq!(rt; files.length("target"), Err(FileErr::Missing));
    assert_eq!(rt; files.create("target", 3), Ok(()));
    assert_eq!(rt; files.write_at("target", 2, b"xyz"), Ok(()));
    assert_eq!(rt; files.length("target"), Ok(5));
    assert_eq!(rt; script.target.get().bytes[..5], *b"\0\0xyz".as_slice());
    script.fail_next();
    assert_eq!(rt; files.write_at("target", 0, b"a"), Err(WriteErr::Failed));
    script.fail_next();
    assert_eq!(rt; files.create("target", 1), Err(WriteErr::Failed));
    Ok(())
}

#[test]
fn what_is_no_file_is_not_opened(rt: HostRuntime) -> Result<(), Fail> {
    let script = Script::new(rt.alloc(), Content::absent(), Content::absent());
    let mut files = HostFiles::new(Scripted { script: &script });
    let mut buf = [0u8; 1];
    assert_eq!(rt; files.length("pipe"), Err(FileErr::Failed));
    assert_eq!(rt; files.length("."), Err(FileErr::Failed));
    assert_eq!(rt; files.read_at("pipe", 0, &mut buf), Err(FileErr::Failed));
    assert_eq!(rt; files.create("pipe", 1), Err(WriteErr::Failed));
    assert_eq!(rt; files.write_at("pipe", 0, b"a"), Err(WriteErr::Failed));
    assert_eq!(rt; script.opened.get(), 0);
    Ok(())
}

#[test]
fn a_line_is_one_write(rt: HostRuntime) -> Result<(), Fail> {
    let script = Script::new(rt.alloc(), Content::of(b""), Content::absent());
    let mut printer = HostPrinter::new(ScriptedOutput { script: &script });
    assert_eq!(rt; printer.line(b"ab\xFF"), Ok(()));
    assert_eq!(rt; printer.line(b""), Ok(()));
    script.fail_next();
    assert_eq!(rt; printer.line(b"c"), Err(PrintErr));
    assert_eq!(rt; script.reads.get(), 2);
    assert_eq!(rt; script.target.get().len, 5);
    assert_eq!(rt; script.target.get().bytes[..5], *b"ab\xFF\n\n".as_slice());
    Ok(())
}
