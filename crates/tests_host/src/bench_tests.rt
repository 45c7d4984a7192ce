use crate::script::{Content, Script};
use crate::scripted::Scripted;
use bench::{Bench, Dev};
use bench_devices::{HostBench, lists};
use std::process::Abort;
use std::test::Fail;

#[test]
fn a_device_is_lost_by_a_sync_that_failed(rt: HostRuntime) -> Result<(), Fail> {
    let script = Script::new(rt.alloc(), Content::of(b"abcd"), Content::of(b"j"));
    let mut bench = HostBench::new(Scripted { script: &script });
    assert!(rt; bench.attach(Dev::Target, "target").is_ok());
    assert!(rt; bench.attach(Dev::Journal, "journal").is_ok());
    assert!(rt; bench.write_at(Dev::Target, 1, b"xy").is_ok());
    assert!(rt; bench.sync(Dev::Target).is_ok());
    assert_eq!(rt; script.target_syncs.get(), 1);
    script.fail_next();
    assert!(rt; bench.sync(Dev::Target).is_err());
    let mut buf = [0u8; 1];
    assert!(rt; bench.length(Dev::Target).is_err());
    assert!(rt; bench.read_at(Dev::Target, 0, &mut buf).is_err());
    assert!(rt; bench.write_at(Dev::Target, 0, b"x").is_err());
    assert!(rt; bench.sync(Dev::Target).is_err());
    assert!(rt; bench.sync(Dev::Journal).is_ok());
    assert_eq!(rt; script.target_syncs.get(), 1);
    assert_eq!(rt; script.journal_syncs.get(), 1);
    assert_eq!(rt; script.target.get().bytes[..4], *b"axyd".as_slice());
    Ok(())
}

#[test]
fn a_lost_device_is_not_attached_again(rt: HostRuntime) -> Result<(), Fail> {
    let script = Script::new(rt.alloc(), Content::of(b"abcd"), Content::absent());
    let mut bench = HostBench::new(Scripted { script: &script });
    assert!(rt; bench.attach(Dev::Target, "target").is_ok());
    script.fail_next();
    assert!(rt; bench.sync(Dev::Target).is_err());
    assert!(rt; bench.attach(Dev::Target, "target").is_err());
    assert!(rt; bench.length(Dev::Target).is_err());
    Ok(())
}

#[test]
fn a_new_journal_is_there_after_a_stop(rt: HostRuntime) -> Result<(), Fail> {
    let script = Script::new(rt.alloc(), Content::of(b"abcd"), Content::absent());
    let mut bench = HostBench::new(Scripted { script: &script });
    assert!(rt; bench.attach(Dev::Journal, "journal").is_ok());
    assert!(rt; script.journal.get().there);
    assert_eq!(rt; script.folder_syncs.get(), 1);
    assert!(rt; bench.grow(3).is_ok());
    assert!(rt; bench.grow(2).is_err());
    assert_eq!(rt; bench.length(Dev::Journal), Ok(3));
    Ok(())
}

#[test]
fn a_journal_keeps_its_bytes(rt: HostRuntime) -> Result<(), Fail> {
    let script = Script::new(rt.alloc(), Content::of(b"abcd"), Content::of(b"kept"));
    let mut bench = HostBench::new(Scripted { script: &script });
    assert!(rt; bench.attach(Dev::Journal, "journal").is_ok());
    assert_eq!(rt; script.folder_syncs.get(), 0);
    assert_eq!(rt; bench.length(Dev::Journal), Ok(4));
    let mut buf = [0u8; 4];
    assert!(rt; bench.read_at(Dev::Journal, 0, &mut buf).is_ok());
    assert_eq!(rt; buf, *b"kept");
    Ok(())
}

#[test]
fn a_folder_that_is_not_settled_fails(rt: HostRuntime) -> Result<(), Fail> {
    for call in 0..4 {
        let script = Script::new(rt.alloc(), Content::of(b"abcd"), Content::absent());
        let mut bench = HostBench::new(Scripted { script: &script });
        script.fails.set(call);
        assert!(rt; bench.attach(Dev::Journal, "journal").is_err());
        assert!(rt; bench.attach(Dev::Journal, "journal").is_ok());
        assert_eq!(rt; script.folder_syncs.get(), 1);
    }
    Ok(())
}

#[test]
fn a_range_outside_is_a_failure(rt: HostRuntime) -> Result<(), Fail> {
    let script = Script::new(rt.alloc(), Content::of(b"abcd"), Content::absent());
    let mut bench = HostBench::new(Scripted { script: &script });
    assert!(rt; bench.attach(Dev::Target, "target").is_ok());
    let mut buf = [0u8; 2];
    assert!(rt; bench.read_at(Dev::Target, 4, &mut buf[..0]).is_ok());
    assert!(rt; bench.write_at(Dev::Target, 4, b"").is_ok());
    assert!(rt; bench.read_at(Dev::Target, 5, &mut buf[..0]).is_err());
    assert!(rt; bench.write_at(Dev::Target, 5, b"").is_err());
    assert!(rt; bench.read_at(Dev::Target, 3, &mut buf).is_err());
    assert!(rt; bench.write_at(Dev::Target, 3, b"xy").is_err());
    assert_eq!(rt; script.target.get().bytes[..5], *b"abcd\0".as_slice());
    Ok(())
}

#[test]
fn a_protected_target_is_read(rt: HostRuntime) -> Result<(), Fail> {
    let script = Script::new(rt.alloc(), Content::of(b"abcd"), Content::absent());
    script.protected.set(true);
    let mut bench = HostBench::new(Scripted { script: &script });
    assert!(rt; bench.attach(Dev::Target, "target").is_ok());
    let mut buf = [0u8; 2];
    assert!(rt; bench.read_at(Dev::Target, 1, &mut buf).is_ok());
    assert_eq!(rt; buf, *b"bc");
    assert!(rt; bench.write_at(Dev::Target, 1, b"x").is_err());
    Ok(())
}

#[test]
fn what_is_no_file_is_refused(rt: HostRuntime) -> Result<(), Fail> {
    let script = Script::new(rt.alloc(), Content::absent(), Content::absent());
    let mut bench = HostBench::new(Scripted { script: &script });
    assert!(rt; bench.attach(Dev::Target, "target").is_err());
    assert!(rt; bench.attach(Dev::Target, "pipe").is_err());
    assert!(rt; bench.attach(Dev::Journal, "pipe").is_err());
    assert_eq!(rt; script.opened.get(), 0);
    Ok(())
}

/// Writes and reads in short transfers, of which one is interrupted.
fn moves_all(rt: &impl Abort, script: &Script) -> Result<(), Fail> {
    let mut bench = HostBench::new(Scripted { script });
    assert!(rt; bench.attach(Dev::Target, "target").is_ok());
    script.most.set(1);
    assert!(rt; bench.write_at(Dev::Target, 1, b"xyz").is_ok());
    let mut buf = [0u8; 4];
    assert!(rt; bench.read_at(Dev::Target, 0, &mut buf).is_ok());
    assert_eq!(rt; buf, *b"axyz");
    Ok(())
}

#[test]
fn short_transfers_move_all(rt: HostRuntime) -> Result<(), Fail> {
    // Call 0 opens the target, 1 asks for its end, 2 to 4 write, 5 asks for its end, and 6 to 9 read.
    for call in [2, 3, 4, 6, 9, u64::MAX] {
        let script = Script::new(rt.alloc(), Content::of(b"abcd"), Content::absent());
        script.interrupted.set(call);
        moves_all(&rt, &script)?;
    }
    Ok(())
}

#[test]
fn each_call_that_fails_is_answered(rt: HostRuntime) -> Result<(), Fail> {
    // A write asks for the end and writes; a sync is one call.
    for call in 0..4 {
        let script = Script::new(rt.alloc(), Content::of(b"abcd"), Content::of(b"j"));
        let mut bench = HostBench::new(Scripted { script: &script });
        assert!(rt; bench.attach(Dev::Target, "target").is_ok());
        script.fails.set(script.calls.get().saturating_add(call));
        let wrote = bench.write_at(Dev::Target, 1, b"xy");
        let synced = bench.sync(Dev::Target);
        assert_eq!(rt; wrote.is_err(), call < 2);
        assert_eq!(rt; synced.is_err(), call == 2);
    }
    Ok(())
}

#[test]
fn mounts_are_listed_by_number(rt: HostRuntime) -> Result<(), Fail> {
    let text = b"21 1 8:17 / / rw - ext4 /dev/sdb1 rw\n22 21 0:5 / /8:2 rw - tmpfs tmpfs rw\n";
    // A number of a device has its lower eight bits behind the upper part.
    for (first, second, listed) in [
        (8, 17, true),
        (0, 5, true),
        (8, 1, false),
        (8, 2, false),
        (8, 16, false),
    ] {
        let device: u64 = (first << 8) + second;
        assert_eq!(rt; lists(text.as_slice(), device), listed);
    }
    Ok(())
}
