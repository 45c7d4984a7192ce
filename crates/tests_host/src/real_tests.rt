use bench::{Bench, Dev};
use bench_devices::HostBench;
use host_files::{HostFiles, HostPrinter};
use outside::{FileErr, Files, FillFault, Printer, fill};
use std::fs;
use std::test::Fail;

#[test]
fn host_files_are_real(rt: HostRuntime) -> Result<(), Fail> {
    let mut files = HostFiles::new(&rt);
    files.create("host_test.bin", 4)?;
    files.write_at("host_test.bin", 2, &[7, 8, 9])?;
    assert_eq!(rt; files.length("host_test.bin"), Ok(5));
    let mut buf = [1u8; 8];
    assert_eq!(rt; files.read_at("host_test.bin", 1, &mut buf), Ok(4));
    assert_eq!(rt; buf, [0, 7, 8, 9, 1, 1, 1, 1]);
    assert_eq!(rt; files.read_at("host_test.bin", 5, &mut buf), Ok(0));
    assert_eq!(rt;
        fill(&mut files, "host_test.bin", 2, &mut buf),
        Err(FillFault::Short { at: 5 })
    );
    files.create("host_test.bin", 2)?;
    assert_eq!(rt; files.length("host_test.bin"), Ok(2));
    assert_eq!(rt; files.length("absent.bin"), Err(FileErr::Missing));
    assert_eq!(rt; files.length("/dev/null"), Err(FileErr::Failed));
    fs::remove_file(&rt, "host_test.bin")?;
    Ok(())
}

#[test]
fn host_devices_are_real(rt: HostRuntime) -> Result<(), Fail> {
    fs::write(&rt, "bench_target.bin", "EEEEEE")?;
    let mut bench = HostBench::new(&rt);
    assert!(rt; bench.attach(Dev::Journal, "bench_journal.bin").is_ok());
    assert!(rt; bench.attach(Dev::Target, "bench_absent.bin").is_err());
    assert!(rt; bench.attach(Dev::Target, "bench_target.bin").is_ok());
    assert_eq!(rt; bench.length(Dev::Journal), Ok(0));
    assert!(rt; bench.grow(2).is_ok());
    assert!(rt; bench.write_at(Dev::Target, 4, b"abc").is_err());
    assert!(rt; bench.write_at(Dev::Target, 0, b"abc").is_ok());
    assert!(rt; bench.sync(Dev::Target).is_ok());
    let mut buf = [0u8; 3];
    assert!(rt; bench.read_at(Dev::Target, 2, &mut buf).is_ok());
    assert_eq!(rt; buf, *b"cEE");
    assert_eq!(rt;
        fs::read(&rt, "bench_target.bin")?.as_slice(),
        b"abcEEE".as_slice()
    );
    assert_eq!(rt;
        fs::read(&rt, "bench_journal.bin")?.as_slice(),
        [0, 0].as_slice()
    );
    fs::remove_file(&rt, "bench_target.bin")?;
    fs::remove_file(&rt, "bench_journal.bin")?;
    Ok(())
}

#[test]
fn one_file_is_not_both(rt: HostRuntime) -> Result<(), Fail> {
    fs::write(&rt, "bench_one.bin", "EEEE")?;
    fs::hard_link(&rt, "bench_one.bin", "bench_two.bin")?;
    let mut bench = HostBench::new(&rt);
    assert!(rt; bench.attach(Dev::Journal, "bench_one.bin").is_ok());
    assert!(rt; bench.attach(Dev::Target, "bench_two.bin").is_err());
    assert!(rt; bench.attach(Dev::Target, "./bench_one.bin").is_err());
    assert_eq!(rt; bench.length(Dev::Journal), Ok(4));
    fs::remove_file(&rt, "bench_one.bin")?;
    fs::remove_file(&rt, "bench_two.bin")?;
    Ok(())
}

#[test]
fn host_printer_prints(rt: HostRuntime) -> Result<(), Fail> {
    HostPrinter::new(&rt).line(b"a line of the test \xFF")?;
    Ok(())
}
