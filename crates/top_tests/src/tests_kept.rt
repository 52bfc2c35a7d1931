// How often a disk is read whose pages are kept.
use iso_disk::Image;
use iso_memdisk::{CallKind, MemDisk};
use kept_disk::Kept;
use std::alloc::{AllocError, Global};
use std::sync::Wait;
use std::test::Fail;
use std::thread::Threads;
use top_calls::{call_over, source_of, whole_sink};

/// A bench of 200 rounds, which makes 379 commits.
const BENCH: &str = "isotope bench t.img 7 200";

const SUMMARY: &[u8] = b"rounds 200 commits 379 conflicts 21 sha256 ";

/// A disk that can be read `reads` times.
fn readable(alloc: Global, reads: u64) -> MemDisk {
    let mut disk = MemDisk::new(alloc, Vec::new(alloc));
    disk.fail_kind(CallKind::Read, reads.saturating_add(1));
    disk
}

/// Whether a bench over this disk is done.
fn is_done<I: Image + Send + Drop, R: Threads + Wait + Sync>(
    rt: &R,
    alloc: Global,
    disk: I,
) -> Result<bool, AllocError> {
    let source = source_of(alloc, b"")?;
    let (status, output, _disk) = call_over(rt, alloc, BENCH, disk, source, whole_sink(alloc))?;
    Ok(status == 0 && output.starts_with(SUMMARY))
}

#[test]
fn a_bench_over_kept_pages_reads_the_disk_once_in_twenty_commits(
    rt: HostRuntime,
) -> Result<(), Fail> {
    let alloc = rt.alloc();
    assert!(rt; is_done(&rt, alloc, Kept::new(alloc, readable(alloc, 379 / 20)))?);
    // without pages each of its reads is one of the disk
    assert!(rt; !is_done(&rt, alloc, readable(alloc, 379))?);
    Ok(())
}
