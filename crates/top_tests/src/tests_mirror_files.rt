// The disk of the program: pages that are kept of a mirror of two files.
use crate::asked::{FAULT, same};
use file_disk::FileDisk;
use kept_disk::Kept;
use mirror_disk::Mirror;
use std::fs;
use std::sync::Wait;
use std::test::Fail;
use std::thread::Threads;
use top_calls::{call_over, source_of, whole_sink};

const NEW: &str = "isotope new files.img+ --block-size 64 --blocks 4 --log 256";

const AGAIN: &str = "isotope run files.img+";

/// The files of its sides.
const FIRST: &str = "files.img+0";

const SECOND: &str = "files.img+1";

const COMMIT: &[u8] = b"1 begin\n1 put 0 0 aa\n1 end\n";

const STAT: &[u8] = b"1 stat\n";

const ONE_COMMIT: &[u8] = b"1 ok last 1 base 0 trim 0 live 0 used 29 versions 1\n";

/// The status and the output of a call over the two files, which are closed after it.
fn over_files<R: Threads + Wait + Sync>(
    threads: &R,
    rt: &HostRuntime,
    line: &str,
    script: &[u8],
) -> Result<(u8, Vec<u8>), Fail> {
    let alloc = rt.alloc();
    let first = FileDisk::new(rt.clone()?, alloc);
    let second = FileDisk::new(rt.clone()?, alloc);
    let disk = Kept::new(alloc, Mirror::of(first, second));
    let source = source_of(alloc, script)?;
    let (status, output, _disk) = call_over(threads, alloc, line, disk, source, whole_sink(alloc))?;
    Ok((status, output))
}

/// Whether a run of the two files is told a fault of the disk, and nothing else.
fn is_fault<R: Threads + Wait + Sync>(threads: &R, rt: &HostRuntime) -> Result<bool, Fail> {
    let (status, output) = over_files(threads, rt, AGAIN, STAT)?;
    Ok(status == 5 && output.as_slice() == FAULT)
}

/// Whether a run of the two files shows the one commit, and both are the same then.
fn is_whole<R: Threads + Wait + Sync>(threads: &R, rt: &HostRuntime) -> Result<bool, Fail> {
    let (status, output) = over_files(threads, rt, AGAIN, STAT)?;
    let one = fs::read(rt, FIRST)?;
    let two = fs::read(rt, SECOND)?;
    Ok(status == 0 && output.as_slice() == ONE_COMMIT && one.as_slice() == two.as_slice())
}

#[test]
fn two_files_of_which_one_is_damaged_removed_and_replaced(rt: HostRuntime) -> Result<(), Fail> {
    let _ = fs::remove_file(&rt, FIRST);
    let _ = fs::remove_file(&rt, SECOND);
    let (status, _output) = over_files(&rt, &rt, NEW, COMMIT)?;
    same(&rt, status, 0);
    let good = fs::read(&rt, FIRST)?;
    same(&rt, good.len(), 1216);
    assert!(rt; is_whole(&rt, &rt)?);
    // bytes of the image in the second file are damaged
    let mut damaged = fs::read(&rt, SECOND)?;
    if let Some(byte) = damaged.get_mut(300) {
        *byte = 77;
    }
    fs::write(&rt, SECOND, damaged.as_slice())?;
    assert!(rt; is_whole(&rt, &rt)?);
    // it is gone
    fs::remove_file(&rt, SECOND)?;
    assert!(rt; is_fault(&rt, &rt)?);
    assert!(rt; fs::read(&rt, FIRST)?.as_slice() == good.as_slice());
    // it is shorter
    fs::write(&rt, SECOND, b"ISOMIRR1".as_slice())?;
    assert!(rt; is_fault(&rt, &rt)?);
    // the good one is copied
    fs::write(&rt, SECOND, good.as_slice())?;
    assert!(rt; is_whole(&rt, &rt)?);
    fs::remove_file(&rt, FIRST)?;
    fs::remove_file(&rt, SECOND)?;
    Ok(())
}

#[test]
fn two_files_of_zeros_are_no_mirror(rt: HostRuntime) -> Result<(), Fail> {
    let zeros = vec![in rt.alloc(); 0; 1216]?;
    fs::write(&rt, "zeros.img+0", zeros.as_slice())?;
    fs::write(&rt, "zeros.img+1", zeros.as_slice())?;
    let (status, output) = over_files(&rt, &rt, "isotope run zeros.img+", STAT)?;
    same(&rt, (status, output.as_slice()), (5, FAULT));
    assert!(rt; fs::read(&rt, "zeros.img+0")?.as_slice() == zeros.as_slice());
    fs::remove_file(&rt, "zeros.img+0")?;
    fs::remove_file(&rt, "zeros.img+1")?;
    Ok(())
}
