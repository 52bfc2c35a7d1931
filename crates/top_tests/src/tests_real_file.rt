// The top call over a real file: a file is bound by one disk at a time, since two programs on one image would each append where it found
// the end, and lay their commits over one another.
use file_disk::FileDisk;
use iso_disk::Image;
use std::alloc::{AllocError, Global};
use std::fs;
use std::sync::Wait;
use std::test::Fail;
use std::thread::Threads;
use top_calls::{call_over, source_of, whole_sink};

/// The status and the output of a call on a disk, and the disk.
fn called<I: Image + Send + Drop, R: Threads + Wait + Sync>(
    rt: &R,
    alloc: Global,
    line: &str,
    disk: I,
    script: &[u8],
) -> Result<(u8, Vec<u8>, I), AllocError> {
    let source = source_of(alloc, script)?;
    call_over(rt, alloc, line, disk, source, whole_sink(alloc))
}

#[test]
fn a_second_program_on_an_image_is_told_a_fault(rt: HostRuntime) -> Result<(), Fail> {
    let alloc = rt.alloc();
    let _ = fs::remove_file(&rt, "two_programs.img");
    let new = "isotope new two_programs.img --block-size 64 --blocks 4 --log 256";
    let run = "isotope run two_programs.img";
    let commit = b"1 begin\n1 put 0 0 aa\n1 end\n";
    let disk = FileDisk::new(rt.clone()?, alloc);
    let (status, told, first) = called(&rt, alloc, new, disk, commit)?;
    assert_eq!(rt; status, 0);
    assert_eq!(rt;
        told.as_slice(),
        b"1 ok begin 0\n1 ok\n1 ok commit 1\n".as_slice()
    );
    // the first call's image is bound still
    let disk = FileDisk::new(rt.clone()?, alloc);
    let (status, told, _disk) = called(&rt, alloc, run, disk, commit)?;
    assert_eq!(rt; status, 5);
    assert_eq!(rt; told.as_slice(), b"! disk fault\n".as_slice());
    drop(first);
    let disk = FileDisk::new(rt.clone()?, alloc);
    let (status, told, _disk) = called(&rt, alloc, run, disk, commit)?;
    assert_eq!(rt; status, 0);
    assert_eq!(rt;
        told.as_slice(),
        b"1 ok begin 1\n1 ok\n1 ok commit 2\n".as_slice()
    );
    fs::remove_file(&rt, "two_programs.img")?;
    Ok(())
}

#[test]
fn a_good_script_ends_with_status_0(rt: HostRuntime) -> Result<(), Fail> {
    let alloc = rt.alloc();
    let name = "a_good_script_ends_with_status_0.img";
    let _ = fs::remove_file(&rt, name);
    let new = "isotope new a_good_script_ends_with_status_0.img";
    let disk = FileDisk::new(rt.clone()?, alloc);
    let script = b"1 begin\n1 put 2 5 abcd\n1 end\n";
    let (status, told, disk) = called(&rt, alloc, new, disk, script)?;
    assert_eq!(rt; status, 0);
    assert_eq!(rt; disk.faults(), 0);
    assert_eq!(rt;
        told.as_slice(),
        b"1 ok begin 0\n1 ok\n1 ok commit 1\n".as_slice()
    );
    assert_eq!(rt; fs::metadata(&rt, name)?.len(), 16_777_344);
    fs::remove_file(&rt, name)?;
    Ok(())
}
