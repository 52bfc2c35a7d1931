// The sizes of files.
use crate::desks::desk_with_files;
use device_desk::Status::{BadName, Done, Missing, NoTransaction};
use device_desk::{Desk, Status, status_of};
use iso_model::Memory;
use queued_disk::QueuedDisk;
use script_model::Reply;
use std::alloc::Global;
use std::test::Fail;

// What the size of a file is answered, and the four bytes that are found, else others.
fn size_of(desk: &mut Desk<QueuedDisk>, tx: u64, name: &[u8]) -> (Status, [u8; 4]) {
    let answer = desk.file_size(tx, name);
    let bytes = match &answer {
        Ok(Reply::Found(bytes)) => match bytes.as_slice() {
            [a, b, c, d] => [*a, *b, *c, *d],
            _ => [1; 4],
        },
        _ => [2; 4],
    };
    (status_of(&answer), bytes)
}

// A file that is empty, one of 300 bytes, one that is not there, a name that is none, and a transaction that is none.
fn sizes(alloc: Global) -> Result<[(Status, [u8; 4]); 5], Memory> {
    let mut desk = desk_with_files(alloc)?;
    let mut tx = 0;
    let _ = desk.begin(None, &mut tx);
    let _ = desk.file_new(tx, b"a");
    let empty = size_of(&mut desk, tx, b"a");
    let _ = desk.file_write(tx, b"a", 0, &[7; 300]);
    let long = size_of(&mut desk, tx, b"a");
    let none = size_of(&mut desk, tx, b"b");
    let bad = size_of(&mut desk, tx, b"");
    let nobodys = size_of(&mut desk, tx.saturating_add(1), b"a");
    Ok([empty, long, none, bad, nobodys])
}

#[test]
fn the_size_is_how_many_bytes_were_written(rt: HostRuntime) -> Result<(), Fail> {
    let wanted = [
        (Done, [0, 0, 0, 0]),
        (Done, [0, 0, 1, 44]),
        (Missing, [2; 4]),
        (BadName, [2; 4]),
        (NoTransaction, [2; 4]),
    ];
    assert_eq!(rt; sizes(rt.alloc())?, wanted);
    Ok(())
}
