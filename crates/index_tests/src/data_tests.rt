use iso_model::{Bytes, Items, Label, PartList, Reserved};
use std::fmt::Debug;
use std::process::Abort;
use std::test::Fail;

// Two values that are to be the same. Each test that compared them itself would prove what is printed where they differ.
fn same<T: PartialEq + Debug + Drop>(rt: &impl Abort, found: T, wanted: T) {
    assert_eq!(rt; found, wanted);
}

#[test]
fn items_stand_in_order(rt: HostRuntime) -> Result<(), Fail> {
    let alloc = rt.alloc();
    let mut bytes = Bytes::empty(alloc);
    same(&rt, bytes.is_empty(), true);
    bytes.reserve(3)?;
    same(&rt, bytes.is_empty(), true);
    for byte in [7, 8, 9] {
        bytes.push(byte)?;
    }
    same(&rt, bytes.len(), 3);
    same(&rt, bytes.get(1).copied(), Some(8));
    same(&rt, bytes.get(3).copied(), None);
    same(&rt, bytes.as_slice(), [7, 8, 9].as_slice());
    let more = Items::of(Vec::from_slice(alloc, &[4u32, 5])?);
    same(&rt, more.as_slice(), [4, 5].as_slice());
    Ok(())
}

#[test]
fn a_list_gets_room_and_keeps_its_items(rt: HostRuntime) -> Result<(), Fail> {
    let alloc = rt.alloc();
    let list = Items::of(Vec::from_slice(alloc, &[1u32, 2])?);
    match list.with_room(2) {
        Ok(mut list) => {
            same(&rt, list.room() >= 2, true);
            list.push(3)?;
            list.push(4)?;
            let items = list.into_items();
            same(&rt, items.as_slice(), [1, 2, 3, 4].as_slice());
        }
        Err(_) => return Err(Fail::from("no room")),
    }
    Ok(())
}

#[test]
fn parts_keep_a_copy_of_their_bytes(rt: HostRuntime) -> Result<(), Fail> {
    let alloc = rt.alloc();
    let mut parts = PartList::empty(alloc);
    same(&rt, parts.is_empty(), true);
    parts.push(2, 5, &[171, 205])?;
    parts.push(3, 0, &[1])?;
    same(&rt, parts.len(), 2);
    for (part, (block, off)) in parts.as_slice().iter().zip([(2, 5), (3, 0)]) {
        same(&rt, part.block, block);
        same(&rt, part.off, off);
    }
    for part in parts.as_slice().iter().take(1) {
        same(&rt, part.bytes.as_slice(), [171, 205].as_slice());
    }
    Ok(())
}

#[test]
fn room_is_used_and_given_back(rt: HostRuntime) -> Result<(), Fail> {
    let alloc = rt.alloc();
    let mut list = Reserved::empty(alloc);
    same(&rt, list.is_empty(), true);
    same(&rt, list.room(), 0);
    list.reserve(3)?;
    let room = list.room();
    same(&rt, room >= 3, true);
    list.push_within(10u32);
    list.push(20)?;
    list.push_within(30);
    same(&rt, list.as_slice(), [10, 20, 30].as_slice());
    same(&rt, list.room(), room - 3);
    if let Some(item) = list.get_mut(1) {
        *item = 21;
    }
    if let Some(item) = list.last_mut() {
        *item = 31;
    }
    same(&rt, list.get(1).copied(), Some(21));
    same(&rt, list.pop(), Some(31));
    list.truncate(1);
    same(&rt, list.len(), 1);
    same(&rt, list.room(), room - 1);
    list.clear();
    same(&rt, list.pop(), None);
    same(&rt, list.room(), room);
    list.push(40)?;
    same(&rt, list.into_items().as_slice(), [40].as_slice());
    Ok(())
}

#[test]
fn labels_are_short_words_of_letters_and_digits(rt: HostRuntime) {
    for text in [b"a".as_slice(), b"z9", b"0123456789abcdef"] {
        match Label::new(text) {
            Some(label) => {
                same(&rt, label.text(), text);
                same(&rt, label.copy().text(), text);
            }
            None => assert!(rt; false),
        }
    }
    for text in [b"".as_slice(), b"A", b"a b", b"a-", b"0123456789abcdefg"] {
        assert!(rt; Label::new(text).is_none());
    }
}
