use crate::marks_tests::same;
use mv_index::{MvIndex, Version};
use std::alloc::Global;
use std::test::Fail;
use version_trim::trim;

// An index of one block with two versions, the later of which has all bytes of the first one.
fn two_versions(alloc: Global) -> Result<MvIndex, Fail> {
    let mut index = MvIndex::empty(alloc, 1)?;
    index.reserve(0, 2)?;
    index.add(
        0,
        Version {
            number: 3,
            place: 100,
            off: 8,
            len: 4,
        },
    );
    index.add(
        0,
        Version {
            number: 5,
            place: 200,
            off: 0,
            len: 64,
        },
    );
    Ok(index)
}

#[test]
fn a_version_goes_once_no_one_can_read_it(rt: HostRuntime) -> Result<(), Fail> {
    let mut index = two_versions(rt.alloc())?;
    same(&rt, trim(&mut index, 4), 0);
    same(&rt, trim(&mut index, 5), 1);
    same(&rt, trim(&mut index, 9), 0);
    same(&rt, index.count(), 1);
    Ok(())
}
