// The map of free blocks, and a block as cells.
use crate::same::same;
use iso_alloc::{Cells, free_blocks, give_back, lay, take_lowest};
use std::test::Fail;
use store_model::Region;

#[test]
fn blocks_are_taken_lowest_first(rt: HostRuntime) -> Result<(), Fail> {
    let region = Region { start: 0, size: 12 };
    let mut map = [0u8; 256];
    map[64] = 0b1011_0000;
    same(&rt, free_blocks(&map, region, 5), 5);
    same(&rt, take_lowest(&mut map, region, 5), Some(6));
    same(&rt, map[64], 0b1111_0000);
    Ok(())
}

#[test]
fn no_block_is_free(rt: HostRuntime) -> Result<(), Fail> {
    let region = Region { start: 0, size: 8 };
    let mut map = [0xffu8; 256];
    same(&rt, take_lowest(&mut map, region, 1), None);
    Ok(())
}

#[test]
fn a_block_given_back_is_free(rt: HostRuntime) -> Result<(), Fail> {
    let region = Region { start: 0, size: 16 };
    let mut map = [0u8; 256];
    map[65] = 0b0000_0110;
    give_back(&mut map, region, 9);
    same(&rt, map[65], 0b0000_0100);
    Ok(())
}

#[test]
fn cells_are_the_bytes_of_the_block(rt: HostRuntime) -> Result<(), Fail> {
    let mut block = [0u8; 256];
    lay(&mut block, 64 + 31, &[2, 7, 8]);
    lay(&mut block, 157 + 33, &[1, 9]);
    let cells = Cells::of(&block);
    same(&rt, cells.count(), 3);
    Ok(())
}
