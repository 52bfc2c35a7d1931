// The bytes that picks from 2 on draw. The numbers were made by another program, from the rule of the draws: the next number is the
// last one times 6364136223846793005 plus 1442695040888963407, modulo 2^64, and its byte is the lowest of its upper 32 bits.
use crate::steps::Outcome::Done;
use crate::steps::Step::{Crash, Write};
use crate::steps::{Table, on_memory};
use std::test::Fail;

/// The first draws of seed 2.
const OF_TWO: &[u8] = &[217, 85, 16, 176, 143, 150, 249, 76];

const DRAWS: &[Table<'static>] = &[
    (
        "each_pick_from_two_on_has_its_own_draws",
        &[1; 8],
        &[
            (Write(0, &[9; 8]), Done, &[]),
            (Crash(2), Done, OF_TWO),
            (Crash(3), Done, &[6, 247, 135, 148, 105, 71, 190, 171]),
            (Crash(4), Done, &[52, 153, 253, 119, 67, 247, 130, 11]),
            (Crash(7), Done, &[188, 127, 98, 34, 210, 7, 208, 40]),
            (Crash(255), Done, &[158, 113, 157, 152, 86, 152, 75, 103]),
            (Crash(256), Done, &[203, 19, 20, 123, 48, 72, 16, 198]),
            (Crash(u64::MAX), Done, &[81, 111, 171, 5, 0, 134, 171, 47]),
        ],
    ),
    (
        "a_second_write_goes_on_with_the_draws",
        &[1; 8],
        &[
            (Write(0, &[9; 2]), Done, &[]),
            (Write(2, &[9]), Done, &[]),
            (Write(3, &[9; 5]), Done, &[]),
            (Crash(2), Done, OF_TWO),
            // and a second crash begins with them anew
            (Crash(2), Done, OF_TWO),
        ],
    ),
    // The draws do not look at what was written, also where it is a byte that is drawn ..
    (
        "zeros over ones",
        &[1; 8],
        &[(Write(0, &[0; 8]), Done, &[]), (Crash(2), Done, OF_TWO)],
    ),
    (
        "255 over ones",
        &[1; 8],
        &[(Write(0, &[255; 8]), Done, &[]), (Crash(2), Done, OF_TWO)],
    ),
    (
        "rising bytes over ones",
        &[1; 8],
        &[
            (Write(0, &[1, 2, 3, 4, 5, 6, 7, 8]), Done, &[]),
            (Crash(2), Done, OF_TWO),
        ],
    ),
    (
        "what is drawn over ones",
        &[1; 8],
        &[(Write(0, OF_TWO), Done, &[]), (Crash(2), Done, OF_TWO)],
    ),
    // .. nor at what was there.
    (
        "nines over zeros",
        &[0; 8],
        &[(Write(0, &[9; 8]), Done, &[]), (Crash(2), Done, OF_TWO)],
    ),
    (
        "nines over 255",
        &[255; 8],
        &[(Write(0, &[9; 8]), Done, &[]), (Crash(2), Done, OF_TWO)],
    ),
    (
        "nines over what is drawn",
        OF_TWO,
        &[(Write(0, &[9; 8]), Done, &[]), (Crash(2), Done, OF_TWO)],
    ),
];

#[test]
fn the_bytes_that_a_torn_write_draws(rt: HostRuntime) -> Result<(), Fail> {
    on_memory(&rt, rt.alloc(), DRAWS)?;
    Ok(())
}
