// What no clause says: the text as the language prints it, and a digest by another program.

use crate::same::same;
use bench_script::{DrawnScript, ReplyDigest};
use iso_io::{Sink, Source};
use std::test::Fail;

/// The first round of seed 0, as it is in the examples of the language.
const FIRST_ROUND: &[u8] =
    b"1 begin\n2 begin\n1 get 62 8 4\n1 put 17 36 da\n2 get 17 8 4\n2 put 62 8 36\n1 end\n2 end\n";

#[test]
fn one_round_is_drawn_from_seed_0(rt: HostRuntime) -> Result<(), Fail> {
    let mut script = DrawnScript::new(0, 1);
    let mut bytes = [0u8; 128];
    let first = script.take(&mut bytes).unwrap_or(0);
    same(&rt, bytes.get(..first), Some(FIRST_ROUND));
    same(&rt, script.take(&mut bytes).unwrap_or(1), 0);
    Ok(())
}

#[test]
fn a_script_is_taken_piece_by_piece(rt: HostRuntime) -> Result<(), Fail> {
    let mut script = DrawnScript::new(0, 2);
    let mut bytes = [0u8; 50];
    let mut taken = [0usize; 5];
    for count in &mut taken {
        *count = script.take(&mut bytes).unwrap_or(99);
    }
    same(&rt, taken, [50, 33, 50, 33, 0]);
    Ok(())
}

#[test]
fn replies_are_digested_in_order(rt: HostRuntime) -> Result<(), Fail> {
    let mut replies = ReplyDigest::new(rt.alloc());
    let _ = replies.put(b"1 ok\n");
    let _ = replies.put(b"2 ok commit 1\n");
    same(
        &rt,
        replies.finish(),
        [
            160, 246, 194, 224, 89, 63, 242, 25, 45, 97, 105, 48, 57, 179, 149, 176, 83, 58, 195,
            254, 113, 106, 79, 76, 88, 2, 12, 172, 66, 104, 248, 17,
        ],
    );
    Ok(())
}

/// Three replies in two pieces, one of which ends within a line.
fn put_three(replies: &mut ReplyDigest) {
    let _ = replies.put(b"1 ok commit 1\n2 conf");
    let _ = replies.put(b"lict with 1 block 0 at 3\n3 ok\n");
}

#[test]
fn replies_past_what_waits_are_digested(rt: HostRuntime) -> Result<(), Fail> {
    let mut replies = ReplyDigest::new(rt.alloc());
    for _ in 0..400 {
        put_three(&mut replies);
    }
    same(
        &rt,
        replies.finish(),
        [
            132, 93, 1, 142, 250, 188, 247, 46, 156, 115, 141, 204, 27, 121, 159, 13, 37, 110, 147,
            195, 99, 126, 209, 93, 84, 173, 24, 214, 144, 219, 94, 121,
        ],
    );
    Ok(())
}
