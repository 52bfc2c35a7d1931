// Clients that commit concurrently, and concurrently with switches of halves, on a disk that stops after each of its calls: whatever a
// crash might have left at that moment opens to a front of what they made, with all that one of them was told.
use crate::asked::FAULT;
use std::alloc::{AllocError, Global};
use std::sync::Wait;
use std::test::Fail;
use std::thread::Threads;
use top_calls::{Fault, Outcome, PAR, call_on, faulty, run_image, small_image};

/// Three clients that commit, each in a block of its own, one of them between switches of halves.
const BESIDE: &[u8] =
    b"1 begin\n1 put 0 0 a1\n1 end\n1 begin\n1 put 0 0 a2\n1 end\n2 begin\n2 put 1 0 b1\n2 end\n2 begin\n2 put 1 0 b2\n2 end\n3 compact\n3 begin\n3 put 2 0 c1\n3 end\n3 trim\n3 compact\n";

/// A client that ends three transactions in a group, beside switches of halves and a client that reads.
const GROUPED: &[u8] =
    b"1 begin\n1 put 0 0 a1\n1 release x\n1 begin\n1 put 1 0 b1\n1 release y\n1 begin\n1 put 2 0 c1\n1 release z\n1 group x y z\n2 upgrade\n2 compact\n3 begin\n3 get 0 0 1\n3 get 1 0 1\n3 end\n";

/// What shows the first byte of three blocks.
const SHOW: &[u8] = b"1 begin\n1 get 0 0 1\n1 get 1 0 1\n1 get 2 0 1\n1 abort\n";

/// How many commits each of three blocks shows.
#[derive(Clone, Copy)]
struct Front {
    first: u8,
    second: u8,
    third: u8,
}

/// A script, how many commits all of it makes, and what is told of those that are made: by commits of their own, or in a group,
/// of which all show or none.
#[derive(Clone, Copy)]
struct Case {
    script: &'static [u8],
    whole: Front,
    in_group: bool,
}

impl Case {
    /// What an output says of commits.
    fn told_by(&self, output: &[u8]) -> Front {
        if self.in_group {
            let all = count_of(output, b"1 ok commit ");
            return Front {
                first: all,
                second: all,
                third: all,
            };
        }
        Front {
            first: count_of(output, b"1 ok commit "),
            second: count_of(output, b"2 ok commit "),
            third: count_of(output, b"3 ok commit "),
        }
    }

    /// Whether an image may show these numbers of commits.
    fn may_show(&self, front: Front) -> bool {
        !self.in_group || (front.first == front.second && front.second == front.third)
    }
}

/// What `SHOW` is answered after these numbers of commits of each.
fn shown(alloc: Global, front: Front) -> Result<Vec<u8>, AllocError> {
    let all = front
        .first
        .saturating_add(front.second)
        .saturating_add(front.third);
    let mut out = b"1 ok begin ".to_vec(alloc)?;
    out.push(b'0'.saturating_add(all))?;
    for (letter, count) in [
        (b'a', front.first),
        (b'b', front.second),
        (b'c', front.third),
    ] {
        out.extend_from_slice(b"\n1 ok ")?;
        out.push(if count == 0 { b'0' } else { letter })?;
        out.push(b'0'.saturating_add(count))?;
    }
    out.extend_from_slice(b"\n1 ok\n")?;
    Ok(out)
}

/// How many lines of an output begin so.
fn count_of(output: &[u8], line: &[u8]) -> u8 {
    let mut count: u8 = 0;
    for at in 0..output.len() {
        if output[at..].starts_with(line) {
            count = count.saturating_add(1);
        }
    }
    count
}

/// Whether an image is opened to a front that has at least these commits.
fn opens_to_a_front<R: Threads + Wait + Sync>(
    rt: &R,
    alloc: Global,
    case: &Case,
    image: Vec<u8>,
    told: Front,
) -> Result<bool, AllocError> {
    let outcome = run_image(rt, alloc, image, SHOW)?;
    for first in told.first..3 {
        for second in told.second..3 {
            for third in told.third..2 {
                let front = Front {
                    first,
                    second,
                    third,
                };
                let expected = shown(alloc, front)?;
                if outcome.output.as_slice() == expected.as_slice() {
                    return Ok(outcome.status == 0 && case.may_show(front));
                }
            }
        }
    }
    Ok(false)
}

/// Where the gates of a small image are: those of its two halves, and those of records with one byte in each of their logs.
const GATES: [usize; 12] = [64, 608, 352, 381, 410, 439, 468, 896, 925, 954, 983, 1012];

/// Whether a gate is open that was not.
fn opens_a_gate(before: &[u8], image: &[u8]) -> bool {
    for place in GATES {
        if before.get(place) != Some(&1) && image.get(place) == Some(&1) {
            return true;
        }
    }
    false
}

/// Whether each of these images opens to a front of what was made, with all that was told: what was written since the last sync is
/// gone, or is there, or is torn in one of three ways, or is torn so that a gate among it is open.
fn is_survived<R: Threads + Wait + Sync>(
    rt: &R,
    alloc: Global,
    case: &Case,
    outcome: &Outcome,
) -> Result<bool, Fail> {
    let told = case.told_by(&outcome.output);
    let before = outcome.disk.crash(alloc, 0)?;
    for pick in 0..400 {
        let image = outcome.disk.crash(alloc, pick)?;
        let counts = pick < 5 || opens_a_gate(&before, &image);
        if counts && !opens_to_a_front(rt, alloc, case, image, told)? {
            return Ok(false);
        }
    }
    Ok(true)
}

/// Whether a stop after each call of a script is survived, until the script is done, and then all of its commits are there.
fn each_stop_is_survived<R: Threads + Wait + Sync>(
    rt: &R,
    alloc: Global,
    case: &Case,
) -> Result<bool, Fail> {
    for calls in 0..200 {
        let disk = faulty(alloc, &small_image(alloc)?, Fault::Behind(calls))?;
        let outcome = call_on(rt, alloc, PAR, disk, case.script)?;
        if !is_survived(rt, alloc, case, &outcome)? {
            return Ok(false);
        }
        if outcome.status == 0 {
            let left = outcome.disk.crash(alloc, 0)?;
            return Ok(opens_to_a_front(rt, alloc, case, left, case.whole)?);
        }
        if outcome.status != 5 || !outcome.output.ends_with(FAULT) {
            return Ok(false);
        }
    }
    Ok(false)
}

#[test]
fn a_stop_at_each_moment_of_commits_and_compactions_beside_each_other(
    rt: HostRuntime,
) -> Result<(), Fail> {
    let case = Case {
        script: BESIDE,
        whole: Front {
            first: 2,
            second: 2,
            third: 1,
        },
        in_group: false,
    };
    assert!(rt; each_stop_is_survived(&rt, rt.alloc(), &case)?);
    Ok(())
}

#[test]
fn a_stop_at_each_moment_of_a_group_beside_an_upgrade(rt: HostRuntime) -> Result<(), Fail> {
    let case = Case {
        script: GROUPED,
        whole: Front {
            first: 1,
            second: 1,
            third: 1,
        },
        in_group: true,
    };
    assert!(rt; each_stop_is_survived(&rt, rt.alloc(), &case)?);
    Ok(())
}
