// Drawn scripts of clients that share no block: run concurrently, they are told what they are told one line after another, but for
// the numbers of begins and commits, which tell how the clients were interleaved.
use crate::asked::same;
use std::alloc::{AllocError, Global};
use std::test::Fail;
use top_calls::{call, par_image, run_image};

/// How many clients there are; each has the block of its number.
const CLIENTS: u8 = 4;

/// The words that make an image whose log has room for all commits of a script.
const ROOMY: &str = "isotope new t.img --block-size 64 --blocks 4 --log 8192";

/// A few numbers that are drawn one after the other.
#[derive(Drop)]
struct Draws {
    state: u32,
}

impl Draws {
    /// The next number below 8.
    fn next(&mut self) -> u8 {
        self.state = self.state.wrapping_mul(1664525).wrapping_add(1013904223);
        (self.state >> 24) as u8 & 7
    }
}

/// A line that a client may have in a transaction, on its own block.
fn push_access(out: &mut Vec<u8>, block: u8, kind: u8, at: u8) -> Result<(), AllocError> {
    let place = [b'0' + block % 8, b' ', b'0' + at % 8];
    match kind {
        0 | 1 | 2 => {
            out.extend_from_slice(b" put ")?;
            out.extend_from_slice(&place)?;
            out.extend_from_slice(&[b' ', b'a', b'0' + kind % 8])
        }
        3 | 4 => {
            out.extend_from_slice(b" get ")?;
            out.extend_from_slice(&place)?;
            out.extend_from_slice(b" 9")
        }
        5 => {
            out.extend_from_slice(b" read ")?;
            out.extend_from_slice(&place[..1])
        }
        6 => {
            out.extend_from_slice(b" fill ")?;
            out.extend_from_slice(&place[..1])?;
            out.extend_from_slice(b" 5a")
        }
        _ => out.extend_from_slice(b" mark 1 2"),
    }
}

/// `rounds` rounds of lines, each client's turn after the other: in three of four it makes an access, in a transaction that ends
/// at each fourth of its lines.
fn drawn(alloc: Global, seed: u32, rounds: u8) -> Result<Vec<u8>, AllocError> {
    let mut draws = Draws { state: seed };
    let mut out = Vec::new(alloc);
    for round in 0..rounds {
        for client in 0..CLIENTS {
            out.push(b'1' + client % 8)?;
            match round % 5 {
                0 => out.extend_from_slice(b" begin")?,
                4 => {
                    if draws.next() < 6 {
                        out.extend_from_slice(b" end")?;
                    } else {
                        out.extend_from_slice(b" abort")?;
                    }
                }
                _ => {
                    let kind = draws.next();
                    let at = draws.next();
                    push_access(&mut out, client, kind, at)?;
                }
            }
            out.push(b'\n')?;
        }
    }
    Ok(out)
}

/// The lines of a client among replies, without the numbers of begins and commits.
fn told(alloc: Global, replies: &[u8], client: u8) -> Result<Vec<u8>, AllocError> {
    let mut out = Vec::new(alloc);
    let front = [b'1' + client % 8, b' '];
    for line in replies.split(|b| *b == b'\n') {
        let Some(reply) = line.strip_prefix(front.as_slice()) else {
            continue;
        };
        if reply.starts_with(b"ok begin ") {
            out.extend_from_slice(b"began")?;
        } else if reply.starts_with(b"ok commit ") {
            out.extend_from_slice(b"committed")?;
        } else {
            out.extend_from_slice(reply)?;
        }
        out.push(b'\n')?;
    }
    Ok(out)
}

/// Whether two outputs tell each client the same, and something.
fn are_alike(alloc: Global, beside: &[u8], behind: &[u8]) -> Result<bool, AllocError> {
    for client in 0..CLIENTS {
        let one = told(alloc, beside, client)?;
        let other = told(alloc, behind, client)?;
        if one.is_empty() || one.as_slice() != other.as_slice() {
            return Ok(false);
        }
    }
    Ok(true)
}

#[test]
fn clients_without_shared_blocks_are_told_what_a_run_tells(rt: HostRuntime) -> Result<(), Fail> {
    let alloc = rt.alloc();
    for seed in 0..8u32 {
        let script = drawn(alloc, seed, 20)?;
        let image = call(&rt, alloc, ROOMY, b"")?.image(alloc, 0)?;
        let beside = par_image(&rt, alloc, image.to_vec(alloc)?, &script)?;
        let behind = run_image(&rt, alloc, image, &script)?;
        same(&rt, (beside.status, behind.status), (0, 0));
        assert!(rt; are_alike(alloc, &beside.output, &behind.output)?, "{seed}");
    }
    Ok(())
}
