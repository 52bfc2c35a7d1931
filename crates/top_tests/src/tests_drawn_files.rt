// Drawn scripts of three clients whose transactions make calls on files and meet each other, against a plain map.
use crate::drawn_lines::{Act, CLIENTS, Call, Line, closing, drawn, spelled};
use crate::plain_files::Files;
use std::alloc::{AllocError, Global};
use std::fmt::Write;
use std::sync::Wait;
use std::test::Fail;
use std::thread::Threads;
use top_calls::{Outcome, call, run_image};

// The files have twenty blocks: one of their map, and for each of three files at most one of its own and three of its bytes.
const FILES: &str = "isotope new t.img --block-size 256 --blocks 24 --log 65536 --tree 4";

/// A client's last begin: at which line, after which commit, what it is shown, and whether it has written.
#[derive(Clone, Copy)]
struct Own {
    first: usize,
    begun: u32,
    shown: Files,
    wrote: bool,
}

/// How many transactions ended so; of those that committed, how many had another one's commit after their begin.
#[derive(Clone, Copy)]
struct Ends {
    committed: u32,
    beside: u32,
    read_only: u32,
    conflicted: u32,
    aborted: u32,
}

const NO_ENDS: Ends = Ends {
    committed: 0,
    beside: 0,
    read_only: 0,
    conflicted: 0,
    aborted: 0,
};

/// What is known of a run: the files after its last commit, that commit's number, and the clients' transactions.
#[derive(Drop)]
struct Known {
    files: Files,
    last: u32,
    clients: [Own; CLIENTS],
    ends: Ends,
}

/// A reply that gives a number.
fn numbered(alloc: Global, words: &str, number: u32) -> Result<String, AllocError> {
    format!(in alloc; "{words} {number}")
}

/// Whether the calls of a client among these lines are answered so by a plain map, which they change.
fn replayed(
    alloc: Global,
    lines: &[Line],
    replies: &[String],
    client: u8,
    files: &mut Files,
) -> Result<bool, AllocError> {
    for (line, reply) in lines.iter().zip(replies) {
        if let Act::Call(call) = line.act {
            if line.client == client {
                let mut expected = String::new(alloc);
                let _wrote = files.answer(call, &mut expected)?;
                if *reply != expected {
                    return Ok(false);
                }
            }
        }
    }
    Ok(true)
}

impl Known {
    /// A run that begins on an image without files.
    fn new() -> Self {
        let own = Own {
            first: 0,
            begun: 0,
            shown: Files::none(),
            wrote: false,
        };
        Known {
            files: Files::none(),
            last: 0,
            clients: [own; CLIENTS],
            ends: NO_ENDS,
        }
    }

    /// Whether a call is answered as the files are that its transaction is shown.
    fn calls(
        &mut self,
        alloc: Global,
        client: u8,
        call: Call,
        reply: &str,
    ) -> Result<bool, AllocError> {
        let Some(own) = self.clients.get_mut(client as usize) else {
            return Ok(false);
        };
        let mut expected = String::new(alloc);
        if own.shown.answer(call, &mut expected)? {
            own.wrote = true;
        }
        Ok(expected.as_str() == reply)
    }

    /// Whether the begin at a line is told the last commit's number; it is shown the files after that commit.
    fn begins(
        &mut self,
        alloc: Global,
        client: u8,
        first: usize,
        reply: &str,
    ) -> Result<bool, AllocError> {
        let Some(own) = self.clients.get_mut(client as usize) else {
            return Ok(false);
        };
        *own = Own {
            first,
            begun: self.last,
            shown: self.files,
            wrote: false,
        };
        Ok(numbered(alloc, "ok begin", self.last)?.as_str() == reply)
    }

    /// Whether a transaction that has these lines ends so: with a commit its calls are answered as the files are then. It is
    /// read-only just where it has written nothing, and has a conflict only where there was a commit after its begin.
    fn ends(
        &mut self,
        alloc: Global,
        own: &Own,
        client: u8,
        lines: &[Line],
        replies: &[String],
        reply: &str,
    ) -> Result<bool, AllocError> {
        if !own.wrote {
            self.ends.read_only = self.ends.read_only.saturating_add(1);
            return Ok(reply == "ok read-only");
        }
        if reply.starts_with("conflict with ") {
            self.ends.conflicted = self.ends.conflicted.saturating_add(1);
            return Ok(own.begun < self.last);
        }
        if own.begun < self.last {
            self.ends.beside = self.ends.beside.saturating_add(1);
        }
        self.ends.committed = self.ends.committed.saturating_add(1);
        self.last = self.last.saturating_add(1);
        if numbered(alloc, "ok commit", self.last)?.as_str() != reply {
            return Ok(false);
        }
        replayed(alloc, lines, replies, client, &mut self.files)
    }

    /// Whether the line of a number is answered so.
    fn agrees(
        &mut self,
        alloc: Global,
        lines: &[Line],
        replies: &[String],
        number: usize,
    ) -> Result<bool, AllocError> {
        let (Some(line), Some(reply)) = (lines.get(number), replies.get(number)) else {
            return Ok(false);
        };
        let client = line.client;
        match line.act {
            Act::Begin => self.begins(alloc, client, number, reply),
            Act::Call(call) => self.calls(alloc, client, call, reply),
            Act::Abort => {
                self.ends.aborted = self.ends.aborted.saturating_add(1);
                Ok(reply.as_str() == "ok")
            }
            Act::End => {
                let Some(own) = self.clients.get(client as usize) else {
                    return Ok(false);
                };
                let own = *own;
                let (lines, replies) = match (
                    lines.get(own.first..number),
                    replies.get(own.first..number),
                ) {
                    (Some(lines), Some(replies)) => (lines, replies),
                    _ => return Ok(false),
                };
                self.ends(alloc, &own, client, lines, replies, reply)
            }
        }
    }

    /// The first line of a run that is not answered as it should be; one after the last where the run did not end well.
    fn other(
        &mut self,
        alloc: Global,
        outcome: &Outcome,
        lines: &[Line],
    ) -> Result<Option<usize>, AllocError> {
        let replies = replies_of(alloc, &outcome.output, lines)?;
        for number in 0..lines.len() {
            if !self.agrees(alloc, lines, &replies, number)? {
                return Ok(Some(number));
            }
        }
        if outcome.status == 0 {
            return Ok(None);
        }
        Ok(Some(lines.len()))
    }
}

/// The replies to these lines, each without its client; none from the first on that has another one.
fn replies_of(alloc: Global, output: &[u8], lines: &[Line]) -> Result<Vec<String>, AllocError> {
    let mut replies = Vec::new(alloc);
    for (said, line) in output.split(|b| *b == b'\n').zip(lines) {
        let front = [b'1'.saturating_add(line.client), b' '];
        let Some(reply) = said.strip_prefix(front.as_slice()) else {
            return Ok(replies);
        };
        let Ok(reply) = str::from_utf8(reply) else {
            return Ok(replies);
        };
        replies.push(String::from_str(alloc, reply)?)?;
    }
    Ok(replies)
}

/// How transactions have ended with those of one more drawn script, and the first line of it, or of a run after it that closes it,
/// that is not answered as by a plain map.
fn ended<R: Threads + Wait + Sync>(
    rt: &R,
    alloc: Global,
    seed: u32,
    before: Ends,
) -> Result<(Ends, Option<usize>), AllocError> {
    let lines = drawn(alloc, seed, 300)?;
    let mut known = Known::new();
    known.ends = before;
    let outcome = call(rt, alloc, FILES, spelled(alloc, &lines)?.as_bytes())?;
    let other = known.other(alloc, &outcome, &lines)?;
    if other.is_some() {
        return Ok((known.ends, other));
    }
    // The files are there in the next run.
    let lines = closing();
    let script = spelled(alloc, &lines)?;
    let outcome = run_image(rt, alloc, outcome.image(alloc, 0)?, script.as_bytes())?;
    let other = known.other(alloc, &outcome, &lines)?;
    Ok((known.ends, other))
}

#[test]
fn drawn_transactions_on_files_agree_with_a_plain_map(rt: HostRuntime) -> Result<(), Fail> {
    let mut ends = NO_ENDS;
    for seed in 0..6u32 {
        let (later, other) = ended(&rt, rt.alloc(), seed, ends)?;
        assert_eq!(rt; other, None, "{seed}");
        ends = later;
    }
    assert!(rt; ends.beside > 0 && ends.conflicted > 0);
    assert!(rt; ends.read_only > 0 && ends.aborted > 0);
    Ok(())
}
