// The script of a bench, as a source.
ghost use Rattle.std.specs.Prelude.{◌≡◌, ◌≤◌, ◌<◌, ◌++◌, false, [], drop, length, min, take, IfOk, IsOk, OnErr};
ghost use Rattle.counts.specs.Count.{HasCause};
ghost use Rattle.iso_io.specs.Source.{GivesUpToEnd, Took, ended_after};
ghost use Rattle.script_model.specs.Bench.{bench_text};
ghost use Rattle.bench_script.specs.Ends.{drawn_state};

use iso_io::{Source, SourceFault};
use script_text::{Generator, Round};
use std::marker::Model;

/// The script of a bench, drawn a round at a time. It takes no memory and never fails. Contracts see the text that is left.
#[derive(Debug, Drop)]
pub struct DrawnScript {
    generator: Generator,
    /// How many rounds are not drawn yet.
    rounds: u32,
    round: Round,
    /// How much of the round was given.
    at: usize,
    ended: bool,
}

impl Model for DrawnScript {
    ghost use Rattle.std.specs.Prelude.{◌≤◌, ◌++◌, drop, length};
    ghost use Rattle.script_model.specs.Bench.{bench_text};
    ghost use Rattle.bench_script.specs.Ends.{DrawnState};

    ghost Value = { DrawnState };

    ghost view = { λ s. record {
      left = drop s.at s.round ++ bench_text s.rounds s.generator;
      is_ended = s.ended;
    } };

    ghost invariant = { λ s. s.at ≤ length s.round };
}

impl DrawnScript {
    /// The script of `count` rounds, drawn from a seed.
    pub fn new(seed: u64, count: u32) -> Self
        ensures { result ≡ record { left = bench_text count seed; is_ended = false } }
    {
        DrawnScript {
            generator: Generator::new(seed),
            rounds: count,
            round: Round::empty(),
            at: 0,
            ended: false,
        }
    }
}

impl Source for DrawnScript {
    ghost state = { drawn_state };

    fn take(&mut self, into: &mut [u8]) -> Result<usize, SourceFault>
        ensures count { IfOk result (λ n. n ≤ length into.new) }
        ensures bytes { IfOk result (λ n. Took (drawn_state self.old) (drawn_state self.new) (take n into.new)) }
        ensures end { IfOk result (λ n. 0 < length into.new → GivesUpToEnd (drawn_state self.old) n) }
        ensures ended { self.new.is_ended ≡ ended_after self.old.is_ended into.new result }
        ensures err { OnErr result (self.new.left ≡ self.old.left) }
        ensures cause { HasCause 0 0 result }

        // It never fails.
        ensures gives { IsOk result }
    {
        if into.is_empty() {
            return Ok(0);
        }
        fill(
            &mut self.generator,
            &mut self.rounds,
            &mut self.round,
            &mut self.at,
        );
        let given = give(self.round.text(), self.at, into);
        self.at += given;
        self.ended = given == 0;
        Ok(given)
    }
}

/// Draws the next round, where there is one and all of this one was given.
fn fill(generator: &mut Generator, rounds: &mut u32, round: &mut Round, at: &mut usize)
    requires { at.old ≤ length round.old }
    ensures inside { at.new ≤ length round.new }
    ensures text { drop at.new round.new ++ bench_text rounds.new generator.new ≡ drop at.old round.old ++ bench_text rounds.old generator.old }
    ensures some { at.new ≡ length round.new → drop at.old round.old ++ bench_text rounds.old generator.old ≡ [] }
{
    if *at == round.text().len() && *rounds > 0 {
        round.draw(generator);
        *rounds -= 1;
        *at = 0;
    }
}

/// Copies what is after a place, as much as there is room for, and says how much.
fn give(text: &[u8], at: usize, into: &mut [u8]) -> usize
    requires { at ≤ length text.now }
    ensures count { result ≡ min (length (drop at text.now)) (length into.new) }
    ensures size { length into.new ≡ length into.old }
    ensures bytes { take result into.new ≡ take result (drop at text.now) }
{
    let (_, left) = text.split_at(at);
    let given = left.len().min(into.len());
    into[..given].copy_from_slice(&left[..given]);
    given
}
