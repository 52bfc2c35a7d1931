// What is run: clients, their lines, and the gate that they pass.
ghost use Rattle.std.specs.Prelude.{ℕ};

use script_model::Line;
use std::sync::Wait;

/// Whether a client goes on after a step.
#[derive(Clone, Copy, Debug, PartialEq, Eq)]
pub enum Flow {
    /// It goes on.
    Go,
    /// It makes no more steps.
    Halt,
}

/// It makes steps, of which each is one line.
pub trait Client: Send {
    ghost use Rattle.script_model.specs.declared.script.Line.{Line};
    ghost use Rattle.par_runner.specs.declared.job.Flow.{Flow};

    // It may make a step.
    ghost fits: { Self → Type 0 };

    // The client before a step, the number and the line, the flow, and the client after it.
    ghost steps: { Self → ℕ → Line → Flow → Self → Type 0 };

    /// One step: the line of this number.
    fn step<R: Wait>(&mut self, rt: &R, number: u64, line: &Line) -> Flow
        requires { fits self.old }
        ensures fits { fits self.new }
        ensures steps { steps self.old number line.now result self.new };
}

/// It is called before each step, with the client and the number of the line.
pub trait Gate: Sync {
    fn before(&self, client: u8, number: u64);
}

/// A client with its numbered lines, and how many steps it made.
#[derive(Drop)]
pub struct Job<C> {
    pub client: C,
    pub id: u8,
    pub lines: Vec<(u64, Line)>,
    pub done: u64,
}
