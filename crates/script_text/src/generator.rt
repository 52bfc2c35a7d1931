// The numbers that a bench draws.
ghost use Rattle.std.specs.Prelude.{◌≡◌};
ghost use Rattle.script_model.specs.Bench.{drawn, number_drawn};

use std::marker::Model;

/// Numbers that follow from a seed. Contracts see the state.
#[derive(Debug, Drop)]
pub struct Generator {
    state: u64,
}

impl Model for Generator {
    ghost use Rattle.std.specs.Prelude.{ℕ};

    ghost Value = { ℕ };

    ghost view = { λ a. a.state };
}

impl Generator {
    /// Nothing is drawn yet.
    pub fn new(seed: u64) -> Self
        ensures { result ≡ seed }
    {
        Generator { state: seed }
    }

    /// The next number: the upper 32 bits of the next state.
    pub fn next(&mut self) -> u32
        ensures number { result ≡ number_drawn (drawn self.old) }
        ensures state { self.new ≡ drawn self.old }
    {
        self.state = self
            .state
            .wrapping_mul(6_364_136_223_846_793_005)
            .wrapping_add(1_442_695_040_888_963_407);
        (self.state >> 32) as u32
    }
}
