// The inner nodes that a descent passed.
ghost use Rattle.std.specs.Prelude.{◌≡◌, ◌<◌, ◌≤◌, [], ◌∷◌, length};

use std::marker::Model;

/// The inner nodes that a descent passed: the block and the count of each. Contracts see a list of pairs, the last node first.
#[derive(Drop)]
pub struct Path {
    passed: [(u32, u32); 32],
    first: usize,
    ghost whole: { length passed ≡ 32 },
    ghost inside: { first ≤ 32 },
}

impl Model for Path {
    ghost use Rattle.std.specs.Prelude.{ℕ, List, drop};

    ghost Value = { List (ℕ × ℕ) };

    ghost view = { λ a. drop a.first a.passed };
}

impl Path {
    /// No node.
    pub fn empty() -> Path
        ensures { result ≡ [] }
    {
        Path {
            passed: [(0, 0); 32],
            first: 32,
        }
    }

    /// Adds the next node.
    pub fn push(&mut self, block: u32, count: u32)
        requires { length self.old < 32 }
        ensures { self.new ≡ (block, count) ∷ self.old }
    {
        self.first -= 1;
        self.passed[self.first] = (block, count);
    }

    /// The nodes, the last one first.
    pub fn nodes(&self) -> &[(u32, u32)]
        ensures { result.now ≡ self.now }
    {
        &self.passed[self.first..]
    }
}
