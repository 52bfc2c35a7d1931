// Drawn bytes, the same ones for the same seed.
ghost use Rattle.std.specs.Prelude.{◌≡◌, ◌+◌, ◌*◌, ◌/◌, ◌%◌, ◌^◌};

/// A row of draws. Each gives the upper 32 bits of its number; a byte is the lowest 8 of these.
#[derive(Drop)]
pub struct Draws {
    x: u64,
}

impl Draws {
    /// The row that begins with this seed.
    pub fn new(seed: u64) -> Self
        ensures { result.x ≡ seed }
    {
        Draws { x: seed }
    }

    /// The next byte.
    pub fn next(&mut self) -> u8
        ensures number { self.new.x ≡ (self.old.x * 6364136223846793005 + 1442695040888963407) % 2 ^ 64 }
        ensures byte { result ≡ self.new.x / 2 ^ 32 % 2 ^ 8 }
    {
        self.x = self
            .x
            .wrapping_mul(6364136223846793005)
            .wrapping_add(1442695040888963407);
        ((self.x >> 32) % 256) as u8
    }
}
