// The header of a half.
ghost use Rattle.std.specs.Prelude.{◌≡◌, ◌↔◌, ℕ, ◌+◌, ◌^◌, ◌<◌, ◌==◌, true, not, position, length, IsTrue, IsFalse, IsSome};
ghost use Rattle.iso_model.specs.Image.{half_header};
ghost use Rattle.iso_format.specs.Reading.{half_of, unclean_place};

use crate::numbers::{are_zero, u64_at};
use byteorder::{BigEndian, ByteOrder};

/// What the header of a half says. `clean` says that its zero bytes are zero.
#[derive(Clone, Copy, Debug, PartialEq, Eq)]
pub struct HalfHeader {
    pub gate: u8,
    pub form: u8,
    pub generation: u64,
    pub base: u64,
    pub clean: bool,
}

/// Writes the header of a half. Its zero bytes are zero, whatever `clean` says.
#[tactic(auto, unfolding(iso_model::specs::Image::half_header))]
pub fn write_half(header: &HalfHeader, into: &mut [u8])
    requires { length into.old ≡ 32 }
    ensures { into.new ≡ half_header header.now.gate header.now.form header.now.generation header.now.base }
{
    let mut bytes = [0; 32];
    bytes[0] = header.gate;
    bytes[1] = header.form;
    BigEndian::write_u64(&mut bytes[8..], header.generation);
    BigEndian::write_u64(&mut bytes[16..], header.base);
    into.copy_from_slice(&bytes);
}

/// The body of `read_half`, apart so that the clauses on what is spelled follow from the exact one, at one exit.
#[tactic(auto, unfolding(crate::specs::Reading::half_of))]
fn half_of(input: &[u8]) -> HalfHeader
    requires { length input.now ≡ 32 }
    ensures { result ≡ half_of input.now }
{
    HalfHeader {
        gate: input[0],
        form: input[1],
        generation: u64_at(input, 8),
        base: u64_at(input, 16),
        clean: are_zero(input, 2, 6) && are_zero(input, 24, 8),
    }
}

/// What the header of a half says.
pub fn read_half(input: &[u8]) -> HalfHeader
    requires { length input.now ≡ 32 }
    ensures fields { result ≡ half_of input.now }
    // A clean one is spelled by the bytes.
    ensures spelled { IsTrue result.clean → input.now ≡ half_header result.gate result.form result.generation result.base }
    // What is spelled is read.
    ensures only { (gate form generation base : ℕ) → generation < 2 ^ 64 → base < 2 ^ 64 →
        input.now ≡ half_header gate form generation base →
        result ≡ record { gate = gate; form = form; generation = generation; base = base; clean = true } }
{
    half_of(input)
}

fn first_not_zero(bytes: &[u8]) -> Option<usize>
    ensures { result ≡ position (λ b. not (b == 0)) bytes.now }
{
    bytes.iter().position(|b| *b != 0)
}

/// The place in the header of the first byte that is to be zero and is not.
pub fn unclean_place(input: &[u8]) -> Option<u64>
    requires { length input.now ≡ 32 }
    ensures place { result ≡ unclean_place input.now }
    ensures clean { IsSome result ↔ IsFalse (half_of input.now).clean }
{
    if let Some(i) = first_not_zero(&input[2..8]) {
        return Some(2 + i as u64);
    }
    match first_not_zero(&input[24..32]) {
        Some(i) => Some(24 + i as u64),
        None => None,
    }
}
