// The headers of both halves: which half is the current one, and the first test that it fails.
ghost use Rattle.std.specs.Prelude.{◌≡◌, ◌+◌, ◌^◌, ◌<◌, ◌≤◌, ◌==◌, None, Some, length, IfErr, IfOk, IsTrue};
ghost use Rattle.iso_model.specs.Geometry.{header_place, is_valid};
ghost use Rattle.iso_format.specs.Reading.{half_of};
ghost use Rattle.iso_image.specs.Refusal.{header_refusal};
ghost use Rattle.iso_recover.specs.Front.{IsFrontOf, IsSaid, chosen_by, halves_refusal};

use crate::front::Front;
use half_switch::choose_half;
use iso_format::{read_half, unclean_place};
use iso_image::{OpenError, half_place};
use iso_model::{Geometry, LAST};

// The first test that the header of a half fails, which is at this place of the image.
fn header_refusal(place: u64, header: &[u8]) -> Option<OpenError>
    requires size { length header.now ≡ 32 }
    requires place { place + 32 < 2 ^ 64 }
    ensures { result ≡ header_refusal place header.now }
{
    let said = read_half(header);
    if !(said.form == 1 || said.form == 2) {
        return Some(OpenError::UnknownForm { form: said.form });
    }
    if let Some(i) = unclean_place(header) {
        return Some(OpenError::Damaged {
            at: place + i,
            cause: 3,
        });
    }
    if said.generation > LAST {
        return Some(OpenError::Damaged {
            at: place + 8,
            cause: 8,
        });
    }
    if said.base > LAST {
        return Some(OpenError::Damaged {
            at: place + 16,
            cause: 8,
        });
    }
    None
}

// What the header of the current half says, which is open, or the first test that it fails.
fn front_of(geometry: &Geometry, half: u8, header: &[u8]) -> Result<Front, OpenError>
    requires valid { IsTrue (is_valid geometry.now) }
    requires half { half ≤ 1 }
    requires size { length header.now ≡ 32 }
    requires opened { (half_of header.now).gate ≡ 1 }
    ensures refused { IfErr result (λ e. header_refusal (header_place geometry.now half) header.now ≡ Some e) }
    ensures said { IfOk result (λ f. IsSaid geometry.now half header.now f) }
{
    let place = half_place(geometry, half);
    if let Some(error) = header_refusal(place.header, header) {
        return Err(error);
    }
    let said = read_half(header);
    Ok(Front {
        geometry: Geometry {
            form: said.form,
            ..*geometry
        },
        half,
        generation: said.generation,
        base: said.base,
        log: place.log,
    })
}

/// What the current half of an image of this geometry says, whose halves have these headers.
///
/// # Errors
///
/// The first test that they fail:
/// - `NoHalf`: the gates of both are closed.
/// - `UnknownForm`, `Damaged`: the current one is of no known form, or is wrong at this place of the image.
pub fn current_front(geometry: &Geometry, first: &[u8], second: &[u8]) -> Result<Front, OpenError>
    requires valid { IsTrue (is_valid geometry.now) }
    requires first { length first.now ≡ 32 }
    requires second { length second.now ≡ 32 }
    ensures refused { IfErr result (λ e. halves_refusal geometry.now first.now second.now (chosen_by first.now second.now) ≡ Some e) }
    ensures front { IfOk result (λ f. IsFrontOf geometry.now first.now second.now f) }
{
    match choose_half(&read_half(first), &read_half(second)) {
        None => Err(OpenError::NoHalf),
        Some(0) => front_of(geometry, 0, first),
        Some(_) => front_of(geometry, 1, second),
    }
}
