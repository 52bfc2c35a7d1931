// The runs of a patch, one by one.
ghost use Rattle.std.specs.{Prelude.{◌≡◌, map}, Iterator.{YieldsFirstBy, item_count}};
ghost use Rattle.iso_model.specs.Effect.{runs_from};
ghost use Rattle.merge_write.specs.Patch.{piece, values_from, IsRow};

use crate::masks::next_place;
use iso_model::Span;
use std::marker::Model;

/// The maximal runs of the bytes that a patch sets, rising, each with its bytes.
/// Contracts see the list of those that are still to come.
#[derive(Drop)]
pub struct PatchSpans<'a> {
    bytes: &'a [u8],
    masks: &'a [u64],
    at: usize,
}

impl<'a> Model for PatchSpans<'a> {
    ghost use Rattle.std.specs.Prelude.{List, ℕ, ◌≤◌, drop, length, map};
    ghost use Rattle.iso_model.specs.{declared.access.Span.Span, Effect.runs_from};
    ghost use Rattle.merge_write.specs.Patch.{piece, values_from, IsRow};

    ghost Value = { List (Span × List ℕ) };

    ghost view = { λ a. map piece (runs_from 0 a.at (values_from a.masks.now a.at (drop a.at a.bytes.now))) };

    ghost invariant = { λ a. (IsRow a.bytes.now a.masks.now) × (a.at ≤ length a.bytes.now) };
}

impl<'a> PatchSpans<'a> {
    pub(crate) fn of(bytes: &'a [u8], masks: &'a [u64]) -> Self
        requires { IsRow bytes.now masks.now }
        ensures { result ≡ map piece (runs_from 0 0 (values_from masks.now 0 bytes.now)) }
    {
        PatchSpans {
            bytes,
            masks,
            at: 0,
        }
    }
}

impl<'a> Iterator for PatchSpans<'a> {
    type Item = (Span, &'a [u8]);

    ghost next_gives = { YieldsFirstBy (λ item. (item.0, item.1.now)) (λ pieces. pieces) };

    ghost remaining = { item_count (λ pieces. pieces) };

    #[inline(always)]
    fn next(&mut self) -> Option<(Span, &'a [u8])> {
        let end = self.bytes.len();
        let from = next_place(self.masks, self.at, end, true);
        if from == end {
            self.at = end;
            return None;
        }
        let to = next_place(self.masks, from, end, false);
        self.at = to;
        let span = Span {
            off: from as u16,
            len: (to - from) as u16,
        };
        Some((span, &self.bytes[from..to]))
    }
}
