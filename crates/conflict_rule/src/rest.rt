// The commits that are left to look at.
ghost use Rattle.std.specs.Prelude.{◌≡◌, ◌+◌, [], ◌∷◌, IfNone, IfSome};

use byte_marks::Touched;
use counts::{Ledger, Steps};
use std::marker::Model;

// Notes that are handed out one after the other. To look at one is a step.
#[derive(Drop)]
pub(crate) struct Rest<'a> {
    notes: &'a [(u64, Touched)],
}

impl<'a> Model for Rest<'a> {
    ghost use Rattle.std.specs.Prelude.{List};
    ghost use Rattle.conflict_rule.specs.Notes.{Note};

    ghost Value = { List Note };

    ghost view = { λ a. a.notes.now };
}

impl<'a> Rest<'a> {
    // Those of a slice, in its order.
    pub(crate) fn of(notes: &'a [(u64, Touched)]) -> Self
        ensures { result ≡ notes.now }
    {
        Rest { notes }
    }

    // Passes the first, and answers its number and what its commit wrote: one step, and none at the end.
    #[inline(always)]
    pub(crate) fn pass<L: Ledger>(&mut self, steps: &mut Steps<L>) -> Option<(u64, &'a Touched)>
        ensures none { IfNone result ((self.old ≡ []) × (steps.new ≡ steps.old)) }
        ensures some { IfSome result (λ found. (self.old ≡ (found.0, found.1.now) ∷ self.new) × (steps.new ≡ steps.old + 1)) }
    {
        let (first, others) = self.notes.split_first()?;
        steps.tick();
        self.notes = others;
        Some((first.0, &first.1))
    }
}
