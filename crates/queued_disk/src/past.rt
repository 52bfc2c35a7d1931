// The calls that were handed on: a list that only contracts read.
ghost use Rattle.std.specs.Prelude.{◌≡◌, ◌∷◌, [], List};

use iso_memdisk::Call;
use std::marker::Model;
use std::snapshot::Snapshot;

/// Each tape that was handed on, the last one first. It has no bytes that a caller could read.
#[derive(Drop)]
#[cycle(past)]
pub struct Past {
    last: Last,
}

#[derive(Drop)]
#[cycle(past)]
enum Last {
    Nothing,
    Tape(Snapshot<Vec<Call>>, Snapshot<Past>),
}

impl Model for Past {
    ghost use Rattle.std.specs.Prelude.{◌≡◌, List, length};
    ghost use Rattle.iso_memdisk.specs.declared.record.Call.{Call};

    ghost Value = { List (List Call) };

    ghost use Rattle.queued_disk.specs.Past.{tapes};

    ghost view = { λ a. tapes a.last };

    ghost size = { length };

    ghost use Rattle.std.proofs.Common.{arith, length-append};

    ghost size_decreases = { λ a h. Prim.grind (arith, length-append) };
}

impl Past {
    /// Nothing was handed on.
    pub fn nothing() -> Self
        ensures { result ≡ [] }
    {
        Past {
            last: Last::Nothing,
        }
    }

    /// This tape is handed on after the others.
    pub fn with(&self, tape: &Vec<Call>) -> Self
        ensures { result ≡ tape.now.items ∷ self.now }
    {
        Past {
            last: Last::Tape(Snapshot::of(tape), Snapshot::of(self)),
        }
    }
}
