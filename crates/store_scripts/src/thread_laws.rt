// The law of what clients' lines tell: the function does nothing, and its contract is the law.
ghost use Rattle.std.specs.Prelude.{◌≡◌, ℕ, [], List};
ghost use Rattle.iso_model.specs.Worlds.{IsWorld};
ghost use Rattle.script_model.specs.{declared.script.Line.Line, Operations.AreLines};
ghost use Rattle.iso_shared.specs.{declared.entry.Entry.Entry, Ports.IsIsolatedAt, States.Start};
ghost use Rattle.par_script.specs.{Told.Told, declared.part.Part.Part};
ghost use Rattle.store_scripts.specs.ThreadsInOrder.{LinesTellCalls};

/// Where clients that run concurrently were told their replies by one list, their lines and entries have one order, along which the
/// calls that lines tell of a transaction go with it from client to client, as looks hand it on. In each such order, where the device
/// has known bytes, the stores begin well formed and each commit keeps to them, the calls that are told of each commit answer as one
/// thread's calls on the maps directly before it, and end in those directly after it; those of a transaction that ended without a
/// write, and keeps to the stores, answer by the maps at its begin, and so do, in order, those of one that is live once a line of its client
/// was answered.
pub fn lines_of_clients_tell_their_calls()
    ensures { (A : Start) (lines : List (ℕ × Line)) (parts : List Part) (E : List Entry) → IsWorld A.world → A.world.live ≡ [] → IsIsolatedAt A E → AreLines lines → Told A lines parts E → LinesTellCalls A lines parts E }
{}
