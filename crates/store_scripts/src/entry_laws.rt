// The law of lists with stores: the function does nothing, and its contract is the law.
ghost use Rattle.std.specs.Prelude.{◌≡◌, [], List};
ghost use Rattle.iso_model.specs.Worlds.{IsWorld};
ghost use Rattle.iso_shared.specs.{declared.entry.Entry.Entry, Legal.IsLegal, Ports.IsIsolatedAt, States.Start};
ghost use Rattle.store_scripts.specs.EntriesInOrder.{FilesAnswerAt, StoresAnswerAt};

/// In a legal list of a shared device, begun without a transaction on a sound world, whose history is isolated: where the stores
/// begin well formed, and the transactions that commit write their regions by their calls alone, the calls of each commit answer as
/// one thread's calls on the maps directly before it and end in those directly after it. Those of a transaction that is live answer so
/// by the maps at its begin, and where it ended without a write each of them by these maps alone. So it is of the hash store and the tree
/// store (`stores`), and of the hash store and the files, where calls on files alone write the tree store (`files`).
pub fn store_calls_of_a_list_answer_in_order()
    ensures stores { (A : Start) (es : List Entry) → IsWorld A.world → A.world.live ≡ [] → IsLegal A es → IsIsolatedAt A es → StoresAnswerAt A es }
    ensures files { (A : Start) (es : List Entry) → IsWorld A.world → A.world.live ≡ [] → IsLegal A es → IsIsolatedAt A es → FilesAnswerAt A es }
{}
