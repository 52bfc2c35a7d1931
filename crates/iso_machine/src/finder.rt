// Who is at a client, and who is under a label.
ghost use Rattle.std.specs.Prelude.{◌≡◌, ◌≢◌, ℕ, List, Some, IfOk, IsTrue, OnOk};
ghost use Rattle.iso_model.specs.Labels.{is_label};
ghost use Rattle.iso_machine.specs.{Standing.{AreListed, number_at, number_under}, declared.attached.Attached.Attached};

use indexmap::IndexMap;
use iso_model::{Label, Memory};
use std::alloc::Global;

/// For each client and each label the number of the transaction that is there. A number that is none's is no harm: who
/// is asked for is looked for then.
#[derive(Drop)]
pub(crate) struct Finder {
    pub(crate) clients: [Option<u64>; 256],
    // under the keys of labels
    pub(crate) labels: IndexMap<u128, u64>,
}

impl Finder {
    /// Nobody is anywhere. It takes no memory.
    pub(crate) fn empty(alloc: Global) -> Finder {
        Finder {
            clients: [None; 256],
            labels: IndexMap::new(alloc),
        }
    }

    /// The number of a client's transaction.
    pub(crate) fn at_client(&self, client: u8) -> Option<u64>
        ensures { result ≡ number_at client self.now }
    {
        self.clients[client as usize]
    }

    /// Sets the number of a client's transaction, or that it has none.
    pub(crate) fn set_client(&mut self, client: u8, number: Option<u64>)
        ensures own { number_at client self.new ≡ number }
        ensures others { (c : ℕ) → c ≢ client → number_at c self.new ≡ number_at c self.old }
        ensures labels { self.new.labels ≡ self.old.labels }
    {
        self.clients[client as usize] = number;
    }

    /// Sets the number of the transaction under a label, and answers the one before.
    pub(crate) fn put_label(&mut self, label: &Label, number: u64) -> Result<Option<u64>, Memory>
        ensures label { IsTrue (is_label label.now) }
        ensures earlier { IfOk result (λ earlier. earlier ≡ number_under label.now self.old) }
        ensures own { OnOk result (number_under label.now self.new ≡ Some number) }
        ensures listed { (live : List Attached) → AreListed self.old live → AreListed self.new live }
    {
        match self.labels.insert(label.key(), number) {
            Ok(earlier) => Ok(earlier),
            Err(_) => Err(Memory),
        }
    }

    /// Takes the number of the transaction under a label out.
    pub(crate) fn take_label(&mut self, label: &Label) -> Option<u64>
        ensures label { IsTrue (is_label label.now) }
        ensures number { result ≡ number_under label.now self.old }
        ensures others { (text : List ℕ) → IsTrue (is_label text) → text ≢ label.now → number_under text self.new ≡ number_under text self.old }
        ensures clients { self.new.clients ≡ self.old.clients }
    {
        self.labels.swap_remove(&label.key())
    }
}
