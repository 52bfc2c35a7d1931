// The laws of accounts: each function does nothing, and its contract is the law.
ghost use Rattle.std.specs.{Prelude.{◌≡◌, ◌+◌, [], List, ℕ}, FinMap.{insert, get}};
ghost use Rattle.iso_model.specs.{History.{array_at, last}, Worlds.IsWorld, declared.access.Geometry.Geometry};
ghost use Rattle.iso_shared.specs.{declared.entry.Entry.Entry, Legal.IsLegal, Standing.ShowsSince, States.Start};
ghost use Rattle.store_scripts.specs.EntriesInOrder.{StoresAreWell};
ghost use Rattle.store_laws.specs.{Calls.{KeyCall, StoreAnswer}, Parts.run};
ghost use Rattle.store_model.specs.HashRegion.{Pairs};
ghost use Rattle.store_scripts.specs.Stores.{image_hash, image_tree};
ghost use Rattle.accounts.specs.{Lists.{AreOfAccounts, KeepsSumAt, KeepsSumIn, OpensWithSum}, Sums.{Accounts, KeepsSum, amount, amount_in, total}, Transactions.IsOfAccounts};

/// A put changes the sum of all accounts by what it changes at its key.
pub fn puts_change_the_sum_at_their_key()
    ensures { (m : Pairs) (key value : List ℕ) → total (insert m key value) + amount_in (get m key) ≡ total m + amount value }
{}

/// Calls that open the accounts, or move an amount, keep the sum on every map on which they answer so.
pub fn transactions_of_accounts_keep_the_sum()
    ensures { (accounts : Accounts) (g : Geometry) (m : Pairs) (calls : List KeyCall) (answers : List StoreAnswer) → IsOfAccounts accounts calls answers
        → (run (image_hash g) m calls).0 ≡ answers → KeepsSum accounts m → KeepsSum accounts (run (image_hash g) m calls).1 }
{}

/// In a legal list of a shared device, begun without a transaction on a sound world whose stores are well formed: where each commit
/// is one of accounts, their sum is the same after every commit, once they are open, also after one that a fault of the disk has left
/// open; and so it is in each image that shows the list's history and opens.
pub fn accounts_keep_their_sum()
    ensures history { (accounts : Accounts) (A : Start) (es : List Entry) → IsWorld A.world → A.world.live ≡ [] → IsLegal A es → StoresAreWell (image_tree A.world.geometry) A.world.geometry A.world.history
        → AreOfAccounts accounts A es → KeepsSumIn accounts A.world.geometry (array_at A.world.history (last A.world.history)) → KeepsSumAt accounts A es }
    ensures images { (accounts : Accounts) (A : Start) (es : List Entry) (image : List ℕ) → IsLegal A es → KeepsSumAt accounts A es → ShowsSince A es image → OpensWithSum accounts image }
{}
