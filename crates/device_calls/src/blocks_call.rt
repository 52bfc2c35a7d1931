// A call on any transaction over blocks, as a value.

use tx_blocks::TxBlocks;

/// A call on any transaction over blocks: of a store, or of several. `on_blocks` makes it on the transaction of a session.
pub trait BlocksCall {
    ghost use Rattle.tx_blocks.specs.Tx.{Device, Tx};

    /// What it answers.
    type Answer: Drop;

    /// On which transactions it may be made.
    ghost fits: { Self → Tx → Type 0 };

    /// What it did: the transaction and the device before it and after it, and its answer.
    ghost says: { Self → (t u : Tx) → (before now : Device) → Self.Answer → Type 0 };

    /// Makes it.
    fn make<T: TxBlocks>(self, tx: &mut T) -> Self::Answer
        requires { fits self (T.state tx.old) }
        ensures { says self (T.state tx.old) (T.state tx.new) (T.device tx.old) (T.device tx.new) result };
}
