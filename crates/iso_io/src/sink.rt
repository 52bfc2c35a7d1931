// Where bytes go.
ghost use Rattle.std.specs.Prelude.{◌≤◌, ◌≡◌, true, length, take, IfOk, IsErr, OnErr, OnOk, IsErrOf};
ghost use Rattle.counts.specs.Count.{HasCause, Rose};
ghost use Rattle.iso_io.specs.Sink.{SinkState, Broke, CountsStand, NoCountFell, Wrote, WroteFront, refusals_after};

/// A sink has failed.
#[derive(Clone, Copy, Debug, PartialEq, Eq)]
pub struct SinkFault;

/// Where bytes go, in order.
pub trait Sink {
    /// What the sink is at this moment.
    ghost state: { Self → SinkState };

    /// Takes bytes from the front of a piece, and says how many. It may take none.
    ///
    /// # Errors
    ///
    /// The sink failed in this call, as a broken one does in each. It took nothing, and this call did not break it.
    fn put(&mut self, bytes: &[u8]) -> Result<usize, SinkFault>
        ensures count { IfOk result (λ n. n ≤ length bytes.now) }
        ensures bytes { IfOk result (λ n. Wrote (state self.old) (state self.new) (take n bytes.now)) }
        ensures refusals { (state self.new).refusals ≡ refusals_after (state self.old).refusals bytes.now result }
        ensures no_fewer { (state self.old).refusals ≤ (state self.new).refusals }

        // A put that fails takes nothing. None breaks the sink, and one that is broken takes nothing more.
        ensures err { OnErr result ((state self.new).written ≡ (state self.old).written) }
        ensures whole { (state self.new).is_broken ≡ (state self.old).is_broken }
        ensures broken { (state self.old).is_broken ≡ true → IsErr result }
        ensures cause { HasCause (state self.old).faults (state self.new).faults result };

    /// Hands on what the sink holds back of the bytes that it took.
    ///
    /// # Errors
    ///
    /// The sink failed in this call, as a broken one does in each. It is broken from now on, and bytes that it took may
    /// never come out.
    fn hand_on(&mut self) -> Result<(), SinkFault>
        ensures stands { OnOk result (state self.new ≡ state self.old) }
        ensures breaks { OnErr result (Broke (state self.old) (state self.new)) }
        ensures broken { (state self.old).is_broken ≡ true → IsErr result }
        ensures cause { HasCause (state self.old).faults (state self.new).faults result };
}

/// Why a sink did not take all of a piece.
#[derive(Clone, Copy, Debug, PartialEq, Eq)]
pub enum PutError {
    /// It failed.
    Failed,
    /// It took nothing of a piece that is not empty.
    TookNothing,
}

/// Puts a whole piece.
///
/// # Errors
///
/// The sink has taken a front of the piece.
/// - `Failed`: a call of the sink failed.
/// - `TookNothing`: the sink took nothing of bytes that were left.
#[inline(always)]
#[tactic(auto, using(crate::proofs::Told::steps))]
pub fn put_all<K: Sink>(sink: &mut K, bytes: &[u8]) -> Result<(), PutError>
    ensures ok { OnOk result (Wrote (K.state sink.old) (K.state sink.new) bytes.now) }
    ensures err { OnErr result (WroteFront (K.state sink.old) (K.state sink.new) bytes.now) }

    // Each error has its cause in this call, and no other: the count of the other one stays. No
    // count falls, and after Ok each stays.
    ensures failed { IsErrOf result PutError.Failed → Rose (K.state sink.old).faults (K.state sink.new).faults }
    ensures took_nothing { IsErrOf result PutError.TookNothing → Rose (K.state sink.old).refusals (K.state sink.new).refusals }
    ensures not_refused { IsErrOf result PutError.Failed → (K.state sink.new).refusals ≡ (K.state sink.old).refusals }
    ensures not_failed { IsErrOf result PutError.TookNothing → (K.state sink.new).faults ≡ (K.state sink.old).faults }
    ensures later { NoCountFell (K.state sink.old) (K.state sink.new) }
    ensures passed { OnOk result (CountsStand (K.state sink.old) (K.state sink.new)) }
    ensures whole { (K.state sink.new).is_broken ≡ (K.state sink.old).is_broken }
{
    let mut at = 0;
    while at < bytes.len() {
        match sink.put(&bytes[at..]) {
            Ok(0) => return Err(PutError::TookNothing),
            Ok(n) => at += n,
            Err(_) => return Err(PutError::Failed),
        }
    }
    Ok(())
}
