// Where bytes come from.
ghost use Rattle.std.specs.Prelude.{◌≡◌, ◌<◌, ◌≤◌, ◌==◌, ◌++◌, length, take, vec_len, IfOk, OnErr, OnOk, IsErrOf};
ghost use Rattle.counts.specs.Count.{HasCause, Rose};
ghost use Rattle.iso_io.specs.{Source.{SourceState, GivesUpToEnd, MetEnd, Took, TookAtMost, ended_after}, declared.source.TakeError.TheVariants.{Failed, Memory}};

use std::alloc::{AllocError, Global};

// The most bytes that one take is asked for.
const PIECE: usize = 65536;

/// A source has failed.
#[derive(Clone, Copy, Debug, PartialEq, Eq)]
pub struct SourceFault;

/// Where bytes come from, in order.
pub trait Source {
    /// What the source is at this moment.
    ghost state: { Self → SourceState };

    /// Gives the first of the bytes that are left, and says how many. With room, it gives none exactly at the end. It
    /// may write any bytes after them.
    ///
    /// # Errors
    ///
    /// The source failed in this call. No byte is taken from those that are left.
    fn take(&mut self, into: &mut [u8]) -> Result<usize, SourceFault>
        ensures count { IfOk result (λ n. n ≤ length into.new) }
        ensures bytes { IfOk result (λ n. Took (state self.old) (state self.new) (take n into.new)) }
        ensures end { IfOk result (λ n. 0 < length into.new → GivesUpToEnd (state self.old) n) }
        ensures ended { (state self.new).is_ended ≡ ended_after (state self.old).is_ended into.new result }

        // A take that fails leaves the bytes as they were.
        ensures err { OnErr result ((state self.new).rest ≡ (state self.old).rest) }
        ensures cause { HasCause (state self.old).faults (state self.new).faults result };
}

/// Why not all bytes were taken.
#[derive(Clone, Copy, Debug, PartialEq, Eq)]
pub enum TakeError {
    /// The source failed.
    Failed,
    /// Want of memory.
    Memory,
}

impl From<SourceFault> for TakeError {
    ghost from_gives = { λ _ e. e ≡ Failed };

    fn from(_: SourceFault) -> Self {
        TakeError::Failed
    }
}

impl From<AllocError> for TakeError {
    ghost from_gives = { λ _ e. e ≡ Memory };

    fn from(_: AllocError) -> Self {
        TakeError::Memory
    }
}

/// Takes all bytes that are left, up to a limit. Fewer came exactly where the end was met.
///
/// # Errors
///
/// At most `limit` bytes were taken, and are lost.
/// - `Failed`: a call of the source failed.
/// - `Memory`: want of memory, and no call failed.
#[tactic(auto, using(crate::proofs::Told::steps))]
pub fn take_all<S: Source>(alloc: Global, source: &mut S, limit: u64) -> Result<Vec<u8>, TakeError>
    ensures bytes { IfOk result (λ bytes. Took (S.state source.old) (S.state source.new) bytes.items) }
    ensures limit { IfOk result (λ bytes. vec_len bytes ≤ limit) }
    ensures ended { IfOk result (λ bytes. vec_len bytes < limit → MetEnd (S.state source.old) (S.state source.new) bytes.items) }

    // At an error, at most `limit` bytes are lost.
    ensures err { OnErr result (TookAtMost (S.state source.old) (S.state source.new) limit) }
    ensures failed { IsErrOf result TakeError.Failed → Rose (S.state source.old).faults (S.state source.new).faults }
    ensures memory { IsErrOf result TakeError.Memory → (S.state source.new).faults ≡ (S.state source.old).faults }
    ensures later { (S.state source.old).faults ≤ (S.state source.new).faults }
    ensures passed { OnOk result ((S.state source.new).faults ≡ (S.state source.old).faults) }
{
    let mut bytes = Vec::new(alloc);
    let mut piece = blank(alloc, PIECE)?;
    while (bytes.len() as u64) < limit {
        let room = (limit - bytes.len() as u64).min(PIECE as u64) as usize;
        if take_piece(source, &mut piece[..room], &mut bytes)? == 0 {
            break;
        }
    }
    Ok(bytes)
}

// Takes once into the piece, and adds what came to the bytes. At an error what came is lost.
fn take_piece<S: Source>(
    source: &mut S,
    piece: &mut [u8],
    bytes: &mut Vec<u8>,
) -> Result<usize, TakeError>
    ensures count { IfOk result (λ n. n ≤ length piece.new) }
    ensures added { IfOk result (λ n. bytes.new.items ≡ bytes.old.items ++ take n piece.new) }
    ensures bytes { IfOk result (λ n. Took (S.state source.old) (S.state source.new) (take n piece.new)) }
    ensures end { IfOk result (λ n. 0 < length piece.new → GivesUpToEnd (S.state source.old) n) }
    ensures ended { IfOk result (λ n. 0 < length piece.new → (S.state source.new).is_ended ≡ (n == 0)) }
    ensures err { OnErr result (TookAtMost (S.state source.old) (S.state source.new) (length piece.new)) }
    ensures failed { IsErrOf result TakeError.Failed → Rose (S.state source.old).faults (S.state source.new).faults }
    ensures memory { IsErrOf result TakeError.Memory → (S.state source.new).faults ≡ (S.state source.old).faults }
    ensures later { (S.state source.old).faults ≤ (S.state source.new).faults }
    ensures passed { OnOk result ((S.state source.new).faults ≡ (S.state source.old).faults) }
{
    let taken = source.take(piece)?;
    bytes.extend_from_slice(&piece[..taken])?;
    Ok(taken)
}

fn blank(alloc: Global, len: usize) -> Result<Vec<u8>, AllocError>
    ensures { IfOk result (λ bytes. vec_len bytes ≡ len) }
{
    vec![in alloc; 0; len]
}
