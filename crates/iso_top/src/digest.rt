// The digest of the array, block after block.
ghost use Rattle.std.specs.{Prelude.{◌≡◌, ◌+◌, ◌≤◌, [], IfOk, IsErrOf, OnOk, length, vec_len}, Option.ForSome};
ghost use Rattle.counts.specs.Count.{Rose};
ghost use Rattle.iso_core.specs.{Calls.IsTx, Core.{StandsFor, disk_of}, Standing.up};
ghost use Rattle.iso_disk.specs.Disk.{WritesNothing};
ghost use Rattle.iso_model.specs.{declared.limits.TheConstants.LAST, History.{array_at, last}, World.{World, Live}};
ghost use Rattle.script_model.specs.Bench.{array_bytes};
ghost use Rattle.sha2.specs.Sha256.{sha256};

use iso_core::Core;
use iso_disk::Disk;
use iso_model::CoreError;
use sha2::{Digest, Sha256};
use std::alloc::{AllocError, Global};

/// Why there is no digest.
#[derive(Clone, Copy, Debug, PartialEq, Eq)]
pub enum DigestError {
    /// The disk failed.
    Disk,
    /// Want of memory.
    Memory,
}

/// The SHA-256 of the array after the last commit, block after block, of a core without transactions. It reads each
/// block in a transaction that it begins and aborts.
///
/// # Errors
///
/// - `Memory`: want of memory. The core is as before.
/// - `Disk`: the disk failed. The core represents the same world but for the number of the next transaction.
pub fn digest_of<D: Disk>(alloc: Global, core: &mut Core<D>) -> Result<[u8; 32], DigestError>
    requires { (W : World) × StandsFor D.state core.old W up × (W.live ≡ []) × (W.next ≤ LAST) }
    ensures digest { (W : World) → StandsFor D.state core.old W up → IfOk result (λ digest. ForSome (D.state (disk_of core.old)).contents
        (λ _. digest ≡ sha256 (array_bytes (array_at W.history (last W.history))))) }
    ensures unwritten { WritesNothing (D.state (disk_of core.old)) (D.state (disk_of core.new)) }

    // But for the next number the core represents the same world.
    ensures world { (W : World) → StandsFor D.state core.old W up → W.live ≡ [] → OnOk result (StandsFor D.state core.new (record W { next = W.next + 1 }) up) }
    ensures failed { (W : World) → StandsFor D.state core.old W up → W.live ≡ [] → IsErrOf result DigestError.Disk
        → StandsFor D.state core.new (record W { next = W.next + 1 }) up }
    ensures memory { IsErrOf result DigestError.Memory → core.new ≡ core.old }

    ensures fault { IsErrOf result DigestError.Disk → Rose (D.state (disk_of core.old)).faults (D.state (disk_of core.new)).faults }
    ensures no_fault { OnOk result ((D.state (disk_of core.new)).faults ≡ (D.state (disk_of core.old)).faults) }
{
    let geometry = core.geometry();
    let Ok(mut block) = blank(alloc, geometry.block as usize) else {
        return Err(DigestError::Memory);
    };
    let begun = match core.begin(None) {
        Ok(begun) => begun,
        Err(error) => {
            // No other cause keeps a transaction from beginning.
            prove!(matches!(&error, CoreError::Memory));
            return Err(DigestError::Memory);
        }
    };
    let digest = digest_in(core, begun.tx, geometry.blocks, &mut block);
    core.abort(begun.tx);
    digest
}

fn blank(alloc: Global, len: usize) -> Result<Vec<u8>, AllocError>
    ensures { IfOk result (λ bytes. vec_len bytes ≡ len) }
{
    vec![in alloc; 0; len]
}

/// The SHA-256 of the array as a transaction is shown it. All bytes of a block may be overwritten.
fn digest_in<D: Disk>(
    core: &mut Core<D>,
    tx: u64,
    blocks: u32,
    block: &mut [u8],
) -> Result<[u8; 32], DigestError>
    requires { (W : World) × (t : Live) × StandsFor D.state core.old W up × IsTx W tx t × (blocks ≡ W.geometry.blocks) × (length block.old ≡ W.geometry.block) }
    ensures digest { (W : World) (t : Live) → StandsFor D.state core.old W up → IsTx W tx t → blocks ≡ W.geometry.blocks
        → IfOk result (λ digest. ForSome (D.state (disk_of core.old)).contents (λ _. digest ≡ sha256 (array_bytes (array_at W.history t.begin)))) }
    ensures same { (W : World) → StandsFor D.state core.old W up → StandsFor D.state core.new W up }
    ensures unwritten { WritesNothing (D.state (disk_of core.old)) (D.state (disk_of core.new)) }
    ensures memory { ¬ IsErrOf result DigestError.Memory }
    ensures fault { IsErrOf result DigestError.Disk → Rose (D.state (disk_of core.old)).faults (D.state (disk_of core.new)).faults }
    ensures no_fault { OnOk result ((D.state (disk_of core.new)).faults ≡ (D.state (disk_of core.old)).faults) }
{
    let mut hasher = Sha256::new();
    for number in 0..blocks {
        if let Err(_) = core.fetch(tx, number, block) {
            return Err(DigestError::Disk);
        }
        hasher.update(&*block);
    }
    Ok(hasher.finalize())
}
