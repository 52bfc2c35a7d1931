// What an image holds.
ghost use Rattle.std.specs.Prelude.{◌≡◌, ◌≢◌, ◌⊎◌, ◌+◌, ◌≤◌, [], IfOk, IsErrOf, IsSome};
ghost use Rattle.counts.specs.Count.{Rose};
ghost use Rattle.iso_core.specs.{Core.{StandsFor, disk_of}, Standing.up};
ghost use Rattle.iso_disk.specs.Disk.{WritesNothing};
ghost use Rattle.iso_model.specs.{declared.limits.TheConstants.LAST, World.World};
ghost use Rattle.iso_top.specs.{Outcome.PrintedDigest, Prints.{Printed, WasCut, WroteWhole}, Texts.{disk_fault_text, memory_text, recover_text}};

use crate::digest::{DigestError, digest_of};
use crate::ended::Ended;
use crate::last_line::put_last;
use crate::result_line::{put_result, recover_line};
use iso_core::Core;
use iso_disk::Image;
use iso_io::Sink;
use std::alloc::Global;

/// Puts the last number, the base number and the digest, or why there is none.
fn put_digest<K: Sink>(
    output: &mut K,
    last: u64,
    base: u64,
    told: Result<[u8; 32], DigestError>,
) -> u8
    ensures told { IfOk told (λ digest. ((result ≡ 0) × WroteWhole (K.state output.old) (K.state output.new) (recover_text last base digest))
        ⊎ ((result ≡ 7) × WasCut (K.state output.old) (K.state output.new) (recover_text last base digest))) }
    ensures disk { IsErrOf told DigestError.Disk → (result ≡ 5) × Printed (K.state output.old) (K.state output.new) disk_fault_text }
    ensures memory { IsErrOf told DigestError.Memory → (result ≡ 8) × Printed (K.state output.old) (K.state output.new) memory_text }
{
    match told {
        Ok(digest) => put_result(output, recover_line(last, base, &digest).as_slice()),
        Err(DigestError::Disk) => {
            put_last(output, b"! disk fault\n");
            5
        }
        Err(DigestError::Memory) => {
            put_last(output, b"! memory\n");
            8
        }
    }
}

/// Puts the number of the last commit of a core's image, and the digest of the array after it. It writes nothing to the image.
pub(crate) fn tell_last<I: Image, K: Sink>(alloc: Global, core: Core<I>, output: &mut K) -> Ended<I>
    requires { (W : World) × StandsFor I.state core W up × (W.live ≡ []) × (W.next ≤ LAST) }
    ensures printed { (W : World) → StandsFor I.state core W up → W.base + 1 ≡ W.history.first
        → PrintedDigest result.status (IsSome (I.state (disk_of core)).contents) W.history (K.state output.old) (K.state output.new) }
    ensures unwritten { WritesNothing (I.state (disk_of core)) (I.state result.image) }
    ensures failed { result.status ≡ 5 → Rose (I.state (disk_of core)).faults (I.state result.image).faults }
    ensures passed { result.status ≢ 5 → (I.state result.image).faults ≡ (I.state (disk_of core)).faults }
{
    let mut core = core;
    let stat = core.stat();
    let told = digest_of(alloc, &mut core);
    let status = put_digest(output, stat.last, stat.base, told);
    let image = core.into_disk();
    Ended { status, image }
}
