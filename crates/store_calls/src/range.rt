// A scan of the tree store on any transaction.
ghost use Rattle.std.specs.Prelude.{◌≡◌, ◌+◌, ◌≤◌, ◌==◌, ◌&&◌, false, true};
ghost use Rattle.store_model.specs.{HashCalls.is_key, TreeCalls.scan_program, TreeRegion.IsTreeArea, Stores.outcome};
ghost use Rattle.script_model.specs.Step.{pairs_reply};
ghost use Rattle.tx_blocks.specs.Runs.{area_of};
ghost use Rattle.store_calls.specs.Calls.{HasCalled, Stops, stored};

use crate::replies::refusal;
use script_model::{Reply, Stop};
use std::alloc::Global;
use store_model::Region;
use tx_blocks::TxBlocks;

/// The pairs between two keys, of which one may be none.
pub(crate) fn scan<T: TxBlocks>(
    alloc: Global,
    tx: &mut T,
    region: Region,
    from: &[u8],
    to: &[u8],
    most: u32,
) -> Result<Reply, Stop>
    requires is_open { (T.state tx.old).is_open ≡ true }
    requires area { IsTreeArea (area_of (T.state tx.old) region) }
    requires fits { region.start + region.size ≤ (T.state tx.old).blocks }
    requires some { (is_key from.now && is_key to.now && (most == 0)) ≡ false }
    ensures called { HasCalled (λ room A. stored pairs_reply (outcome room (scan_program (area_of (T.state tx.old) region) from.now to.now most) A)) (T.state tx.old) (T.state tx.new) result }
    ensures stops { Stops (T.device tx.old) (T.device tx.new) result }
{
    // Then one of the two is no key.
    if most == 0 {
        return Ok(Reply::BadKey);
    }
    match iso_tree::scan(alloc, tx, region, from, to, most) {
        Ok(pairs) => Ok(if pairs.is_empty() {
            Reply::Missing
        } else {
            Reply::Pairs(pairs)
        }),
        Err(error) => refusal(error),
    }
}
