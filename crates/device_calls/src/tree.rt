// The calls of the tree store on a session's transaction, each in one step.
ghost use Rattle.std.specs.Prelude.{◌+◌, ◌≤◌, ◌<◌, IsTrue};
ghost use Rattle.iso_model.specs.Geometry.{is_valid};
ghost use Rattle.store_model.specs.TreeRegion.{IsTreeArea};
ghost use Rattle.tx_blocks.specs.Runs.{area_of};
ghost use Rattle.device_calls.specs.{Regions.area_in, Stores.{TreeGets, TreePuts, TreeRemoves, TreeScans}, Visits.HasCalled};

use crate::blocks_call::BlocksCall;
use crate::visit::on_blocks;
use handle_pass::Session;
use iso_disk::Disk;
use iso_model::Bytes;
use iso_shared::Origin;
use std::alloc::Global;
use std::sync::Wait;
use store_model::{PairList, Region, StoreError};
use tx_blocks::TxBlocks;

// A look-up of a key.
#[derive(Drop)]
struct GetTree<'k> {
    alloc: Global,
    region: Region,
    key: &'k [u8],
}

impl<'k> BlocksCall for GetTree<'k> {
    ghost use Rattle.std.specs.Prelude.{◌+◌, ◌<◌, ◌≤◌};
    ghost use Rattle.store_model.specs.TreeRegion.{IsTreeArea};
    ghost use Rattle.tx_blocks.specs.Runs.{area_of};
    ghost use Rattle.device_calls.specs.Stores.{TreeGets};

    type Answer = Result<Option<Bytes>, StoreError>;

    ghost fits = { λ c t. IsTreeArea (area_of t c.region) × (c.region.start + c.region.size ≤ t.blocks) };

    ghost says = { λ c t u before now r. TreeGets (area_of t c.region) c.key.now r t u before now };

    fn make<T: TxBlocks>(self, tx: &mut T) -> Result<Option<Bytes>, StoreError> {
        iso_tree::get(self.alloc, tx, self.region, self.key)
    }
}

/// The value of a key in the tree store, by the transaction of a session, as `get` of `iso_tree` finds it.
///
/// # Errors
///
/// As those of `get` of `iso_tree`; `Tx(NotInTx)` where the session has no transaction.
pub fn tree_get<'a, D: Disk + Drop, O: Origin, R: Wait>(
    rt: &R,
    alloc: Global,
    session: &mut Session<'a, D, O>,
    region: Region,
    key: &[u8],
) -> Result<Option<Bytes>, StoreError>
    requires valid { IsTrue (is_valid O.start.world.geometry) }
    requires area { IsTreeArea (area_in O.start.world.geometry region) }
    requires fits { region.start + region.size ≤ O.start.world.geometry.blocks }
    ensures did { HasCalled O.start session.old session.new (λ t u before now. TreeGets (area_of t region) key.now result t u before now) }
{
    on_blocks(rt, session, GetTree { alloc, region, key })
}

// A put of a key.
#[derive(Drop)]
struct PutTree<'k> {
    alloc: Global,
    region: Region,
    key: &'k [u8],
    value: &'k [u8],
}

impl<'k> BlocksCall for PutTree<'k> {
    ghost use Rattle.std.specs.Prelude.{◌+◌, ◌<◌, ◌≤◌};
    ghost use Rattle.store_model.specs.TreeRegion.{IsTreeArea};
    ghost use Rattle.tx_blocks.specs.Runs.{area_of};
    ghost use Rattle.device_calls.specs.Stores.{TreePuts};

    type Answer = Result<(), StoreError>;

    ghost fits = { λ c t. IsTreeArea (area_of t c.region) × (c.region.start + c.region.size ≤ t.blocks) };

    ghost says = { λ c t u before now r. TreePuts (area_of t c.region) c.key.now c.value.now r t u before now };

    fn make<T: TxBlocks>(self, tx: &mut T) -> Result<(), StoreError> {
        iso_tree::put(self.alloc, tx, self.region, self.key, self.value)
    }
}

/// Puts a value at a key of the tree store, by the transaction of a session, as `put` of `iso_tree` does. After want of memory the
/// transaction is to be aborted.
///
/// # Errors
///
/// As those of `put` of `iso_tree`; `Tx(NotInTx)` where the session has no transaction.
pub fn tree_put<'a, D: Disk + Drop, O: Origin, R: Wait>(
    rt: &R,
    alloc: Global,
    session: &mut Session<'a, D, O>,
    region: Region,
    key: &[u8],
    value: &[u8],
) -> Result<(), StoreError>
    requires valid { IsTrue (is_valid O.start.world.geometry) }
    requires area { IsTreeArea (area_in O.start.world.geometry region) }
    requires fits { region.start + region.size ≤ O.start.world.geometry.blocks }
    ensures did { HasCalled O.start session.old session.new (λ t u before now. TreePuts (area_of t region) key.now value.now result t u before now) }
{
    on_blocks(
        rt,
        session,
        PutTree {
            alloc,
            region,
            key,
            value,
        },
    )
}

// A removal of a key.
#[derive(Drop)]
struct DeleteTree<'k> {
    alloc: Global,
    region: Region,
    key: &'k [u8],
}

impl<'k> BlocksCall for DeleteTree<'k> {
    ghost use Rattle.std.specs.Prelude.{◌+◌, ◌<◌, ◌≤◌};
    ghost use Rattle.store_model.specs.TreeRegion.{IsTreeArea};
    ghost use Rattle.tx_blocks.specs.Runs.{area_of};
    ghost use Rattle.device_calls.specs.Stores.{TreeRemoves};

    type Answer = Result<bool, StoreError>;

    ghost fits = { λ c t. IsTreeArea (area_of t c.region) × (c.region.start + c.region.size ≤ t.blocks) };

    ghost says = { λ c t u before now r. TreeRemoves (area_of t c.region) c.key.now r t u before now };

    fn make<T: TxBlocks>(self, tx: &mut T) -> Result<bool, StoreError> {
        iso_tree::del(self.alloc, tx, self.region, self.key)
    }
}

/// Removes a key of the tree store, by the transaction of a session, as `del` of `iso_tree` does.
///
/// # Errors
///
/// As those of `del` of `iso_tree`; `Tx(NotInTx)` where the session has no transaction.
pub fn tree_delete<'a, D: Disk + Drop, O: Origin, R: Wait>(
    rt: &R,
    alloc: Global,
    session: &mut Session<'a, D, O>,
    region: Region,
    key: &[u8],
) -> Result<bool, StoreError>
    requires valid { IsTrue (is_valid O.start.world.geometry) }
    requires area { IsTreeArea (area_in O.start.world.geometry region) }
    requires fits { region.start + region.size ≤ O.start.world.geometry.blocks }
    ensures did { HasCalled O.start session.old session.new (λ t u before now. TreeRemoves (area_of t region) key.now result t u before now) }
{
    on_blocks(rt, session, DeleteTree { alloc, region, key })
}

// A scan of a range of keys.
#[derive(Drop)]
struct ScanTree<'k> {
    alloc: Global,
    region: Region,
    from: &'k [u8],
    to: &'k [u8],
    most: u32,
}

impl<'k> BlocksCall for ScanTree<'k> {
    ghost use Rattle.std.specs.Prelude.{◌+◌, ◌<◌, ◌≤◌};
    ghost use Rattle.store_model.specs.TreeRegion.{IsTreeArea};
    ghost use Rattle.tx_blocks.specs.Runs.{area_of};
    ghost use Rattle.device_calls.specs.Stores.{TreeScans};

    type Answer = Result<PairList, StoreError>;

    ghost fits = { λ c t. IsTreeArea (area_of t c.region) × (c.region.start + c.region.size ≤ t.blocks) × (0 < c.most) };

    ghost says = { λ c t u before now r. TreeScans (area_of t c.region) c.from.now c.to.now c.most r t u before now };

    fn make<T: TxBlocks>(self, tx: &mut T) -> Result<PairList, StoreError> {
        iso_tree::scan(self.alloc, tx, self.region, self.from, self.to, self.most)
    }
}

/// The first pairs of a range of keys in the tree store, by the transaction of a session, as `scan` of `iso_tree` finds them.
///
/// # Errors
///
/// As those of `scan` of `iso_tree`; `Tx(NotInTx)` where the session has no transaction.
pub fn tree_scan<'a, D: Disk + Drop, O: Origin, R: Wait>(
    rt: &R,
    alloc: Global,
    session: &mut Session<'a, D, O>,
    region: Region,
    from: &[u8],
    to: &[u8],
    most: u32,
) -> Result<PairList, StoreError>
    requires valid { IsTrue (is_valid O.start.world.geometry) }
    requires area { IsTreeArea (area_in O.start.world.geometry region) }
    requires fits { region.start + region.size ≤ O.start.world.geometry.blocks }
    requires some { 0 < most }
    ensures did { HasCalled O.start session.old session.new (λ t u before now. TreeScans (area_of t region) from.now to.now most result t u before now) }
{
    on_blocks(
        rt,
        session,
        ScanTree {
            alloc,
            region,
            from,
            to,
            most,
        },
    )
}
