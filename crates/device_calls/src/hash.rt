// The calls of the hash store on a session's transaction, each in one step.
ghost use Rattle.std.specs.Prelude.{◌+◌, ◌≤◌, IsTrue};
ghost use Rattle.iso_model.specs.Geometry.{is_valid};
ghost use Rattle.store_model.specs.HashRegion.{IsHashArea};
ghost use Rattle.tx_blocks.specs.Runs.{area_of};
ghost use Rattle.device_calls.specs.{Regions.area_in, Stores.{HashGets, HashPuts, HashRemoves}, Visits.HasCalled};

use crate::blocks_call::BlocksCall;
use crate::visit::on_blocks;
use handle_pass::Session;
use iso_disk::Disk;
use iso_model::Bytes;
use iso_shared::Origin;
use std::alloc::Global;
use std::sync::Wait;
use store_model::{Region, StoreError};
use tx_blocks::TxBlocks;

// A look-up of a key.
#[derive(Drop)]
struct GetHash<'k> {
    alloc: Global,
    region: Region,
    key: &'k [u8],
}

impl<'k> BlocksCall for GetHash<'k> {
    ghost use Rattle.std.specs.Prelude.{◌+◌, ◌<◌, ◌≤◌};
    ghost use Rattle.store_model.specs.HashRegion.{IsHashArea};
    ghost use Rattle.tx_blocks.specs.Runs.{area_of};
    ghost use Rattle.device_calls.specs.Stores.{HashGets};

    type Answer = Result<Option<Bytes>, StoreError>;

    ghost fits = { λ c t. IsHashArea (area_of t c.region) × (c.region.start + c.region.size ≤ t.blocks) };

    ghost says = { λ c t u before now r. HashGets (area_of t c.region) c.key.now r t u before now };

    fn make<T: TxBlocks>(self, tx: &mut T) -> Result<Option<Bytes>, StoreError> {
        iso_hash::get(self.alloc, tx, self.region, self.key)
    }
}

/// The value of a key in the hash store, by the transaction of a session, as `get` of `iso_hash` finds it.
///
/// # Errors
///
/// As those of `get` of `iso_hash`; `Tx(NotInTx)` where the session has no transaction.
pub fn hash_get<'a, D: Disk + Drop, O: Origin, R: Wait>(
    rt: &R,
    alloc: Global,
    session: &mut Session<'a, D, O>,
    region: Region,
    key: &[u8],
) -> Result<Option<Bytes>, StoreError>
    requires valid { IsTrue (is_valid O.start.world.geometry) }
    requires area { IsHashArea (area_in O.start.world.geometry region) }
    requires fits { region.start + region.size ≤ O.start.world.geometry.blocks }
    ensures did { HasCalled O.start session.old session.new (λ t u before now. HashGets (area_of t region) key.now result t u before now) }
{
    on_blocks(rt, session, GetHash { alloc, region, key })
}

// A put of a key.
#[derive(Drop)]
struct PutHash<'k> {
    alloc: Global,
    region: Region,
    key: &'k [u8],
    value: &'k [u8],
}

impl<'k> BlocksCall for PutHash<'k> {
    ghost use Rattle.std.specs.Prelude.{◌+◌, ◌<◌, ◌≤◌};
    ghost use Rattle.store_model.specs.HashRegion.{IsHashArea};
    ghost use Rattle.tx_blocks.specs.Runs.{area_of};
    ghost use Rattle.device_calls.specs.Stores.{HashPuts};

    type Answer = Result<(), StoreError>;

    ghost fits = { λ c t. IsHashArea (area_of t c.region) × (c.region.start + c.region.size ≤ t.blocks) };

    ghost says = { λ c t u before now r. HashPuts (area_of t c.region) c.key.now c.value.now r t u before now };

    fn make<T: TxBlocks>(self, tx: &mut T) -> Result<(), StoreError> {
        iso_hash::put(self.alloc, tx, self.region, self.key, self.value)
    }
}

/// Puts a value at a key of the hash store, by the transaction of a session, as `put` of `iso_hash` does. After want of memory the
/// transaction is to be aborted.
///
/// # Errors
///
/// As those of `put` of `iso_hash`; `Tx(NotInTx)` where the session has no transaction.
pub fn hash_put<'a, D: Disk + Drop, O: Origin, R: Wait>(
    rt: &R,
    alloc: Global,
    session: &mut Session<'a, D, O>,
    region: Region,
    key: &[u8],
    value: &[u8],
) -> Result<(), StoreError>
    requires valid { IsTrue (is_valid O.start.world.geometry) }
    requires area { IsHashArea (area_in O.start.world.geometry region) }
    requires fits { region.start + region.size ≤ O.start.world.geometry.blocks }
    ensures did { HasCalled O.start session.old session.new (λ t u before now. HashPuts (area_of t region) key.now value.now result t u before now) }
{
    on_blocks(
        rt,
        session,
        PutHash {
            alloc,
            region,
            key,
            value,
        },
    )
}

// A removal of a key.
#[derive(Drop)]
struct DeleteHash<'k> {
    alloc: Global,
    region: Region,
    key: &'k [u8],
}

impl<'k> BlocksCall for DeleteHash<'k> {
    ghost use Rattle.std.specs.Prelude.{◌+◌, ◌<◌, ◌≤◌};
    ghost use Rattle.store_model.specs.HashRegion.{IsHashArea};
    ghost use Rattle.tx_blocks.specs.Runs.{area_of};
    ghost use Rattle.device_calls.specs.Stores.{HashRemoves};

    type Answer = Result<bool, StoreError>;

    ghost fits = { λ c t. IsHashArea (area_of t c.region) × (c.region.start + c.region.size ≤ t.blocks) };

    ghost says = { λ c t u before now r. HashRemoves (area_of t c.region) c.key.now r t u before now };

    fn make<T: TxBlocks>(self, tx: &mut T) -> Result<bool, StoreError> {
        iso_hash::del(self.alloc, tx, self.region, self.key)
    }
}

/// Removes a key of the hash store, by the transaction of a session, as `del` of `iso_hash` does. After want of memory the
/// transaction is to be aborted.
///
/// # Errors
///
/// As those of `del` of `iso_hash`; `Tx(NotInTx)` where the session has no transaction.
pub fn hash_delete<'a, D: Disk + Drop, O: Origin, R: Wait>(
    rt: &R,
    alloc: Global,
    session: &mut Session<'a, D, O>,
    region: Region,
    key: &[u8],
) -> Result<bool, StoreError>
    requires valid { IsTrue (is_valid O.start.world.geometry) }
    requires area { IsHashArea (area_in O.start.world.geometry region) }
    requires fits { region.start + region.size ≤ O.start.world.geometry.blocks }
    ensures did { HasCalled O.start session.old session.new (λ t u before now. HashRemoves (area_of t region) key.now result t u before now) }
{
    on_blocks(rt, session, DeleteHash { alloc, region, key })
}
