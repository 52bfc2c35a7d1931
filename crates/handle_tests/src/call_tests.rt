// The calls over an image in memory that has both stores: 8 blocks of 256 bytes, the first four a hash store, the others a tree store.
ghost use Rattle.std.specs.Prelude.{◌≡◌, ◌<◌, [], IsTrue};
ghost use Rattle.iso_core.specs.Core.{disk_of};
ghost use Rattle.iso_model.specs.{Geometry.is_valid, World.World};
ghost use Rattle.iso_shared.specs.{Standing.{Came, Holds}, States.opened};
ghost use Rattle.device_calls.specs.Beginnings.{BeginsAt};
ghost use Rattle.handle_tests.specs.Regions.{IsHashOn, IsTreeOn};

use crate::same::same;
use device_calls::{
    Beginning, Retry, RetryError, beginning_of, end_now, end_or_again, hash_delete, hash_get,
    hash_put, hash_region, tree_delete, tree_get, tree_put, tree_region, tree_scan,
};
use handle_pass::{EndError, Session};
use iso_core::Core;
use iso_disk::{Disk, Image};
use iso_image::image_size;
use iso_memdisk::MemDisk;
use iso_model::{Bytes, EndReply, Geometry, Mode};
use iso_recover::format_image;
use iso_shared::{Origin, Shared};
use std::alloc::Global;
use std::marker::Brand;
use std::sync::Wait;
use std::test::Fail;
use store_model::{PairList, Region, StoreError};

#[tactic(auto, unfolding(iso_model::specs::Geometry::is_valid))]
fn numbers() -> Geometry
    ensures { IsTrue (is_valid result) }
{
    Geometry {
        block: 256,
        blocks: 8,
        log: 65_536,
        mode: Mode::Serial,
        hash: 4,
        tree: 4,
        form: 1,
    }
}

/// Whether this value was found.
fn is_found(found: Result<Option<Bytes>, StoreError>, value: &[u8]) -> bool {
    match found {
        Ok(Some(bytes)) => bytes.as_slice() == value,
        _ => false,
    }
}

/// Whether no value was found.
fn is_none(found: Result<Option<Bytes>, StoreError>) -> bool {
    matches!(found, Ok(None))
}

/// How many pairs were found.
fn count(found: Result<PairList, StoreError>) -> Option<usize> {
    match found {
        Ok(pairs) => Some(pairs.len()),
        Err(_) => None,
    }
}

/// Begins a transaction, and says whether it could.
fn begins<D: Disk + Drop, O: Origin, R: Wait>(rt: &R, session: &mut Session<D, O>) -> bool
    requires units { 1 < session.old.units }
    ensures units { session.new.units ≡ session.old.units }
{
    match session.begin_tx(rt, None) {
        Ok(_) => true,
        Err(_) => false,
    }
}

/// Ends the transaction, and gives the reply where there is one.
fn ended<D: Disk + Drop, O: Origin, R: Wait>(
    rt: &R,
    session: &mut Session<D, O>,
) -> Option<EndReply>
    ensures units { session.new.units ≡ session.old.units }
{
    match end_now(rt, session) {
        Ok(reply) => Some(reply),
        Err(EndError::NotInTx) => None,
        Err(EndError::Core(_)) => None,
    }
}

/// Ends the transaction, begins again where it met a conflict, and gives which of the two it was.
fn retried<D: Disk + Drop, O: Origin, R: Wait>(rt: &R, session: &mut Session<D, O>) -> Option<Retry>
    requires units { 1 < session.old.units }
    ensures units { session.new.units ≡ session.old.units }
{
    match end_or_again(rt, session, None) {
        Ok(Retry::Ended(reply)) => Some(Retry::Ended(reply)),
        Ok(Retry::Begun(at)) => Some(Retry::Begun(at)),
        Err(RetryError::End(_)) => None,
        Err(RetryError::Begin(_)) => None,
    }
}

/// Which steps of a transaction went as they should, and how it ended.
type Went = ([bool; 5], Option<EndReply>);

/// A transaction that puts a key in each store, and is shown both.
fn put_both<D: Disk + Drop, O: Origin, R: Wait>(
    rt: &R,
    alloc: Global,
    session: &mut Session<D, O>,
    hash: Region,
    tree: Region,
) -> Went
    requires units { 1 < session.old.units }
    requires hash { IsHashOn O.start.world.geometry hash }
    requires tree { IsTreeOn O.start.world.geometry tree }
    ensures units { session.new.units ≡ session.old.units }
{
    let begun = begins(rt, session);
    let one = hash_put(rt, alloc, session, hash, b"key", b"one").is_ok();
    let two = tree_put(rt, alloc, session, tree, b"key", b"two").is_ok();
    let hashed = is_found(hash_get(rt, alloc, session, hash, b"key"), b"one");
    let sorted = is_found(tree_get(rt, alloc, session, tree, b"key"), b"two");
    ([begun, one, two, hashed, sorted], ended(rt, session))
}

/// A later one that scans, removes both keys and ends.
fn remove_both<D: Disk + Drop, O: Origin, R: Wait>(
    rt: &R,
    alloc: Global,
    session: &mut Session<D, O>,
    hash: Region,
    tree: Region,
) -> Went
    requires units { 1 < session.old.units }
    requires hash { IsHashOn O.start.world.geometry hash }
    requires tree { IsTreeOn O.start.world.geometry tree }
    ensures units { session.new.units ≡ session.old.units }
{
    let begun = begins(rt, session);
    let found = count(tree_scan(rt, alloc, session, tree, b"a", b"z", 9)) == Some(1);
    let one = matches!(hash_delete(rt, alloc, session, hash, b"key"), Ok(true));
    let two = matches!(tree_delete(rt, alloc, session, tree, b"key"), Ok(true));
    let none = is_none(hash_get(rt, alloc, session, hash, b"key"));
    ([begun, found, one, two, none], ended(rt, session))
}

/// A transaction that read what another session then put, and is ended until it meets no conflict: which steps went as they should, how
/// the other session's ended, and what the two ends came to.
fn put_again<D: Disk + Drop, O: Origin, R: Wait>(
    rt: &R,
    alloc: Global,
    first: &mut Session<D, O>,
    second: &mut Session<D, O>,
    hash: Region,
) -> (Went, [Option<Retry>; 2])
    requires first { 1 < first.old.units }
    requires second { 1 < second.old.units }
    requires hash { IsHashOn O.start.world.geometry hash }
{
    let begun = begins(rt, first);
    let none = is_none(hash_get(rt, alloc, first, hash, b"key"));
    let beside = begins(rt, second);
    let put = hash_put(rt, alloc, second, hash, b"key", b"one").is_ok();
    let reply = ended(rt, second);
    let late = hash_put(rt, alloc, first, hash, b"key", b"two").is_ok();
    let again = retried(rt, first);
    let _ = hash_put(rt, alloc, first, hash, b"key", b"two");
    let last = retried(rt, first);
    (([begun, none, beside, put, late], reply), [again, last])
}

/// What becomes of all three.
type Told = (Went, Went, (Went, [Option<Retry>; 2]));

/// All three, one after the other.
fn in_turn<D: Disk + Drop, O: Origin, R: Wait>(
    rt: &R,
    alloc: Global,
    first: &mut Session<D, O>,
    second: &mut Session<D, O>,
    geometry: &Geometry,
) -> Option<Told>
    requires first { 1 < first.old.units }
    requires second { 1 < second.old.units }
    requires image { (geometry.now ≡ O.start.world.geometry) × IsTrue (is_valid geometry.now) }
{
    let hash = hash_region(geometry)?;
    let tree = tree_region(geometry)?;
    let put = put_both(rt, alloc, first, hash, tree);
    let _ = first.abort_tx(rt);
    let removed = remove_both(rt, alloc, first, hash, tree);
    let _ = first.abort_tx(rt);
    Some((put, removed, put_again(rt, alloc, first, second, hash)))
}

/// The same on a device over a core.
fn on_device<D: Disk + Drop, O: Origin, R: Wait>(
    rt: &R,
    alloc: Global,
    core: Core<D>,
    beginning: Beginning,
) -> Option<Told>
    requires start { Holds D.state core (opened O.start) × (O.start.world.live ≡ []) }
    requires came { Came O.start O.disk (D.state (disk_of core)) [] }
    requires valid { IsTrue (is_valid O.start.world.geometry) }
{
    let _ = beginning;
    match Shared::<D, O>::new(alloc, core) {
        Err((_memory, _core)) => None,
        Ok((shared, mut port)) => {
            let geometry = shared.geometry();
            let other = shared.port(&mut port, 1 << 32);
            let mut first = Session::new(&shared, port);
            let mut second = Session::new(&shared, other);
            let told = in_turn(rt, alloc, &mut first, &mut second, &geometry);
            let _ = first.finish(rt);
            let _ = second.finish(rt);
            told
        }
    }
}

/// The same over a core that was just made.
fn over_core<D: Disk + Drop, R: Wait>(rt: &R, alloc: Global, core: Core<D>) -> Option<Told>
    requires { (W : World) × BeginsAt D.state core W }
{
    let beginning = beginning_of(&core);
    on_device::<D, Brand, R>(rt, alloc, core, beginning)
}

/// The same on a new image.
fn made<I: Image + Drop, R: Wait>(rt: &R, alloc: Global, image: I) -> Option<Told> {
    let mut image = image;
    let geometry = numbers();
    image.bind("data.img", Some(image_size(&geometry))).ok()?;
    match format_image(alloc, image, &geometry) {
        Ok(core) => over_core(rt, alloc, core),
        Err((_error, _image)) => None,
    }
}

// Both stores are called in one step each, and a conflict begins again.
#[test]
fn stores_are_called_in_one_step_each(rt: HostRuntime) -> Result<(), Fail> {
    let disk = MemDisk::new(rt.alloc(), Vec::new(rt.alloc()));
    let wanted = (
        ([true; 5], Some(EndReply::Committed(1))),
        ([true; 5], Some(EndReply::Committed(2))),
        (
            ([true; 5], Some(EndReply::Committed(3))),
            [
                Some(Retry::Begun(3)),
                Some(Retry::Ended(EndReply::Committed(4))),
            ],
        ),
    );
    same(&rt, made(&rt, rt.alloc(), disk), Some(wanted));
    Ok(())
}
