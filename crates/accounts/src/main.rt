//! A program: threads move amounts between accounts in a shared device's hash store, by themselves, in a group, and half by half. Who
//! hands transactions to a group learns each one's end (`learned`).
//!
//! Where the list began well formed on a known disk, the sum stays after each commit and in each image that opens (`run`, `SumStays`);
//! laws say it of lists (`history`, `images`). Without memory the core is handed back (`unrun`). What is printed is only tested.
#![tactic(auto)]

ghost use Rattle.std.specs.Prelude.{◌≤◌, IsTrue, length};
ghost use Rattle.accounts.specs.Ends.{StartsOn};
ghost use Rattle.device_calls.specs.Beginnings.{BeginsAt};
ghost use Rattle.iso_core.specs.declared.group_end.TheConstants.{MAX_GROUP};
ghost use Rattle.iso_model.specs.{Geometry.is_valid, World.World};

mod account;
mod amounts;
mod bank;
mod call;
mod gathered;
mod half;
mod jobs;
pub mod laws;
mod learning;
mod moving;
mod run;
mod sessions;
mod tellers;
mod threads;
mod told;
mod totals;

use account::{Account, Plan};
use bank::Bank;
use device_calls::{Beginning, beginning_of};
use file_disk::FileDisk;
use iso_core::Core;
use iso_disk::{Disk, Image};
use iso_image::image_size;
use iso_memdisk::MemDisk;
use iso_model::{Geometry, Mode};
use iso_recover::{format_image, open_image};
use iso_shared::Origin;
use kept_disk::Kept;
use run::run_accounts;
use std::alloc::Global;
use std::io;
use std::marker::Brand;
use std::sync::Wait;
use std::thread::Threads;
use told::Told;
use totals::{Sum, sum_on};

/// The name of the image.
const NAME: &str = "accounts.img";

/// The numbers of a new image: a hash store in the first 8 of 16 blocks of 256 bytes.
#[tactic(auto, unfolding(iso_model::specs::Geometry::is_valid))]
fn numbers() -> Geometry
    ensures { IsTrue (is_valid result) }
{
    Geometry {
        block: 256,
        blocks: 16,
        log: 65_536,
        mode: Mode::Serial,
        hash: 8,
        tree: 0,
        form: 1,
    }
}

/// Moves amounts on a device over a core, and hands the disk back with what was told. Without memory nothing is moved or told.
fn moved<D: Disk + Drop + Send, O: Origin + Send + Sync, R: Threads + Wait + Sync>(
    rt: &R,
    alloc: Global,
    core: Core<D>,
    beginning: Beginning,
    plan: &Plan,
) -> (Option<Told>, D)
    requires start { StartsOn D.state O.start O.disk core }
    requires few { length plan.now.handed.now ≤ MAX_GROUP }
{
    let _ = beginning;
    match run_accounts::<D, O, R>(rt, alloc, core, plan) {
        Ok((report, core)) => {
            let told = Told::of(&report, core.stat().last);
            (Some(told), core.into_disk())
        }
        Err((_memory, core)) => (None, core.into_disk()),
    }
}

/// The same over a core that was just made or opened. An image without a hash store has no accounts.
fn move_over<D: Disk + Drop + Send, R: Threads + Wait + Sync>(
    rt: &R,
    alloc: Global,
    core: Core<D>,
    plan: &Plan,
) -> (Option<Told>, D)
    requires start { (W : World) × BeginsAt D.state core W }
    requires few { length plan.now.handed.now ≤ MAX_GROUP }
{
    let beginning = beginning_of(&core);
    if core.geometry().hash == 0 {
        return (None, core.into_disk());
    }
    moved::<D, Brand, R>(rt, alloc, core, beginning, plan)
}

/// The same on the image of this name that is there.
fn moved_again<I: Image + Drop + Send, R: Threads + Wait + Sync>(
    rt: &R,
    alloc: Global,
    image: I,
    name: &str,
    plan: &Plan,
) -> (Option<Told>, I)
    requires few { length plan.now.handed.now ≤ MAX_GROUP }
{
    let mut image = image;
    if let Err(_) = image.bind(name, None) {
        return (None, image);
    }
    match open_image(alloc, image) {
        Ok(core) => move_over(rt, alloc, core, plan),
        Err((_error, image)) => (None, image),
    }
}

/// The same on a new image of this name, or on the one that is there.
fn moved_on<I: Image + Drop + Send, R: Threads + Wait + Sync>(
    rt: &R,
    alloc: Global,
    image: I,
    name: &str,
    plan: &Plan,
) -> (Option<Told>, I)
    requires few { length plan.now.handed.now ≤ MAX_GROUP }
{
    let mut image = image;
    let geometry = numbers();
    if let Err(_) = image.bind(name, Some(image_size(&geometry))) {
        return moved_again(rt, alloc, image, name, plan);
    }
    match format_image(alloc, image, &geometry) {
        Ok(core) => move_over(rt, alloc, core, plan),
        Err((_error, image)) => (None, image),
    }
}

/// Whether each of some images that a crash might leave now opens to no accounts, or to all of them with this sum.
fn opens_to<R: Wait>(
    rt: &R,
    alloc: Global,
    disk: &MemDisk,
    accounts: &[Account],
    sum: u64,
) -> bool {
    for pick in 0..4 {
        let Ok(bytes) = disk.crash(alloc, pick) else {
            return false;
        };
        match sum_on(rt, alloc, MemDisk::new(alloc, bytes), accounts) {
            Some(found) if found.accounts == 0 => {}
            Some(found) if found.accounts == accounts.len() && found.sum == sum => {}
            _ => return false,
        }
    }
    true
}

/// A disk in memory without bytes.
fn blank(alloc: Global) -> MemDisk {
    MemDisk::new(alloc, Vec::new(alloc))
}

/// Whether `opens_to` holds of each disk that stops after 6 to 39 calls.
fn stops_well<R: Threads + Wait + Sync>(rt: &R, alloc: Global, plan: &Plan, sum: u64) -> bool
    requires few { length plan.now.handed.now ≤ MAX_GROUP }
{
    // a new image takes the first six calls
    for calls in 6..40 {
        let mut disk = blank(alloc);
        disk.fuse(calls);
        let (_, disk) = moved_on(rt, alloc, disk, NAME, plan);
        if !opens_to(rt, alloc, &disk, plan.accounts, sum) {
            return false;
        }
    }
    true
}

/// The accounts on the image of this name; none where it does not open.
fn sum_on_image<I: Image + Drop, R: Wait>(
    rt: &R,
    alloc: Global,
    image: I,
    name: &str,
    accounts: &[Account],
) -> Option<Sum> {
    let mut image = image;
    image.bind(name, None).ok()?;
    sum_on(rt, alloc, image, accounts)
}

/// How many accounts were found, and what they have together.
fn shown(found: Option<Sum>) -> (usize, u64) {
    match found {
        Some(sum) => (sum.accounts, sum.sum),
        None => (0, 0),
    }
}

fn main(rt: HostRuntime) -> io::Result<()> {
    let alloc = rt.alloc();
    let bank = Bank::new();
    let plan = bank.plan();
    let (told, disk) = moved_on(&rt, alloc, blank(alloc), NAME, &plan);
    let Some(told) = told else {
        return println!(rt; "no memory");
    };
    let Told {
        first,
        second,
        members,
        made,
        whole,
    } = told;
    println!(rt;
        "transfers of the threads: {first} and {second}; members of the group: {members}, made in it or after a clash: {made}; each commit was told of: {whole}"
    )?;
    let stays = opens_to(&rt, alloc, &disk, plan.accounts, 800);
    let (accounts, sum) = shown(sum_on_image(&rt, alloc, disk, NAME, plan.accounts));
    println!(rt; "in memory: accounts {accounts} sum {sum}, in each image of a crash: {stays}")?;
    let stays = stops_well(&rt, alloc, &plan, 800);
    println!(rt; "on disks that stop: none or sum 800 in each image of a crash: {stays}")?;
    let Ok(files) = rt.clone() else {
        return println!(rt; "no memory");
    };
    let Ok(more) = rt.clone() else {
        return println!(rt; "no memory");
    };
    let image = Kept::new(alloc, FileDisk::new(files, alloc));
    let _ = moved_on(&rt, alloc, image, NAME, &plan);
    let image = Kept::new(alloc, FileDisk::new(more, alloc));
    let (accounts, sum) = shown(sum_on_image(&rt, alloc, image, NAME, plan.accounts));
    println!(rt; "on a file: accounts {accounts} sum {sum}")
}
