//! A value is put under a key, in one transaction on an image file. It is the program of `docs/library.md`.
#![tactic(auto)]

ghost use Rattle.std.specs.Prelude.{IsTrue};
ghost use Rattle.iso_model.specs.Geometry.{is_valid};

use device_calls::{Job, end_now, hash_put, hash_region, with_device};
use file_disk::FileDisk;
use handle_pass::Session;
use iso_disk::{Disk, Image};
use iso_image::image_size;
use iso_model::{EndReply, Geometry, Mode};
use iso_recover::{format_image, open_image};
use iso_shared::Origin;
use kept_disk::Kept;
use std::alloc::Global;
use std::io;
use std::sync::Wait;

/// One transaction of a session: a value is put under a key.
#[derive(Drop)]
struct PutOne;

impl Job for PutOne {
    type Answer = Option<EndReply>;

    ghost says = { λ job start before now reply. Unit {0} };

    fn run<'a, D: Disk + Drop, O: Origin, R: Wait>(
        self,
        rt: &R,
        alloc: Global,
        session: &mut Session<'a, D, O>,
        geometry: &Geometry,
    ) -> Option<EndReply> {
        let region = hash_region(geometry)?;
        session.begin_tx(rt, None).ok()?;
        hash_put(rt, alloc, session, region, b"key", b"value").ok()?;
        end_now(rt, session).ok()
    }
}

/// The numbers of a new image.
#[tactic(auto, unfolding(iso_model::specs::Geometry::is_valid))]
fn numbers() -> Geometry
    ensures { IsTrue (is_valid result) }
{
    Geometry {
        block: 256,
        blocks: 16,
        log: 65_536,
        mode: Mode::Serial,
        hash: 8,
        tree: 0,
        form: 1,
    }
}

/// Does it on a new image, or on the one that is there.
fn put<D: Image + Drop, R: Wait>(rt: &R, alloc: Global, image: D, new: bool) -> Option<EndReply> {
    let (mut image, geometry) = (image, numbers());
    if new {
        image.bind("data.img", Some(image_size(&geometry))).ok()?;
        match format_image(alloc, image, &geometry) {
            Ok(core) => with_device(rt, alloc, core, PutOne).0?,
            Err(_) => None,
        }
    } else {
        image.bind("data.img", None).ok()?;
        match open_image(alloc, image) {
            Ok(core) => with_device(rt, alloc, core, PutOne).0?,
            Err(_) => None,
        }
    }
}

fn main(rt: HostRuntime) -> io::Result<()> {
    let alloc = rt.alloc();
    let Ok(files) = rt.clone() else {
        return println!(rt; "no memory");
    };
    let Ok(more) = rt.clone() else {
        return println!(rt; "no memory");
    };
    let image = Kept::new(alloc, FileDisk::new(files, alloc));
    let first = put(&rt, alloc, image, true);
    let image = Kept::new(alloc, FileDisk::new(more, alloc));
    let second = put(&rt, alloc, image, false);
    println!(rt; "{first:?} {second:?}")
}
