// What a crash leaves of a disk, or of the two sides of a mirror.
use crate::disks::{Images, Side, Sides};
use crate::text::Trouble;
use std::alloc::Global;

/// Images of both sides that a crash leaves for a pick.
#[derive(Clone, Copy)]
pub(crate) struct Left<'a> {
    pub(crate) pick: u64,
    pub(crate) images: Images<'a>,
}

/// How many picks are made of what a call leaves: of a mirror four of each side, and else this many.
pub(crate) fn picks_of(is_mirror: bool, picks: u64) -> u64 {
    if is_mirror { 4 } else { picks }
}

/// Whether one of these images has these bytes.
fn is_among(bytes: &[u8], images: &[&[u8]]) -> bool {
    for image in images {
        if *image == bytes {
            return true;
        }
    }
    false
}

/// The images of a side, each of them once.
fn unlike_images<'a>(
    alloc: Global,
    left: &'a [Sides],
    side: Side,
) -> Result<Vec<&'a [u8]>, Trouble> {
    let mut images = Vec::new(alloc);
    for sides in left {
        let image = sides.of(side).as_slice();
        if !is_among(image, &images) {
            images.push(image)?;
        }
    }
    Ok(images)
}

/// Adds the images of two sides, each of the one with each of the other.
fn push_pairs<'a>(
    all: &mut Vec<Left<'a>>,
    firsts: &[&'a [u8]],
    seconds: &[&'a [u8]],
) -> Result<(), Trouble> {
    for first in firsts {
        for second in seconds {
            let images = Images {
                first: *first,
                second: *second,
            };
            all.push(Left { pick: 2, images })?;
        }
    }
    Ok(())
}

/// Adds the images of each pick.
fn push_picks<'a>(all: &mut Vec<Left<'a>>, left: &'a [Sides]) -> Result<(), Trouble> {
    let mut pick = 0u64;
    for sides in left {
        let images = sides.lent();
        all.push(Left { pick, images })?;
        pick = pick.saturating_add(1);
    }
    Ok(())
}

/// What a crash leaves of a disk, pick by pick, or of two sides, each image of the one with each of the other.
pub(crate) fn left_of<'a>(
    alloc: Global,
    left: &'a [Sides],
    is_mirror: bool,
) -> Result<Vec<Left<'a>>, Trouble> {
    let mut all = Vec::new(alloc);
    if !is_mirror {
        push_picks(&mut all, left)?;
        return Ok(all);
    }
    let firsts = unlike_images(alloc, left, Side::First)?;
    let seconds = unlike_images(alloc, left, Side::Second)?;
    push_pairs(&mut all, &firsts, &seconds)?;
    Ok(all)
}
