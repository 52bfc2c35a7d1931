// A small image. It has four blocks of 64 bytes and logs of 256 bytes, so 1,152 bytes: half 0 begins at 64 and its log at
// 352, half 1 at 608 and its log at 896.
use std::alloc::{AllocError, Global};

/// Puts bytes in the place of those from `at` on.
pub fn change(image: &mut Vec<u8>, at: usize, bytes: &[u8]) {
    for (i, byte) in bytes.iter().enumerate() {
        if let Some(place) = image.get_mut(at.saturating_add(i)) {
            *place = *byte;
        }
    }
}

/// `count` bytes of an image from `at` on, or none where it has fewer.
pub fn part(image: &[u8], at: usize, count: usize) -> &[u8] {
    match image.get(at..at.saturating_add(count)) {
        Some(part) => part,
        None => &[],
    }
}

/// A small image without commits.
///
/// # Errors
///
/// Want of memory.
pub fn small_image(alloc: Global) -> Result<Vec<u8>, AllocError> {
    let mut image = vec![in alloc; 0; 1152]?;
    change(&mut image, 0, b"ISOTOPE1");
    change(&mut image, 11, &[1]);
    change(&mut image, 15, &[64]);
    change(&mut image, 19, &[4]);
    change(&mut image, 22, &[1]);
    change(&mut image, 63, &[1]);
    change(&mut image, 64, &[1, 1]);
    change(&mut image, 79, &[1]);
    Ok(image)
}
