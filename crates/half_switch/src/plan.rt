// What a new half is to be, and why it was not filled.

use iso_model::Geometry;

/// What the new half is to be: the geometry has its form, `generation` and `base` are its numbers. `old_base` is the base
/// number of the half that it is filled from, and `used` says how many bytes that half's records take.
#[derive(Clone, Copy)]
pub struct FillPlan {
    pub geometry: Geometry,
    pub generation: u64,
    pub old_base: u64,
    pub base: u64,
    pub used: u32,
}

/// Why a half was not filled.
#[derive(Clone, Copy, Debug, PartialEq, Eq)]
pub enum SwitchError {
    /// A call of the disk failed. The disk may have any bytes after the gate of the new half, which is closed.
    Disk,
    /// Memory ran out, before the first call of the disk.
    Memory,
}
