// A stretch of bytes of a block, as a set of bytes keeps it.

/// The bytes of a block from `from` on, up to the one before `to`.
#[derive(Clone, Copy, Default)]
pub struct Extent {
    pub from: u16,
    pub to: u16,
}
