// Why two sides are not taken for a mirror.

/// Why two sides are not taken for a mirror.
#[derive(Clone, Copy, Debug, PartialEq, Eq)]
pub enum MirrorError {
    /// This side, 0 or 1, has no header of a mirror.
    NotMirror { side: u8 },
    /// The sides differ in size.
    SizesDiffer { first: u64, second: u64 },
    /// A side failed.
    Disk,
}
