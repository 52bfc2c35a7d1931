// One part of one record.

/// One part of the record of a commit: the commit's number, where the part's bytes are in the image, and which bytes of
/// its block they are.
#[derive(Clone, Copy, Debug, PartialEq, Eq)]
pub struct Version {
    pub number: u64,
    pub place: u64,
    pub off: u16,
    pub len: u16,
}
