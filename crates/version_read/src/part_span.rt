// A part of a record without its bytes.

/// A part of a record: which bytes of which block it has.
#[derive(Clone, Copy)]
pub struct PartSpan {
    pub block: u32,
    pub off: u16,
    pub len: u16,
}
