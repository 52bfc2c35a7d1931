// What a node gets.
ghost use Rattle.std.specs.Prelude.{◌≤◌, length};

/// A key with its value, as a cell of a node has them: in a leaf the value that was put, in an inner node the four bytes of a block.
#[derive(Drop)]
pub struct Entry<'a> {
    pub key: &'a [u8],
    pub value: &'a [u8],
    ghost short: { length key.now ≤ 28 },
    ghost fits: { length value.now ≤ 32 },
}
