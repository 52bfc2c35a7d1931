// Head and key parts of a node: tests, and the places of keys.
ghost use Rattle.std.specs.{Prelude.{◌≡◌, ◌≢◌, ◌-◌, ◌<◌, ◌≤◌, ◌==◌, ◌||◌, ◌&&◌, true, length, IfSome}, Str.bytes_eq};
ghost use Rattle.store_model.specs.{Cells.{cell_count, keys_end, are_key_parts, key_at, word_at}, TreeNodes.{are_cells, before, has_head, has_level, below_from, cell_of, count_of, is_node, place_of}};
ghost use Rattle.iso_tree.specs.Sizes.{AreHeadAndKeys, AreKeysOf, HasKeyParts, IsBelow, IsWithin};

use iso_alloc::{are_zero, cell_count, is_key_part, key_part, piece, text_of, word_at};

/// Head and key parts of a node's block, which are well formed.
#[derive(Clone, Copy)]
pub struct Keys<'a> {
    pub size: usize,
    pub bytes: &'a [u8],
    ghost least: { 256 ≤ size },
    ghost long: { length bytes.now ≡ keys_end size },
    ghost parts: { are_key_parts size bytes.now ≡ true },
    ghost few: { count_of bytes.now ≤ cell_count size },
}

impl<'a> Keys<'a> {
    /// Head and key parts of a block.
    pub fn of(size: usize, block: &'a [u8]) -> Keys<'a>
        requires { HasKeyParts size block.now }
        ensures { AreKeysOf size block.now result.size result.bytes.now }
    {
        Keys {
            size,
            bytes: piece(block, 0, 64 + 31 * cell_count(size)),
        }
    }
}

// Whether a key is before another, by the number of the first four bytes of each.
fn word_before(x: &[u8], y: &[u8]) -> bool
    requires x { 4 ≤ length x.now }
    requires y { 4 ≤ length y.now }
    requires differ { word_at 0 x.now ≢ word_at 0 y.now }
    ensures { result ≡ before x.now y.now }
{
    word_at(x, 0) < word_at(y, 0)
}

/// Whether a key is before another in byte order. Most of two differ in their first four bytes, which are compared as one number.
pub fn is_before(x: &[u8], y: &[u8]) -> bool
    ensures { result ≡ before x.now y.now }
{
    if 4 <= x.len() && 4 <= y.len() && word_at(x, 0) != word_at(y, 0) {
        return word_before(x, y);
    }
    x.cmp(y).is_lt()
}

// Whether two keys are the same. Most of two differ in length or in their last byte.
fn are_same(x: &[u8], y: &[u8]) -> bool
    ensures { result ≡ bytes_eq x.now y.now }
{
    let len = x.len();
    if len != y.len() || (len != 0 && x[len - 1] != y[len - 1]) {
        return false;
    }
    x == y
}

/// How many cells are used.
pub fn count_of(keys: &[u8]) -> usize
    requires { 64 ≤ length keys.now }
    ensures { result ≡ count_of keys.now }
{
    256 * keys[2] as usize + keys[3] as usize
}

/// The key of a cell.
pub fn key_of<'a>(keys: &Keys<'a>, cell: usize) -> &'a [u8]
    requires { cell < cell_count keys.now.size }
    ensures { result.now ≡ key_at keys.now.bytes.now cell }
{
    text_of(key_part(keys.bytes, cell))
}

// Whether a node that is well formed else may have this level.
fn has_level(level: u8, keys: &Keys, count: usize) -> bool
    ensures { result ≡ has_level keys.now.size level keys.now.bytes.now count }
{
    (level == 0 || (2 <= count && key_of(keys, 0).is_empty()))
        && (level != 31 || count < cell_count(keys.size))
}

// Whether the head is that of a node of this level.
fn has_head(size: usize, level: u8, keys: &[u8]) -> bool
    requires { AreHeadAndKeys size keys.now }
    ensures { result ≡ has_head size level keys.now }
{
    keys[0] == 1
        && keys[1] == level
        && are_zero(piece(keys, 4, 60))
        && count_of(keys) <= cell_count(size)
}

// Whether the keys of two cells in a row rise, where there is one before the second.
fn may_follow(last: &[u8], key: &[u8], cell: usize) -> bool
    ensures { result ≡ ((cell == 0) || before last.now key.now) }
{
    cell == 0 || is_before(last, key)
}

// Whether all key parts are well formed, those of the first `count` cells with keys that rise, and the others are not used, which
// are zeros throughout.
fn are_cells(size: usize, keys: &[u8], count: usize) -> bool
    requires keys { AreHeadAndKeys size keys.now }
    requires count { count ≤ cell_count size }
    ensures { result ≡ (are_key_parts size keys.now && are_cells size keys.now count) }
{
    let mut last: &[u8] = b"";
    for cell in 0..count {
        if !is_key_part(keys, cell) {
            return false;
        }
        let key = text_of(key_part(keys, cell));
        if !may_follow(last, key, cell) {
            return false;
        }
        last = key;
    }
    let others = cell_count(size) - count;
    are_zero(piece(keys, 64 + 31 * count, 31 * others))
}

/// Whether head and key parts are those of a node of this level.
#[tactic(auto, unfolding(store_model::specs::TreeNodes::is_node))]
pub fn is_node(size: usize, level: u8, keys: &[u8]) -> bool
    requires { AreHeadAndKeys size keys.now }
    ensures { result ≡ is_node size level keys.now }
{
    if !has_head(size, level, keys) {
        return false;
    }
    let count = count_of(keys);
    if !are_cells(size, keys, count) {
        return false;
    }
    has_level(
        level,
        &Keys {
            size,
            bytes: &*keys,
        },
        count,
    )
}

/// The used cell that has the key.
pub fn cell_of(key: &[u8], keys: &Keys) -> Option<usize>
    ensures value { result ≡ cell_of key.now keys.now.bytes.now }
    ensures below { IfSome result (λ cell. cell < count_of keys.now.bytes.now) }
{
    for cell in 0..count_of(keys.bytes) {
        if are_same(key_of(keys, cell), key) {
            return Some(cell);
        }
    }
    None
}

/// How many cells have a key before this one.
pub fn below(key: &[u8], keys: &Keys, first: usize) -> usize
    requires { first ≤ count_of keys.now.bytes.now }
    ensures { IsWithin result (below_from key.now keys.now.bytes.now first (count_of keys.now.bytes.now - first)) (count_of keys.now.bytes.now - first) }
{
    let count = count_of(keys.bytes);
    for cell in first..count {
        if !is_before(key_of(keys, cell), key) {
            return cell - first;
        }
    }
    count - first
}

/// The last cell whose key is at most this one, the first cell where there is none.
pub fn place_of(key: &[u8], keys: &Keys) -> usize
    requires { 0 < count_of keys.now.bytes.now }
    ensures { IsBelow result (place_of key.now keys.now.bytes.now) (count_of keys.now.bytes.now) }
{
    let count = count_of(keys.bytes);
    for cell in 1..count {
        if is_before(key, key_of(keys, cell)) {
            return cell - 1;
        }
    }
    count - 1
}
