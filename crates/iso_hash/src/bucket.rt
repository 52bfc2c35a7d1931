// The buckets of an area, the one that a key has, and which blocks it has.
ghost use Rattle.std.specs.Prelude.{◌≡◌, ◌<◌, true};
ghost use Rattle.store_model.specs.{HashCalls.is_key, HashRegion.{buckets, bucket_of, last_position, is_linked, IsHashArea}};
ghost use Rattle.iso_hash.specs.Walks.{HasKeys};

use byteorder::{BigEndian, ByteOrder};
use iso_alloc::{are_key_parts, are_zero, piece, word_at};
use sha2::{Digest, Sha256};
use store_model::Area;

/// A key of a hash store, with the bucket that it has there.
#[derive(Drop)]
pub struct HashedKey<'a> {
    pub area: Area,
    pub bytes: &'a [u8],
    pub bucket: u32,
    ghost kind: { IsHashArea area },
    ghost good: { is_key bytes.now ≡ true },
    ghost hashed: { bucket ≡ bucket_of area bytes.now },
    ghost below: { bucket < buckets area },
}

/// How many buckets there are.
pub fn buckets(area: Area) -> u32
    requires { IsHashArea area }
    ensures value { result ≡ buckets area }
    ensures some { 0 < result }
{
    (area.blocks - 1) / 2
}

/// The greatest position in a chain.
pub fn last_position(area: Area) -> u32
    requires { IsHashArea area }
    ensures value { result ≡ last_position area }
    ensures most { result < area.blocks }
{
    area.blocks - 1 - buckets(area)
}

/// The bucket of a key.
#[tactic(auto, unfolding(store_model::specs::HashRegion::bucket_of))]
pub fn bucket_of(area: Area, key: &[u8]) -> u32
    requires { IsHashArea area }
    ensures value { result ≡ bucket_of area key.now }
    ensures below { result < buckets area }
{
    let digest: [u8; 32] = Sha256::digest(key);
    (BigEndian::read_u64(&digest) % buckets(area) as u64) as u32
}

/// Whether a block of which these are head and key parts is well formed at this position of the bucket.
#[tactic(auto, unfolding(store_model::specs::HashRegion::is_linked))]
pub fn is_linked(area: Area, bucket: u32, position: u32, keys: &[u8]) -> bool
    requires { HasKeys area keys.now }
    ensures { result ≡ is_linked area bucket position keys.now }
{
    let expected = if position == 0 { 0 } else { bucket };
    let next = word_at(keys, 0);
    word_at(keys, 4) == expected
        && word_at(keys, 8) == position
        && are_zero(piece(keys, 12, 52))
        && (next == 0
            || (buckets(area) < next && next < area.blocks && position != last_position(area)))
        && are_key_parts(area.size as usize, keys)
}
