// How many bytes the parts of versions take in their records.
ghost use Rattle.std.specs.Prelude.{◌≡◌, ◌+◌, ◌^◌, ◌<◌, cond, nat_lt};
ghost use Rattle.mv_index.specs.Weights.{part_bytes_above};

use crate::Version;

/// How many bytes the version's part takes, none if it is not above the number.
fn weight(version: &Version, number: u64) -> u64
    ensures { result ≡ cond (nat_lt number version.now.number) (8 + version.now.len) 0 }
{
    if version.number > number {
        return 8 + u64::from(version.len);
    }
    0
}

/// How many bytes the parts of the versions above the number take.
pub(crate) fn sum_above(versions: &[Version], number: u64) -> u64
    requires { part_bytes_above number versions.now < 2 ^ 64 }
    ensures { result ≡ part_bytes_above number versions.now }
{
    let mut bytes = 0;
    for version in versions {
        bytes += weight(version, number);
    }
    bytes
}
