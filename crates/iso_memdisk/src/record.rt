// What was called since a disk was made or bound, and what it comes to.
ghost use Rattle.std.specs.Prelude.{◌≡◌, ◌+◌, ◌≤◌, ℕ, List, length, take, drop};
ghost use Rattle.iso_disk.specs.Disk.{spliced, Torn};
ghost use Rattle.iso_memdisk.specs.Record.{written, synced, images_after, AllFit, NoSync, TornBy};

use crate::draws::Draws;

/// A call that was done.
#[derive(Debug, Drop)]
pub enum Call {
    Write { at: usize, bytes: Vec<u8> },
    Sync,
}

/// Puts bytes in the place of those from `at` on.
pub fn lay(image: &mut [u8], at: usize, bytes: &[u8])
    requires { at + length bytes.now ≤ length image.old }
    ensures { image.new ≡ spliced image.old at bytes.now }
{
    image[at..at + bytes.len()].copy_from_slice(bytes);
}

/// Puts drawn bytes in the place of `len` bytes from `at` on.
fn scribble(image: &mut [u8], at: usize, len: usize, draws: &mut Draws)
    requires { at + len ≤ length image.old }
    ensures { Torn at len image.old image.new }
{
    for byte in image[at..at + len].iter_mut() {
        *byte = draws.next();
    }
}

/// How many calls there are up to the last sync.
fn stable_calls(calls: &[Call]) -> usize
    ensures within { result ≤ length calls.now }
    ensures synced { (bytes : List ℕ) → synced calls.now bytes bytes ≡ written (take result calls.now) bytes }
    ensures pending { NoSync (drop result calls.now) }
{
    let mut stable = 0;
    for (i, call) in calls.iter().enumerate() {
        if let Call::Sync = call {
            stable = i + 1;
        }
    }
    stable
}

/// Makes of an image what a read gives after these calls.
fn replay(image: &mut [u8], calls: &[Call])
    requires { AllFit (length image.old) calls.now }
    ensures { image.new ≡ written calls.now image.old }
{
    for call in calls {
        if let Call::Write { at, bytes } = call {
            lay(image, *at, bytes);
        }
    }
}

/// Makes of an image what a crash may leave after these writes: the old bytes for 0, the new ones for 1, else drawn ones.
fn tear(image: &mut [u8], calls: &[Call], pick: u64)
    requires fits { AllFit (length image.old) calls.now }
    requires pending { NoSync calls.now }
    ensures torn { TornBy calls.now image.old image.new }
    ensures synced { pick ≡ 0 → image.new ≡ image.old }
    ensures written { pick ≡ 1 → image.new ≡ written calls.now image.old }
{
    let mut draws = Draws::new(pick);
    for call in calls {
        if let Call::Write { at, bytes } = call {
            match pick {
                0 => {}
                1 => lay(image, *at, bytes),
                _ => scribble(image, *at, bytes.len(), &mut draws),
            }
        }
    }
}

/// Makes of the first bytes what a crash may leave after all these calls. What was written since the last sync has its
/// value from before for pick 0, the written one for 1, and a drawn one else.
pub fn crash(image: &mut [u8], calls: &[Call], pick: u64)
    requires { AllFit (length image.old) calls.now }
    ensures image { images_after calls.now image.old (λ c. c ≡ image.old) image.new }
    ensures synced { pick ≡ 0 → image.new ≡ synced calls.now image.old image.old }
    ensures written { pick ≡ 1 → image.new ≡ written calls.now image.old }
{
    let stable = stable_calls(calls);
    replay(image, &calls[..stable]);
    tear(image, &calls[stable..], pick);
}
