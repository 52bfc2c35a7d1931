// A transfer that is half made.

use handle_pass::Handle;
use iso_disk::Disk;
use iso_shared::Origin;

/// A transaction in which an amount was taken from one account, and what another one is to have with it, which is still to be put there.
pub(crate) struct Half<D: Disk + Drop, O: Origin> {
    pub(crate) handle: Handle<D, O>,
    pub(crate) to: [u8; 8],
    pub(crate) more: u64,
}
