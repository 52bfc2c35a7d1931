// The file store, as the laws take stores.
ghost use Rattle.std.specs.Prelude.{◌≡◌};
ghost use Rattle.store_model.specs.FileRegion.{AreFileAreas};
ghost use Rattle.store_laws.specs.{Files.file_store, FileBlocks.files_are_of_their_blocks};

use crate::RegionStore;
use store_model::FileAreas;

/// Where a file store is.
#[derive(Clone, Copy)]
pub struct FileStore {
    pub areas: FileAreas,
    ghost are_areas: { AreFileAreas areas },
}

impl FileStore {
    /// The file store of these areas.
    pub fn new(areas: FileAreas) -> FileStore
        requires { AreFileAreas areas }
        ensures { result.areas ≡ areas }
    {
        FileStore { areas }
    }
}

impl RegionStore for FileStore {
    ghost store = { λ s. file_store s.areas };

    ghost regional = { λ s. files_are_of_their_blocks s.areas s.are_areas };
}
