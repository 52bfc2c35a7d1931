// The file block of a name.
ghost use Rattle.store_model.specs.FileCalls.{with_file};
ghost use Rattle.iso_fs.specs.{Ends.{Across, HasBuffer}, Finds.{find_program, found_file, HasFound}};

use crate::file::{is_file, number_of};
use crate::names::{FileName, value_of};
use std::alloc::Global;
use store_model::{FileAreas, FsError, StoreError};
use tx_blocks::{TxBlocks, look_whole};

// Reads and tests the file block that a value of the tree names.
fn look_value<T: TxBlocks>(
    tx: &mut T,
    a: FileAreas,
    value: &[u8],
    file: &mut [u8],
) -> Result<Option<u32>, FsError>
    requires { HasBuffer (T.state tx.old) a.files file.old }
    ensures { Across T.state T.device tx.old tx.new (HasFound a.files (with_file a found_file value.now)) file.new result }
{
    let area = a.files;
    let Some(number) = number_of(area, value) else {
        return Err(FsError::Store(StoreError::Broken {
            block: a.tree.start,
        }));
    };
    if let Err(e) = look_whole(tx, area.start + number, file) {
        return Err(FsError::Store(StoreError::Tx(e)));
    }
    if !is_file(area, file) {
        return Err(FsError::Store(StoreError::Broken {
            block: area.start + number,
        }));
    }
    Ok(Some(number))
}

/// The number of the file block of a name, whose bytes are put into `file`; none where the name has no file. It writes
/// nothing.
///
/// # Errors
///
/// - `Store(Broken)`: the tree answers it, its value names no file block, or that is not well formed.
/// - `Store`, else: the tree or the transaction refuses.
pub fn find<T: TxBlocks>(
    alloc: Global,
    tx: &mut T,
    name: &FileName,
    file: &mut [u8],
) -> Result<Option<u32>, FsError>
    requires { HasBuffer (T.state tx.old) name.now.areas.files file.old }
    ensures { Across T.state T.device tx.old tx.new (HasFound name.now.areas.files (find_program name.now.areas name.now.bytes.now)) file.new result }
{
    match value_of(alloc, tx, name.areas.tree, name.bytes) {
        Ok(Some(value)) => look_value(tx, name.areas, value.as_slice(), file),
        Ok(None) => Ok(None),
        Err(e) => Err(FsError::Store(e)),
    }
}
