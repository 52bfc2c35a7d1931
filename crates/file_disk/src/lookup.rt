// Whether a file has a name.

use crate::file_disk::FileDisk;
use iso_disk::Lookup;
use std::fs::{self, File};
use std::io;
use std::rt::Files;

impl<R: Files<File = File> + Drop> Lookup for FileDisk<R> {
    ghost seen = { λ disk name free. Unit {0} };

    // A link to a file that is gone has its name too. Nothing is opened and no lock is taken, so a file is seen also where it is in use
    // or may not be read. False as well where the system does not say that there is none.
    fn is_free(&self, name: &str) -> bool {
        match fs::symlink_metadata(&self.rt, name) {
            Ok(_) => false,
            Err(error) => error.kind() == io::ErrorKind::NotFound,
        }
    }
}
