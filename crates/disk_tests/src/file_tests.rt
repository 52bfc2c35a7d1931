// The file disk over a real file: its bytes, its length, and its faults after each answer. And what no clause can say of it: a file that was
// let go, one that was cut, a disk that was never bound, and which names are free.
use crate::steps::Outcome::{self, Count, Done, Failed, Is};
use crate::steps::Step::{self, Bind, Read, Size, Sync, TryRead, Write};
use crate::steps::{Came, Row, Shown, Steps, image_call, outcome_of, play};
use file_disk::FileDisk;
use iso_disk::{Image, Lookup};
use std::alloc::{Allocator, Global};
use std::fs::{self, File, Metadata, OpenOptions};
use std::io;
use std::os::unix::fs::symlink;
use std::process::Abort;
use std::rt::Files;

/// The files of the system, but for the folder here, which cannot be opened.
#[derive(Drop)]
struct WithoutFolder<'a, R> {
    rt: &'a R,
}

impl<R: Files<File = File>> Files for WithoutFolder<'_, R> {
    type File = File;

    type Dir = R::Dir;

    fn open_file(&self, how: &OpenOptions, path: &str) -> io::Result<File> {
        if path == "." {
            return Err(io::Error::from(io::ErrorKind::PermissionDenied));
        }
        self.rt.open_file(how, path)
    }

    fn open_dir(&self, path: &str) -> io::Result<R::Dir> {
        self.rt.open_dir(path)
    }

    fn metadata(&self, path: &str) -> io::Result<Metadata> {
        self.rt.metadata(path)
    }

    fn symlink_metadata(&self, path: &str) -> io::Result<Metadata> {
        self.rt.symlink_metadata(path)
    }

    fn copy(&self, from: &str, to: &str) -> io::Result<u64> {
        self.rt.copy(from, to)
    }

    fn rename(&self, from: &str, to: &str) -> io::Result<()> {
        self.rt.rename(from, to)
    }

    fn remove_file(&self, path: &str) -> io::Result<()> {
        self.rt.remove_file(path)
    }

    fn create_dir(&self, path: &str) -> io::Result<()> {
        self.rt.create_dir(path)
    }

    fn remove_dir(&self, path: &str) -> io::Result<()> {
        self.rt.remove_dir(path)
    }

    fn remove_dir_all<B: Allocator>(&self, alloc: B, path: &str) -> io::Result<()> {
        self.rt.remove_dir_all(alloc, path)
    }
}

/// One thing that is done with the file of a name.
#[derive(Clone, Copy)]
enum OfFile<'a> {
    /// How many bytes the file has.
    Length,
    /// Makes the file, or replaces it by one, of these bytes.
    Make(&'a [u8]),
    Remove,
    MakeFolder,
    RemoveFolder,
    /// Makes a link to a name that no file has.
    Link,
}

use OfFile::{Length, Link, Make, MakeFolder, Remove, RemoveFolder};

/// One thing that is done with a disk or with the file of its name.
#[derive(Clone, Copy)]
enum FileStep<'a> {
    Disk(Step<'a>),
    OnName(OfFile<'a>),
    /// Binds a name that no file has.
    BindNone,
    /// How often the disk has failed.
    Faults,
    /// Whether the disk finds the name free.
    IsFree,
}

use FileStep::{BindNone, Disk, Faults, IsFree, OnName};

/// A name that no file has.
const NONE: &str = "no_file_has_this_name.img";

/// A disk, and the files of the system.
#[derive(Drop)]
struct OnFile<'a, F, R: Files<File = File>> {
    files: &'a F,
    name: &'a str,
    disk: FileDisk<&'a R>,
}

impl<F: Files<File = File>, R: Files<File = File>> Steps for OnFile<'_, F, R> {
    type Step = FileStep<'static>;

    fn step(&mut self, _alloc: Global, step: &FileStep<'static>, shown: &mut Shown) -> Came {
        let found = match *step {
            Disk(step) => return image_call(&mut self.disk, self.name, step, shown),
            BindNone => outcome_of(self.disk.bind(NONE, None).is_ok()),
            Faults => Count(self.disk.faults()),
            IsFree => Is(self.disk.is_free(self.name)),
            OnName(step) => with_file(self.files, self.name, step),
        };
        (found, 0)
    }
}

/// Does a step with the file of a name.
fn with_file<F: Files<File = File>>(files: &F, name: &str, step: OfFile<'_>) -> Outcome {
    match step {
        Length => match fs::metadata(files, name) {
            Ok(found) => Count(found.len()),
            Err(_) => Failed,
        },
        Make(bytes) => outcome_of(fs::write(files, name, bytes).is_ok()),
        Remove => outcome_of(fs::remove_file(files, name).is_ok()),
        MakeFolder => outcome_of(fs::create_dir(files, name).is_ok()),
        RemoveFolder => outcome_of(fs::remove_dir(files, name).is_ok()),
        Link => outcome_of(symlink(files, NONE, name).is_ok()),
    }
}

/// What is done with a first disk of a name, then with a second one beside it, and then with the second one once the first is gone.
struct Rows<'a> {
    first: &'a [Row<'a, FileStep<'static>>],
    beside: &'a [Row<'a, FileStep<'static>>],
    behind: &'a [Row<'a, FileStep<'static>>],
}

/// Does these steps with two disks over `own`. The name is of no file before.
fn play_two<F: Files<File = File>, R: Files<File = File>>(
    rt: &impl Abort,
    alloc: Global,
    files: &F,
    own: &R,
    name: &str,
    rows: &Rows<'_>,
) {
    let _ = fs::remove_file(files, name);
    let mut second = OnFile {
        files,
        name,
        disk: FileDisk::new(own, alloc),
    };
    {
        let mut first = OnFile {
            files,
            name,
            disk: FileDisk::new(own, alloc),
        };
        play(rt, alloc, name, &mut first, rows.first);
        play(rt, alloc, name, &mut second, rows.beside);
    }
    play(rt, alloc, name, &mut second, rows.behind);
}

const TABLES: &[(&str, Rows<'static>)] = &[
    (
        "a_file_keeps_what_was_written.img",
        Rows {
            first: &[
                (Disk(Bind(Some(5000))), Done, &[]),
                (Disk(Size), Count(5000), &[]),
                (OnName(Length), Count(5000), &[]),
                (
                    Disk(Write(4990, &[1, 2, 3, 4, 5, 6, 7, 8, 9, 10])),
                    Done,
                    &[],
                ),
                (Disk(Sync), Done, &[]),
                (
                    Disk(Read(4988, 12)),
                    Done,
                    &[0, 0, 1, 2, 3, 4, 5, 6, 7, 8, 9, 10],
                ),
                (OnName(Length), Count(5000), &[]),
                (Faults, Count(0), &[]),
            ],
            // While the file is bound no other disk has it.
            beside: &[(Disk(Bind(None)), Failed, &[]), (Faults, Count(1), &[])],
            behind: &[
                (Disk(Bind(None)), Done, &[]),
                (Disk(Size), Count(5000), &[]),
                (Disk(Read(4989, 3)), Done, &[0, 1, 2]),
                (Faults, Count(1), &[]),
                (OnName(Remove), Done, &[]),
            ],
        },
    ),
    (
        "a_name_that_exists_is_not_made_again.img",
        Rows {
            first: &[
                (OnName(Make(&[1, 2, 3])), Done, &[]),
                (Disk(Bind(Some(8))), Failed, &[]),
                (Faults, Count(1), &[]),
                (OnName(Length), Count(3), &[]),
                (OnName(Remove), Done, &[]),
            ],
            beside: &[],
            behind: &[],
        },
    ),
    // A name is free until a file, a folder or a link has it, and a look at it makes nothing.
    (
        "a_name_that_something_has_is_not_free.img",
        Rows {
            first: &[
                (IsFree, Is(true), &[]),
                (IsFree, Is(true), &[]),
                (OnName(Make(&[1, 2, 3])), Done, &[]),
                (IsFree, Is(false), &[]),
                (OnName(Remove), Done, &[]),
                (OnName(MakeFolder), Done, &[]),
                (IsFree, Is(false), &[]),
                (OnName(RemoveFolder), Done, &[]),
                (OnName(Link), Done, &[]),
                (IsFree, Is(false), &[]),
                (OnName(Remove), Done, &[]),
                (IsFree, Is(true), &[]),
            ],
            beside: &[],
            behind: &[],
        },
    ),
    (
        "zeros_go_on_behind_the_first_piece.img",
        Rows {
            first: &[
                (Disk(Bind(Some(70_000))), Done, &[]),
                (OnName(Length), Count(70_000), &[]),
                (Disk(Read(69_998, 2)), Done, &[0, 0]),
                (Faults, Count(0), &[]),
                (OnName(Remove), Done, &[]),
            ],
            beside: &[],
            behind: &[],
        },
    ),
    // After a bind that failed each call fails, though the disk has the size that it had; and the last file is free again, as it was,
    // while the disk is there.
    (
        "a_bind_that_fails_lets_the_last_file_go.img",
        Rows {
            first: &[
                (Disk(Bind(Some(8))), Done, &[]),
                (Disk(Size), Count(8), &[]),
                (BindNone, Failed, &[]),
                (Disk(Size), Count(8), &[]),
                (Disk(Read(0, 4)), Failed, &[9; 4]),
                (Disk(Write(0, &[1, 2, 3, 4])), Failed, &[]),
                (Disk(Sync), Failed, &[]),
                (Faults, Count(4), &[]),
            ],
            beside: &[
                (Disk(Bind(None)), Done, &[]),
                (Disk(Size), Count(8), &[]),
                (Disk(Read(0, 8)), Done, &[0; 8]),
                (OnName(Remove), Done, &[]),
            ],
            behind: &[],
        },
    ),
    // A disk that was never bound has no bytes, so it is asked for none; and each call is a fault.
    (
        "a_disk_that_was_never_bound_fails.img",
        Rows {
            first: &[
                (Disk(Read(0, 0)), Failed, &[]),
                (Disk(Write(0, &[])), Failed, &[]),
                (Disk(Sync), Failed, &[]),
                (Faults, Count(3), &[]),
            ],
            beside: &[],
            behind: &[],
        },
    ),
    // A read that meets the end of a file that somebody cut is a fault, and one before it is none.
    (
        "a_read_past_the_end_of_a_file_that_was_cut_fails.img",
        Rows {
            first: &[
                (Disk(Bind(Some(8))), Done, &[]),
                (Disk(Size), Count(8), &[]),
                (OnName(Make(&[1, 2, 3, 4])), Done, &[]),
                (Disk(Read(0, 4)), Done, &[1, 2, 3, 4]),
                (Disk(TryRead(2, 4)), Failed, &[]),
                (Disk(TryRead(4, 4)), Failed, &[]),
                (Faults, Count(2), &[]),
                (OnName(Remove), Done, &[]),
            ],
            beside: &[],
            behind: &[],
        },
    ),
];

#[test]
fn a_disk_over_a_file(rt: HostRuntime) {
    for (name, rows) in TABLES {
        play_two(&rt, rt.alloc(), &rt, &rt, name, rows);
    }
}

const HALF_WAY: Rows<'static> = Rows {
    first: &[
        (Disk(Bind(Some(8))), Failed, &[]),
        (Faults, Count(1), &[]),
        (Disk(Sync), Failed, &[]),
        (Faults, Count(2), &[]),
        (OnName(Length), Failed, &[]),
    ],
    beside: &[],
    behind: &[],
};

#[test]
fn a_bind_that_fails_half_way_leaves_no_file(rt: HostRuntime) {
    let name = "a_bind_that_fails_half_way_leaves_no_file.img";
    let own = WithoutFolder { rt: &rt };
    play_two(&rt, rt.alloc(), &rt, &own, name, &HALF_WAY);
}
