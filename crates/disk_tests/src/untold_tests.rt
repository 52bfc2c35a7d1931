// An opaque disk, as a real file: the trait asks of it only sizes, counts and causes.
ghost use Rattle.std.specs.{Prelude.{◌≡◌, ◌^◌, ◌<◌}, Option.option_map};
ghost use Rattle.counts.specs.Count.{HasCause};
ghost use Rattle.iso_disk.specs.Untold.{untold, untold_is_lawful};

use crate::count_tests::same;
use crate::steps::Outcome::{Count, Done, Failed};
use crate::steps::Step::{Bind, Read, Size, Sync, Write};
use crate::steps::{Came, Row, Shown, Step, Steps, image_call, play};
use counts::raise;
use iso_disk::{Disk, DiskFault, Image};
use std::alloc::Global;

// Each call fails and is counted, but for the first `working`.
#[derive(Drop)]
struct Silent {
    alloc: Global,
    name: Option<Vec<u8>>,
    size: u64,
    working: u64,
    faults: u64,
    binds: u64,
    ghost fits: { size < 2 ^ 64 },
}

impl Silent {
    fn answer(&mut self) -> Result<(), DiskFault>
        ensures cause { HasCause self.old.faults self.new.faults result }
        ensures rest { self.new ≡ record self.old { working = self.new.working; faults = self.new.faults } }
    {
        if self.working > 0 {
            self.working -= 1;
            return Ok(());
        }
        raise(&mut self.faults);
        Err(DiskFault)
    }
}

impl Disk for Silent {
    ghost state = { λ d. untold d.size d.faults d.binds (option_map (λ name. name.items) d.name) };

    ghost size_fits = { λ d. d.fits };

    ghost lawful = { λ d. untold_is_lawful d.size d.faults d.binds (option_map (λ name. name.items) d.name) };

    fn size(&self) -> u64 {
        self.size
    }

    fn read(&mut self, _at: u64, _into: &mut [u8]) -> Result<(), DiskFault> {
        self.answer()
    }

    fn write(&mut self, _at: u64, _bytes: &[u8]) -> Result<(), DiskFault> {
        self.answer()
    }

    fn sync(&mut self) -> Result<(), DiskFault> {
        self.answer()
    }
}

impl Image for Silent {
    fn bind(&mut self, name: &str, want: Option<u64>) -> Result<(), DiskFault> {
        raise(&mut self.binds);
        self.name = None;
        self.answer()?;
        match name.as_bytes().to_vec(self.alloc) {
            Ok(bytes) => self.name = Some(bytes),
            Err(_) => {
                raise(&mut self.faults);
                return Err(DiskFault);
            }
        }
        if let Some(size) = want {
            self.size = size;
        }
        Ok(())
    }
}

impl Steps for Silent {
    type Step = Step<'static>;

    fn step(&mut self, _alloc: Global, step: &Step<'static>, shown: &mut Shown) -> Came {
        image_call(self, "t.img", *step, shown)
    }
}

const ROWS: &[Row<'static, Step<'static>>] = &[
    (Bind(Some(8)), Done, &[]),
    (Size, Count(8), &[]),
    (Write(7, &[1]), Done, &[]),
    (Sync, Done, &[]),
    (Read(0, 8), Done, &[9; 8]),
    (Sync, Failed, &[]),
];

#[test]
fn a_disk_that_tells_nothing_counts_its_faults(rt: HostRuntime) {
    let mut disk = Silent {
        alloc: rt.alloc(),
        name: None,
        size: 0,
        working: 4,
        faults: 0,
        binds: 0,
    };
    play(&rt, rt.alloc(), "silent", &mut disk, ROWS);
    same(&rt, (disk.faults, disk.binds), (1, 1));
}
