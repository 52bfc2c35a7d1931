// A script without an end: its bytes are read up to the limit, and then the line is named at which it was cut.
ghost use Rattle.std.specs.Prelude.{None, false};

use crate::asked::gave;
use iso_io::{Source, SourceFault};
use iso_memdisk::MemDisk;
use std::test::Fail;
use top_calls::{Open, SMALL, gated, whole_sink};

/// How long a line is with its line feed: as many of these as are read are whole lines.
const LINE: usize = 16_384;

/// Lines of comments, one after the other. As a source it is opaque.
#[derive(Drop)]
struct Comments {
    /// How many bytes come before the next line feed.
    left: usize,
}

impl Source for Comments {
    ghost state = { λ _. record { rest = None; is_ended = false; faults = 0 } };

    fn take(&mut self, into: &mut [u8]) -> Result<usize, SourceFault> {
        if self.left == 0 {
            let Some(first) = into.first_mut() else {
                return Ok(0);
            };
            *first = b'\n';
            self.left = LINE - 1;
            return Ok(1);
        }
        let given = self.left.min(into.len());
        into[..given].fill(b'#');
        self.left -= given;
        Ok(given)
    }
}

#[test]
fn a_script_is_cut_where_it_is_too_long(rt: HostRuntime) -> Result<(), Fail> {
    let alloc = rt.alloc();
    let mut comments = Comments { left: LINE - 1 };
    let disk = MemDisk::new(alloc, Vec::new(alloc));
    let sink = whole_sink(alloc);
    let (status, output, _disk) = gated(&rt, alloc, SMALL, disk, &mut comments, sink, &Open)?;
    gave(&rt, (status, &output), 3, b"! bad line 262145 cause 9\n");
    Ok(())
}
