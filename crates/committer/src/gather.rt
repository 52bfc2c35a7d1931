// How long whoever serves the desks waits for requests that may soon come. No contract speaks of it.
use crate::desk::Desk;
use crate::ends::{Ends, OfDevice};
use iso_disk::Disk;
use iso_shared::Origin;
use std::thread;

// It has no clock, so it counts looks, between which it lets other threads run. After so many in a row that find no new request it waits
// no longer: while there are fewer requests than at the last time, and from then on.
const MOST_LOOKS: u32 = 400;

const MOST_LOOKS_FOR_MORE: u32 = 64;

/// At how many of these desks something is handed in.
pub(crate) fn requests<D: Disk + Drop, O: Origin, P: OfDevice<D, O>>(
    desks: &[Desk<Ends<D, O, P>>],
) -> usize {
    let mut count: usize = 0;
    for desk in desks {
        if desk.is_requested() {
            count = count.saturating_add(1);
        }
    }
    count
}

/// Waits until as many have handed in at these desks as at the last time, and then for more while they come. Who hands in has met another
/// one, so two are waited for at least. Answers how many have.
pub(crate) fn gather<D: Disk + Drop, O: Origin, P: OfDevice<D, O>>(
    desks: &[Desk<Ends<D, O, P>>],
    last: usize,
) -> usize {
    let mut count = requests(desks);
    // each turn but the last finds one more at least
    for _ in desks {
        let found = look_for_more(desks, last.max(2), count);
        if found <= count {
            break;
        }
        count = found;
    }
    count
}

// Looks until more than these have handed in, but not for ever, nor where all have. Answers how many have.
fn look_for_more<D: Disk + Drop, O: Origin, P: OfDevice<D, O>>(
    desks: &[Desk<Ends<D, O, P>>],
    last: usize,
    count: usize,
) -> usize {
    let looks = if count >= desks.len() {
        0
    } else if count < last {
        MOST_LOOKS
    } else {
        MOST_LOOKS_FOR_MORE
    };
    for _ in 0..looks {
        thread::yield_now();
        let found = requests(desks);
        if found > count {
            return found;
        }
    }
    count
}
