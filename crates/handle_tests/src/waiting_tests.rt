// Transactions of one thread that wait at three desks at one time. Who asks first serves all, so the group is the same in each run.

use crate::hall::{Clients, Hall, Play, played};
use crate::same::same;
use crate::waiting::{Told, hand, told};
use committer::OfDevice;
use iso_memdisk::MemDisk;
use iso_model::{Clash, CoreError, GroupReply};
use iso_shared::{Origin, Port};
use std::process::Abort;
use std::sync::Wait;
use std::test::Fail;
use test_cores::with_long_logs;

/// Three transactions, of which the second may have read what the first one writes. They are asked for in another order.
#[derive(Drop)]
struct Three {
    second_reads: bool,
}

impl Play for Three {
    type Told = (Told, Told, Told);

    fn play<O: Origin, P: OfDevice<MemDisk, O>, R: Wait + Abort>(
        &self,
        rt: &R,
        hall: &Hall<'_, O, P>,
        port: &mut Port<MemDisk, O>,
        clients: Clients<O, P>,
    ) -> ((Told, Told, Told), Clients<O, P>) {
        let (shared, committer, desks) = (hall.shared, hall.committer, hall.desks);
        let mut clients = clients;
        let reads = self.second_reads;
        hand(rt, shared, port, hall.a, &mut clients.a, false, 0);
        hand(rt, shared, port, hall.b, &mut clients.b, reads, 1);
        hand(rt, shared, port, hall.c, &mut clients.c, false, 2);
        let third = told(rt, shared, committer, desks, port, hall.c, &mut clients.c);
        let first = told(rt, shared, committer, desks, port, hall.a, &mut clients.a);
        let second = told(rt, shared, committer, desks, port, hall.b, &mut clients.b);
        ((first, second, third), clients)
    }
}

// two writes and two syncs of the disk, for all three
#[test]
fn three_that_wait_are_one_group(rt: HostRuntime) -> Result<(), Fail> {
    let play = Three {
        second_reads: false,
    };
    let (told, calls) = played(&rt, rt.alloc(), &with_long_logs(), u64::MAX, &play);
    let first = Ok(GroupReply::Committed(1));
    let second = Ok(GroupReply::Committed(2));
    same(&rt, told, (first, second, Ok(GroupReply::Committed(3))));
    same(&rt, calls, 4);
    Ok(())
}

#[test]
fn a_member_is_told_its_conflict_and_the_others_commit(rt: HostRuntime) -> Result<(), Fail> {
    let play = Three { second_reads: true };
    let (told, _) = played(&rt, rt.alloc(), &with_long_logs(), u64::MAX, &play);
    let clash = Clash {
        commit: 1,
        block: 0,
        at: 0,
    };
    let first = Ok(GroupReply::Committed(1));
    let second = Ok(GroupReply::Conflict(clash));
    same(&rt, told, (first, second, Ok(GroupReply::Committed(2))));
    Ok(())
}

// the image takes five calls
#[test]
fn a_fault_of_the_disk_ends_all(rt: HostRuntime) -> Result<(), Fail> {
    let play = Three {
        second_reads: false,
    };
    let (told, _) = played(&rt, rt.alloc(), &with_long_logs(), 6, &play);
    let first = Err(CoreError::Disk);
    let second = Err(CoreError::Disk);
    same(&rt, told, (first, second, Err(CoreError::Disk)));
    Ok(())
}
