// Clients of a shared device over a disk in memory, and what their calls come to. The image has four blocks of 64 bytes and logs of 4,096
// bytes.
ghost use Rattle.std.specs.Prelude.{◌≡◌, ◌+◌, ◌<◌, None, Some};
ghost use Rattle.iso_shared.specs.{Ports.{IsPort, IsTx, port_view, tx_view}, TestImage.small};
ghost use Rattle.shared_tests.specs.Clients.{IsClient};

use counts::Steps;
use iso_memdisk::MemDisk;
use iso_model::{CoreError, EndReply, GroupReply, Label, Mode};
use iso_shared::{Origin, Port, Shared, Tx};
use std::marker::Brand;
use std::sync::Wait;
use std::sync::ledger::{Blank, Ledger};
use tx_table::PostError;

/// A port, and at most one transaction.
pub(crate) struct Client<O: Origin> {
    pub(crate) port: Port<MemDisk, O>,
    pub(crate) tx: Option<Tx<MemDisk, O>>,
}

/// What a call comes to.
#[derive(Clone, Copy, Debug, PartialEq)]
pub(crate) enum Told {
    Done,
    /// There is none: no transaction or no label, or no room for one.
    Nothing,
    /// Another transaction is under the label.
    Taken,
    Number(u64),
    In(Mode),
    Ended(EndReply),
    Both(Option<GroupReply>, Option<GroupReply>),
    /// A group is refused, and so many transactions were handed back.
    Refused(CoreError, u32),
    Stat { last: u64, live: u32, down: bool },
}

pub(crate) type Answer = Result<Told, CoreError>;

/// Puts a transaction where none is.
pub(crate) fn attach<O: Origin>(place: &mut Option<Tx<MemDisk, O>>, tx: Tx<MemDisk, O>)
    requires { place.old ≡ None }
    ensures { place.new ≡ Some tx }
{
    if let Some(_) = place.replace(tx) {
        unreachable!()
    }
}

/// Begins a transaction, and tells where.
pub(crate) fn begin<O: Origin, R: Wait>(
    rt: &R,
    shared: &Shared<MemDisk, O>,
    client: &mut Client<O>,
    mode: Option<Mode>,
) -> Answer
    requires { IsClient shared.now O.start client.old.port client.old.tx }
    ensures { IsClient shared.now O.start client.new.port client.new.tx }
{
    if let Some(_) = &client.tx {
        return Ok(Told::Nothing);
    }
    match shared.begin(rt, &mut client.port, mode) {
        Ok(tx) => {
            let at = tx.at();
            attach(&mut client.tx, tx);
            Ok(Told::Number(at))
        }
        Err(error) => Err(error),
    }
}

/// Fetches a block, and makes no access.
pub(crate) fn fetch<O: Origin, R: Wait>(
    rt: &R,
    shared: &Shared<MemDisk, O>,
    tx: &mut Tx<MemDisk, O>,
    block: u32,
) -> Answer
    requires tx { IsTx shared.now O.start tx.old }
    requires image { O.start.world.geometry ≡ small }
    ensures tx { IsTx shared.now O.start tx.new }
{
    if block >= 4 {
        return Ok(Told::Nothing);
    }
    let mut bytes = [0; 64];
    match shared.fetch(rt, tx, block, &mut bytes) {
        Ok(()) => Ok(Told::Done),
        Err(error) => Err(error),
    }
}

/// Reads a block.
pub(crate) fn read<O: Origin, R: Wait>(
    rt: &R,
    shared: &Shared<MemDisk, O>,
    tx: &mut Tx<MemDisk, O>,
    block: u32,
) -> Answer
    requires tx { IsTx shared.now O.start tx.old }
    requires image { O.start.world.geometry ≡ small }
    ensures tx { IsTx shared.now O.start tx.new }
{
    if block >= 4 {
        return Ok(Told::Nothing);
    }
    if tx.room() == 0 {
        return Ok(Told::Nothing);
    }
    let mut bytes = [0; 64];
    if let Err(error) = shared.fetch(rt, tx, block, &mut bytes) {
        return Err(error);
    }
    if let Err(_) = tx.reserve(block) {
        return Err(CoreError::Memory);
    }
    tx.read(block, &mut bytes);
    Ok(Told::Done)
}

/// Writes the first byte of a block.
pub(crate) fn write<O: Origin>(
    shared: &Shared<MemDisk, O>,
    tx: &mut Tx<MemDisk, O>,
    block: u32,
    byte: u8,
) -> Answer
    requires tx { IsTx shared.now O.start tx.old }
    requires image { O.start.world.geometry ≡ small }
    ensures tx { IsTx shared.now O.start tx.new }
{
    let _ = shared;
    if block >= 4 {
        return Ok(Told::Nothing);
    }
    if tx.room() == 0 {
        return Ok(Told::Nothing);
    }
    if let Err(_) = tx.reserve(block) {
        return Err(CoreError::Memory);
    }
    tx.write(block, &[byte; 64]);
    let _ = tx.mark(0, 1);
    Ok(Told::Done)
}

/// Compares a transaction with the commits so far, ahead of its end, and tells up to which one.
pub(crate) fn check<O: Origin, R: Wait>(
    rt: &R,
    shared: &Shared<MemDisk, O>,
    tx: &mut Tx<MemDisk, O>,
) -> Answer
    requires tx { IsTx shared.now O.start tx.old }
    ensures tx { IsTx shared.now O.start tx.new }
{
    match shared.recent(rt, tx) {
        Ok(recent) => match tx.check(recent) {
            Ok(upto) => Ok(Told::Number(upto)),
            Err(_) => Err(CoreError::Memory),
        },
        Err(error) => Err(error),
    }
}

// The end of a transaction. Where it is handed back, it is aborted.
fn ended<O: Origin, L: Ledger, R: Wait>(
    blank: Blank,
    rt: &R,
    shared: &Shared<MemDisk, O>,
    port: &mut Port<MemDisk, O>,
    tx: Tx<MemDisk, O>,
) -> Answer
    requires name { blank.name ≡ L.name }
    requires parts { blank.parts ≡ L.parts }
    requires some { 0 < L.parts }
    requires port { IsPort shared.now port.old }
    requires tx { IsTx shared.now O.start tx }
    ensures port { IsPort shared.now port.new }
    ensures units { (port_view port.new).units ≡ (port_view port.old).units + (tx_view tx).units }
{
    let mut steps = Steps::<L>::start(blank);
    match shared.end(rt, port, tx, &mut steps) {
        Ok(reply) => Ok(Told::Ended(reply)),
        Err((error, back)) => match back {
            Some(tx) => {
                shared.abort(rt, port, tx);
                Err(error)
            }
            None => Err(error),
        },
    }
}

/// Ends the transaction.
pub(crate) fn end<O: Origin, R: Wait>(
    rt: &R,
    shared: &Shared<MemDisk, O>,
    client: &mut Client<O>,
) -> Answer
    requires { IsClient shared.now O.start client.old.port client.old.tx }
    ensures { IsClient shared.now O.start client.new.port client.new.tx }
{
    match client.tx.take() {
        None => Ok(Told::Nothing),
        Some(tx) => ended::<O, Brand, R>(Blank::new(1), rt, shared, &mut client.port, tx),
    }
}

/// Puts the transaction under a label, or aborts it.
pub(crate) fn post<O: Origin, R: Wait>(
    rt: &R,
    shared: &Shared<MemDisk, O>,
    client: &mut Client<O>,
    label: Label,
) -> Answer
    requires { IsClient shared.now O.start client.old.port client.old.tx }
    ensures { IsClient shared.now O.start client.new.port client.new.tx }
{
    match client.tx.take() {
        None => Ok(Told::Nothing),
        Some(tx) => match shared.post(rt, &mut client.port, label, tx) {
            Ok(()) => Ok(Told::Done),
            Err((error, tx)) => {
                shared.abort(rt, &mut client.port, tx);
                match error {
                    PostError::LabelTaken => Ok(Told::Taken),
                    PostError::Memory => Err(CoreError::Memory),
                }
            }
        },
    }
}

/// Takes the transaction under a label, and tells where it began.
pub(crate) fn look<O: Origin, R: Wait>(
    rt: &R,
    shared: &Shared<MemDisk, O>,
    client: &mut Client<O>,
    label: &Label,
) -> Answer
    requires { IsClient shared.now O.start client.old.port client.old.tx }
    ensures { IsClient shared.now O.start client.new.port client.new.tx }
{
    if let Some(_) = &client.tx {
        return Ok(Told::Nothing);
    }
    match shared.look(rt, &mut client.port, label) {
        Some(tx) => {
            let at = tx.at();
            attach(&mut client.tx, tx);
            Ok(Told::Number(at))
        }
        None => Ok(Told::Nothing),
    }
}
