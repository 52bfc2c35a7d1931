// A live transaction and where it is.
ghost use Rattle.std.specs.{Prelude.{◌≡◌, ◌==◌, ◌<◌, Some, None, IfOk, length, map}, List.AllByRecursion};
ghost use Rattle.iso_model.specs.{World.{is_at_client, is_under_label}, Worlds.AreDistinct};
ghost use Rattle.iso_machine.specs.Standing.{AreKnown, AreListed, IsFound, IsOff, live_of, number_under, place_of};

use crate::finder::Finder;
use iso_model::{Label, Memory};
use tx_table::Work;

/// Where a live transaction is: attached to a client, or under a label.
#[derive(Drop)]
pub(crate) enum Spot {
    Client(u8),
    Label(Label),
}

/// A live transaction: its number, where it is, and what it does.
#[derive(Drop)]
pub(crate) struct Attached {
    pub(crate) tx: u64,
    pub(crate) spot: Spot,
    pub(crate) work: Box<Work>,
}

/// Whether it is attached to a client.
fn is_at_client(client: u8, spot: &Spot) -> bool
    ensures { result ≡ is_at_client client (place_of spot.now) }
{
    match spot {
        Spot::Client(other) => client == *other,
        Spot::Label(_) => false,
    }
}

/// Whether it is under a label.
fn is_under_label(label: &Label, spot: &Spot) -> bool
    ensures { result ≡ is_under_label label.now (place_of spot.now) }
{
    match spot {
        Spot::Client(_) => false,
        Spot::Label(other) => label.text() == other.text(),
    }
}

/// Where in the list the transaction of a client is. The list is gone over from its front.
fn walk_to_client(live: &[Attached], client: u8) -> Option<usize>
    ensures { IsFound (is_at_client client) live.now result }
{
    for (i, attached) in live.iter().enumerate() {
        if is_at_client(client, &attached.spot) {
            return Some(i);
        }
    }
    None
}

/// Where in the list the transaction under a label is. The list is gone over from its front.
fn walk_to_label(live: &[Attached], label: &Label) -> Option<usize>
    ensures { IsFound (is_under_label label.now) live.now result }
{
    for (i, attached) in live.iter().enumerate() {
        if is_under_label(label, &attached.spot) {
            return Some(i);
        }
    }
    None
}

// Where in the list the transaction of that number is, where the numbers rise, as those of transactions that begin do.
fn place_of_number(live: &[Attached], number: u64) -> usize {
    let count = live.len();
    // Mostly it began last of all, and of a group first.
    if count > 0 && live[count - 1].tx == number {
        return count - 1;
    }
    if count > 0 && number <= live[0].tx {
        return 0;
    }
    live.partition_point(|attached| attached.tx < number)
}

/// Where in the list the transaction of a client is, which may have this number.
pub(crate) fn index_at_client(number: Option<u64>, live: &[Attached], client: u8) -> Option<usize>
    requires distinct { AreDistinct (map live_of live.now) }
    requires nobody { number ≡ None → AllByRecursion (IsOff (is_at_client client)) live.now }
    ensures { IsFound (is_at_client client) live.now result }
{
    let Some(tx) = number else {
        return None;
    };
    let place = place_of_number(live, tx);
    if place < live.len() && is_at_client(client, &live[place].spot) {
        return Some(place);
    }
    walk_to_client(live, client)
}

/// Where in the list the transaction under a label is, which may have this number.
pub(crate) fn index_under_label(
    number: Option<u64>,
    live: &[Attached],
    label: &Label,
) -> Option<usize>
    requires distinct { AreDistinct (map live_of live.now) }
    requires nobody { number ≡ None → AllByRecursion (IsOff (is_under_label label.now)) live.now }
    ensures { IsFound (is_under_label label.now) live.now result }
{
    let Some(tx) = number else {
        return None;
    };
    let place = place_of_number(live, tx);
    if place < live.len() && is_under_label(label, &live[place].spot) {
        return Some(place);
    }
    walk_to_label(live, label)
}

/// Notes that the transaction of this number is under a label, unless one is there: then it is where in the list that is.
/// Without memory nothing is noted.
pub(crate) fn claim(
    finder: &mut Finder,
    live: &[Attached],
    label: &Label,
    tx: u64,
) -> Result<Option<usize>, Memory>
    requires { AreKnown finder.old live.now }
    ensures found { IfOk result (IsFound (is_under_label label.now) live.now) }
    ensures own { IfOk result (λ found. found ≡ None → number_under label.now finder.new ≡ Some tx) }
    ensures listed { AreListed finder.new live.now }
{
    let earlier = finder.put_label(label, tx)?;
    let Some(number) = earlier else {
        return Ok(None);
    };
    let Some(i) = index_under_label(earlier, live, label) else {
        return Ok(None);
    };
    let _ = finder.put_label(label, number);
    Ok(Some(i))
}
