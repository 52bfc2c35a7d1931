// The jobs of the two threads, each with a session of its own.

use crate::account::{AccountError, Plan, Transfer};
use crate::half::Half;
use crate::jobs::Job;
use crate::sessions::give_half;
use crate::threads::{commit_all, end_members, end_taken, give_all};
use group_commit::Ended;
use handle_pass::Session;
use iso_disk::Disk;
use iso_model::CoreError;
use iso_shared::{Origin, Port, Shared, Tx};
use std::alloc::Global;
use std::sync::Wait;
use store_model::Region;

/// It makes transfers in transactions that it gives away, and the first half of one more.
pub(crate) struct Giver<'a, D: Disk + Drop, O: Origin> {
    pub(crate) alloc: Global,
    pub(crate) region: Region,
    pub(crate) plan: Plan<'a>,
    pub(crate) session: Session<'a, D, O>,
}

impl<'a, D: Disk + Drop + Send, O: Origin + Send + Sync> Job for Giver<'a, D, O> {
    ghost use Rattle.accounts.specs.Jobs.{HasGiven, IsGiver, planned};

    type Answer = (Vec<Option<Tx<D, O>>>, Option<Half<D, O>>);

    ghost fits = { λ c. IsGiver O.start c };

    ghost does = { λ c d r. HasGiven O.start (planned c.plan) c.session d.session r.0.items r.1 };

    fn run<R: Wait>(&mut self, rt: &R) -> (Vec<Option<Tx<D, O>>>, Option<Half<D, O>>) {
        let members = give_all(
            rt,
            self.alloc,
            &mut self.session,
            self.region,
            self.plan.accounts,
            self.plan.handed,
        );
        let half = give_half(
            rt,
            self.alloc,
            &mut self.session,
            self.region,
            self.plan.accounts,
            &self.plan.halved,
        );
        (members, half)
    }
}

/// It makes transfers of its own, and answers how many were committed.
pub(crate) struct Mover<'a, D: Disk + Drop, O: Origin> {
    pub(crate) alloc: Global,
    pub(crate) region: Region,
    pub(crate) plan: Plan<'a>,
    pub(crate) transfers: &'a [Transfer],
    pub(crate) session: Session<'a, D, O>,
}

impl<'a, D: Disk + Drop + Send, O: Origin + Send + Sync> Job for Mover<'a, D, O> {
    ghost use Rattle.accounts.specs.{Jobs.{IsMover, planned}, Kept.KeepsOn};

    type Answer = u32;

    ghost fits = { λ c. IsMover O.start c };

    ghost does = { λ c d r. KeepsOn (planned c.plan) O.start c.session d.session };

    fn run<R: Wait>(&mut self, rt: &R) -> u32 {
        commit_all(
            rt,
            self.alloc,
            &mut self.session,
            self.region,
            self.plan.accounts,
            self.transfers,
            self.plan.most,
        )
    }
}

/// It ends what was given to it: the transfer that is half made, and the others as one group, through a port. It answers how each of
/// these ended, for whoever gave it away.
pub(crate) struct Ender<'a, D: Disk + Drop, O: Origin> {
    pub(crate) alloc: Global,
    pub(crate) region: Region,
    pub(crate) plan: Plan<'a>,
    pub(crate) session: Session<'a, D, O>,
    pub(crate) half: Option<Half<D, O>>,
    pub(crate) shared: &'a Shared<D, O>,
    pub(crate) port: Port<D, O>,
    pub(crate) members: Option<Vec<Option<Tx<D, O>>>>,
}

impl<'a, D: Disk + Drop + Send, O: Origin + Send + Sync> Job for Ender<'a, D, O> {
    ghost use Rattle.std.specs.Prelude.{◌≡◌, None};
    ghost use Rattle.accounts.specs.Jobs.{HasEndedGift, IsEnder};

    type Answer = (
        Result<u64, AccountError>,
        Result<Vec<Ended<D, O>>, CoreError>,
    );

    ghost fits = { λ c. IsEnder O.start c };

    ghost does = { λ c d r. HasEndedGift O.start c d.session d.port r.1 × (d.half ≡ None) × (d.members ≡ None) };

    fn run<R: Wait>(
        &mut self,
        rt: &R,
    ) -> (
        Result<u64, AccountError>,
        Result<Vec<Ended<D, O>>, CoreError>,
    ) {
        let halved = end_taken(
            rt,
            self.alloc,
            &mut self.session,
            self.region,
            self.plan.accounts,
            &mut self.half,
        );
        let group = end_members(
            rt,
            self.alloc,
            self.shared,
            &mut self.port,
            self.plan.accounts,
            &mut self.members,
        );
        (halved, group)
    }
}
