//! A desk beside the share of one worker.

ghost use Rattle.std.specs.Prelude.{◌≡◌, IfErr};
ghost use Rattle.desk.specs.Replies.{GivesBack};

use branching::Arc;
use desk::{Desk, LookFault, Naming, Share};
use incumbent_book::{BookFault, Gap, Offered};
use prices::Priced;
use schedule::Feasible;
use std::sync::Wait;
use worker_turns::Hub;

/// A desk beside the share of one worker. Its calls wait for the desk's lock.
#[derive(Drop)]
pub(crate) struct AtDesk<'d, 'i, R: Wait, J: Naming> {
    pub(crate) rt: &'d R,
    pub(crate) desk: &'d Desk<'i, J>,
    pub(crate) share: Share<J>,
}

impl<'d, 'i, R: Wait, J: Naming> Hub<'i> for AtDesk<'d, 'i, R, J> {
    fn offer(
        &mut self,
        plan: Feasible<'i>,
    ) -> Result<(Offered<'i>, Gap), (Feasible<'i>, BookFault)> {
        let mut locked = self.desk.lock(self.rt);
        locked.offer_and_tell(&mut self.share, plan)
    }

    fn reprice(&mut self, leaf: u32, priced: Priced<'i>) -> Result<Gap, (Priced<'i>, BookFault)> {
        let mut locked = self.desk.lock(self.rt);
        locked.reprice_and_tell(&mut self.share, leaf, priced)
    }

    fn split(
        &mut self,
        leaf: u32,
        arc: Arc,
        used: Priced<'i>,
        unused: Priced<'i>,
    ) -> Result<((u32, u32), Gap), (Priced<'i>, Priced<'i>, BookFault)> {
        let mut locked = self.desk.lock(self.rt);
        locked.split_and_tell(&mut self.share, leaf, arc, used, unused)
    }

    fn look(&mut self, leaf: u32) -> Result<Priced<'i>, LookFault> {
        self.desk.lock(self.rt).look(leaf)
    }

    fn gap(&mut self) -> Gap {
        self.desk.gap(self.rt, &mut self.share)
    }
}
