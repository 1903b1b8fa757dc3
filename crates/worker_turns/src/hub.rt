//! The book, as one worker reaches it.

ghost use Rattle.std.specs.Prelude.{◌≡◌, IfErr};
ghost use Rattle.desk.specs.Replies.{GivesBack};

use branching::Arc;
use desk::LookFault;
use incumbent_book::{BookFault, Gap, Offered};
use prices::Priced;
use schedule::Feasible;

/// The book, as one worker reaches it: what lies between both, a lock or a fake. It judges what workers bring, and
/// tells the least cost of a plan and the bound, as they stand behind the call.
pub trait Hub<'i> {
    /// Offers a plan, which becomes the incumbent where it is cheaper than every earlier one; else it
    /// comes back, as it does where it is refused.
    fn offer(&mut self, plan: Feasible<'i>) -> Result<(Offered<'i>, Gap), (Feasible<'i>, BookFault)>
        ensures { GivesBack plan.entry result };

    /// Gives a leaf prices of a higher value, or gives them back.
    fn reprice(&mut self, leaf: u32, priced: Priced<'i>) -> Result<Gap, (Priced<'i>, BookFault)>
        ensures { IfErr result (λ e. e.0 ≡ priced.entry) };

    /// Splits a leaf by an arc, and answers the numbers of the child that uses it and of the other;
    /// or gives the children's prices back.
    fn split(
        &mut self,
        leaf: u32,
        arc: Arc,
        used: Priced<'i>,
        unused: Priced<'i>,
    ) -> Result<((u32, u32), Gap), (Priced<'i>, Priced<'i>, BookFault)>
        ensures { IfErr result (λ e. (e.0 ≡ used.entry) × (e.1 ≡ unused.entry)) };

    /// A copy of a leaf. No contract: it may be another one's at the next moment.
    fn look(&mut self, leaf: u32) -> Result<Priced<'i>, LookFault>;

    /// The least cost of a plan, if there is one, and the bound, both in tenths. No contract: workers
    /// only choose their work by it.
    fn gap(&mut self) -> Gap;
}
