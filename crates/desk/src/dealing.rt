//! Shares for the workers of a desk, and all shares together again.

ghost use Rattle.std.specs.Prelude.{◌≡◌, ◌≤◌, ◌<◌, ◌+◌, [], vec_len, vec_capacity};
ghost use Rattle.incumbent_book.specs.Contents.{past_of};
ghost use Rattle.desk.specs.Tally.{each, tally_of};
ghost use Rattle.desk.specs.Account.{IsSeen, opening_accounts, tally_of_shares};

use crate::naming::Naming;
use crate::share::Share;
use crate::tokens::{Tokens, Totals};
use incumbent_book::{Event, Gap};

/// Counts a history for a share, where nothing was counted before.
pub(crate) fn count_all<J: Naming>(totals: &mut Totals<J>, mine: &mut Share<J>, history: &[Event])
    requires none { totals.old ≡ each 0 }
    requires mine { mine.old.tally ≡ each 0 }
    ensures totals { totals.new ≡ tally_of (past_of history.now) }
    ensures mine { mine.new ≡ record {
      worker = mine.old.worker;
      tally = tally_of (past_of history.now);
      cost = mine.old.cost;
      bound = mine.old.bound;
    } }
{
    for event in history {
        mine.count(totals, event);
    }
}

/// The first share, and one for each other worker.
pub(crate) fn deal<J: Naming>(
    mut shares: Vec<Share<J>>,
    first: Share<J>,
    mut rest: Tokens<J>,
    workers: u16,
    seen: &Gap,
) -> Vec<Share<J>>
    requires some { 0 < workers }
    requires empty { (shares.items ≡ []) × (workers ≤ vec_capacity shares) }
    requires first { first ≡ record {
      worker = 0;
      tally = first.tally;
      cost = seen.now.cost;
      bound = seen.now.bound;
    } }
    requires rest { (rest.parts + 1 ≡ workers) × (rest.tally ≡ each 0) }
    requires seen { IsSeen J.problem seen.now.cost seen.now.bound }
    ensures shares { result.items ≡ opening_accounts workers first.tally seen.now.cost
        seen.now.bound }
    ensures count { vec_len result ≡ workers }
{
    shares.push_reserved(first);
    for worker in 1..workers {
        shares.push_reserved(Share::new(worker, rest.split_off(), seen));
    }
    shares
}

/// The tokens of all shares together.
pub(crate) fn gather<J: Naming>(mut shares: Vec<Share<J>>) -> Tokens<J>
    requires { 0 < vec_len shares }
    ensures { result ≡ record { parts = vec_len shares; tally = tally_of_shares shares.items } }
{
    let Some(last) = shares.pop() else {
        unreachable!()
    };
    let mut tokens = last.into_tokens();
    while let Some(share) = shares.pop() {
        tokens.merge(share.into_tokens());
    }
    tokens
}
