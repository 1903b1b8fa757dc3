//! The levels of a tree.

ghost use Rattle.std.specs.Prelude.{◌≡◌, ◌+◌, ◌*◌, ◌<◌, ◌≤◌, ◌∷◌, [], ◌++◌, length, take, map, Some, IfOk};
ghost use Rattle.segments.specs.Linked.{both};
ghost use Rattle.segments.specs.Levels.{pairs, IsHeight};

use crate::fault::TreeFault;
use crate::linked::Linked;
use std::alloc::Global;

/// The number of levels over n items.
pub(crate) fn height_of(n: usize) -> u32
    ensures height { IsHeight n result }
    ensures bound { result ≤ 65 }
{
    if n == 0 {
        return 0;
    }
    usize::BITS - (n - 1).leading_zeros() + 1
}

/// Two joins, joined.
pub(crate) fn join_both<L: Linked>(context: &L::Context, a: Option<L>, b: Option<L>) -> Option<L>
    ensures { result ≡ both (L.op context.now) a b }
{
    match a {
        Some(x) => match b {
            Some(y) => L::join(context, &x, &y),
            None => None,
        },
        None => None,
    }
}

/// The join at i one level up.
fn join_pair<L: Linked>(context: &L::Context, below: &[Option<L>], i: usize) -> Option<L>
    requires { 2 * i < length below.now }
    ensures { take (i + 1) (pairs (L.op context.now) below.now) ≡ take i
        (pairs (L.op context.now) below.now) ++ (result ∷ []) }
{
    let count = below.len();
    let first = below[2 * i];
    if 2 * i + 1 == count {
        return first;
    }
    join_both(context, first, below[2 * i + 1])
}

/// The items, each a join of its own.
pub(crate) fn lowest_level<L: Linked>(
    alloc: Global,
    items: &[L],
) -> Result<Vec<Option<L>>, TreeFault>
    ensures { IfOk result (λ v. v.items ≡ map Some items.now) }
{
    let mut level = Vec::new(alloc);
    for item in items {
        level.push(Some(*item))?;
    }
    Ok(level)
}

/// The joins one level up, the first of which are kept.
pub(crate) fn level_above<L: Linked>(
    alloc: Global,
    context: &L::Context,
    below: &[Option<L>],
    kept: &[Option<L>],
) -> Result<Vec<Option<L>>, TreeFault>
    requires { kept.now ≡ take (length kept.now) (pairs (L.op context.now) below.now) }
    ensures { IfOk result (λ v. v.items ≡ pairs (L.op context.now) below.now) }
{
    let mut level = Vec::new(alloc);
    level.extend_from_slice(kept)?;
    for i in kept.len()..below.len().div_ceil(2) {
        level.push(join_pair(context, below, i))?;
    }
    Ok(level)
}
