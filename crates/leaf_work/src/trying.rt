//! The arc that a leaf is best split on.

use branching::{Arc, Region};
use pooled_routes::{ArcFlow, Child, Pseudocosts, Trial};
use price_way::{Ascent, ChildTrial, PoolTrial, PricingState, RoutePool};
use prices::Priced;
use std::alloc::AllocError;

/// The most arcs that are tried.
const MOST_CANDIDATES: usize = 20;

/// An arc that was tried, with the prices that its children came to; nothing where the rises seen so far
/// spared the trial.
#[derive(Drop)]
pub(crate) struct TriedArc {
    pub(crate) arc: Arc,
    /// The higher, the better for a split.
    score: i128,
    used: Option<Trial>,
    unused: Option<Trial>,
    /// How often a route was looked at for it.
    routes: u64,
}

impl TriedArc {
    /// The prices of the child in which the arc is required, and of the other one; nothing where a leaf
    /// is split by another arc.
    pub(crate) fn into_prices(self, arc: Arc) -> (Option<Trial>, Option<Trial>) {
        if self.arc == arc {
            (self.used, self.unused)
        } else {
            (None, None)
        }
    }
}

/// The arcs worth a trial: those that a region's routes may use and needn't, and that the pool's use in
/// part, first those that they use nearly one half of a time.
fn candidates(
    region: &Region,
    mut flows: Vec<ArcFlow>,
    rise: i64,
) -> Result<Vec<ArcFlow>, AllocError> {
    flows.retain(|flow| {
        flow.is_divided(rise)
            && region.allows(flow.arc.from, flow.arc.to)
            && region.is_undecided(flow.arc)
    });
    flows.sort_by_key(|flow| flow.distance_from_half(rise))?;
    flows.truncate(MOST_CANDIDATES);
    Ok(flows)
}

/// A rise within what counts of it, in grains: not more than the gap, and somewhat more than nothing, so
/// that the other child's rise still counts.
fn counted(rise: i128, gap: i128) -> i128 {
    rise.min(gap).max((gap / 1_000).max(1))
}

/// How much a split is worth by the rises of its children, in grains.
fn score(used: i128, unused: i128, gap: i128) -> i128 {
    counted(used, gap).saturating_mul(counted(unused, gap))
}

/// The rise of a tried child, in grains, at most the mean of those seen.
fn rise_of(tried: &ChildTrial, seen: Option<i128>, gap: i128) -> i128 {
    let rise = tried.rise.unwrap_or(gap);
    match seen {
        Some(mean) => rise.min(mean),
        None => rise,
    }
}

/// The most that a child may rise by as it counts, in grains, as far as rises were seen.
fn most_rise(seen: Option<i128>, gap: i128) -> i128 {
    seen.unwrap_or(gap).min(gap)
}

/// An arc with what it can be worth at most, whose children weren't both tried.
fn untried(arc: Arc, score: i128, routes: u64) -> TriedArc {
    TriedArc {
        arc,
        score,
        used: None,
        unused: None,
        routes,
    }
}

/// Tries both children by an arc, unless rises were seen in both, or it can't be worth more than the best
/// one so far.
fn try_arc(
    ascent: &Ascent,
    trials: &PoolTrial<'_>,
    seen: &Pseudocosts,
    arc: Arc,
    best: i128,
) -> Result<TriedArc, AllocError> {
    let gap = ascent.gap();
    let (used_mean, unused_mean) = (seen.mean(arc, Child::Used), seen.mean(arc, Child::Unused));
    let used_most = most_rise(used_mean, gap);
    let most = score(used_most, most_rise(unused_mean, gap), gap);
    if most <= best || used_mean.is_some() && unused_mean.is_some() {
        return Ok(untried(arc, most, 0));
    }
    let unused = trials.of_child(arc, Child::Unused)?;
    let unused_rise = rise_of(&unused, unused_mean, gap);
    let most = score(used_most, unused_rise, gap);
    if most <= best {
        return Ok(untried(arc, most, unused.work));
    }
    let used = trials.of_child(arc, Child::Used)?;
    let used_rise = rise_of(&used, used_mean, gap);
    Ok(TriedArc {
        arc,
        score: score(used_rise, unused_rise, gap),
        routes: used.work.saturating_add(unused.work),
        used: Some(used.prices),
        unused: Some(unused.prices),
    })
}

/// Of the arcs that the pool's routes leave open at a leaf, after an ascent there, the one whose children promise to
/// rise most, if there is one.
pub(crate) fn best_arc(
    leaf: &Priced<'_>,
    ascent: &Ascent,
    pool: &RoutePool,
    state: &mut PricingState<'_>,
) -> Result<Option<TriedArc>, AllocError> {
    let mut arcs = candidates(leaf.region(), pool.flows()?, pool.rise())?;
    // Where rises are known, a worth takes no trial, and the best one spares the trials of other arcs.
    let seen = &state.pseudocosts;
    arcs.sort_by_key(|flow| !seen.knows(flow.arc))?;
    let trials = pool.trials(leaf.instance(), ascent)?;
    let mut best: Option<TriedArc> = None;
    let mut routes: u64 = 0;
    for flow in &arcs {
        let most = match &best {
            Some(best) => best.score,
            None => 0,
        };
        let tried = try_arc(ascent, &trials, seen, flow.arc, most)?;
        routes = routes.saturating_add(tried.routes);
        if best.as_ref().is_none_or(|best| tried.score > best.score) {
            best = Some(tried);
        }
    }
    state.count_work(routes);
    Ok(best)
}
