//! The search for rows.

use crate::candidates::{Candidate, Candidates};
use crate::found_rows::{FoundRow, choose};
use crate::pair_weights::PairWeights;
use crate::visits::Visits;
use fronts::Nearness;
use pooled_routes::{PooledCut, WeightedRoute};
use std::alloc::{AllocError, Global};

/// A row counts where more than this part of a route is lacking.
const PART_LACKING: i64 = 20;

/// The most threes whose charges are counted along routes.
const MOST_CANDIDATES: usize = 1_000;

/// So many stops or pairs that a search goes over are one unit of work, as it is counted of pricings.
const STEPS_OF_UNIT: u64 = 2;

/// What a search found.
#[derive(Drop)]
pub struct RowFinds {
    /// Those first that lack most.
    pub rows: Vec<FoundRow>,
    /// How much work it was.
    pub work: u64,
}

/// Of these threes the rows that lack more than a part of a route, where this much is one, with the work of counting.
fn lacking(
    alloc: Global,
    nearness: &Nearness<'_>,
    visits: &Visits<'_>,
    candidates: &[Candidate],
    whole: i64,
) -> Result<(Vec<FoundRow>, u64), AllocError> {
    let (mut found, mut work): (Vec<FoundRow>, u64) = (Vec::new(alloc), 0);
    for three in candidates {
        let row = PooledCut::row(alloc, nearness, three.members, 0)?;
        let (charged, stops) = visits.charged(&row, three.members);
        work = work.saturating_add(stops);
        let lack = charged.saturating_sub(whole);
        if lack > whole / PART_LACKING {
            found.push(FoundRow {
                members: three.members,
                lack,
            })?;
        }
    }
    let looks = u64::from(nearness.instance.customer_count()).saturating_mul(3);
    let looks = looks.saturating_mul(candidates.len() as u64);
    Ok((found, work.saturating_add(looks)))
}

/// Rows by which these routes are charged more often than a plan can be, by more than a twentieth: of those that are
/// found at most so many, and none of the known ones. This much is one route in what the routes weigh. No contract: each
/// three customers may be a row.
pub fn find_rows(
    alloc: Global,
    nearness: &Nearness<'_>,
    routes: &[WeightedRoute<'_>],
    whole: i64,
    known: &[Vec<u16>],
    most: usize,
) -> Result<RowFinds, AllocError> {
    let customers = nearness.instance.customer_count();
    let pairs = PairWeights::new(alloc, customers, routes)?;
    let least = whole.saturating_add(whole / PART_LACKING);
    let candidates = Candidates::of(alloc, &pairs, customers, least)?;
    let looks = candidates.work;
    let mut threes = candidates.heaviest(alloc, MOST_CANDIDATES)?;
    threes.retain(|three| {
        let mut rows = known.iter();
        !rows.any(|row| row.as_slice() == three.members.as_slice())
    });
    let visits = Visits::new(alloc, customers, routes)?;
    let (found, counted) = lacking(alloc, nearness, &visits, threes.as_slice(), whole)?;
    Ok(RowFinds {
        rows: choose(alloc, customers, found, most)?,
        work: looks.saturating_add(counted) / STEPS_OF_UNIT,
    })
}
