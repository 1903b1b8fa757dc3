//! Cuts: what has a price beside customers. That of a set of customers is paid to a route for each entry, that of a row
//! of three customers is charged from it.
//!
//! No contract speaks of it: it is a rule of search, and any prices are sound.

use crate::cut_part::{CutPart, Side};
use fronts::Nearness;
use std::alloc::{AllocError, Global};

/// What a cut says of plans.
#[derive(Clone, Copy, PartialEq, Eq)]
pub enum CutKind {
    /// Each plan enters a set so often, at least.
    Set { need: u32 },
    /// Each plan is charged once by a row, at most.
    Row,
}

/// What a stop does to what a cut remembers along a route.
#[derive(Clone, Copy, PartialEq, Eq)]
enum Standing {
    /// The stop is one of the customers.
    Member,
    /// It isn't, but a row is remembered there.
    Near,
    /// Nothing is remembered there.
    Away,
}

/// A set or a row, whose price stands behind those of the customers.
#[derive(Drop)]
pub struct PooledCut {
    /// The how-manieth cut it is that the pool took in.
    pub number: u64,
    pub kind: CutKind,
    /// The customers, in increasing order.
    pub members: Vec<u16>,
    /// Where each row of the instance stands.
    standings: Vec<Standing>,
    /// For how many ascents its price has been 0.
    pub idle: u32,
}

/// Where each of so many customers and the depot stands, of which these are the cut's.
fn standings_of(alloc: Global, count: u16, members: &[u16]) -> Result<Vec<Standing>, AllocError> {
    let mut standings = vec![in alloc; Standing::Away; usize::from(count) + 1]?;
    for member in members {
        if let Some(standing) = standings.get_mut(usize::from(*member)) {
            *standing = Standing::Member;
        }
    }
    Ok(standings)
}

impl PooledCut {
    /// The set of these of so many customers, as the cut of this number.
    pub fn set(
        alloc: Global,
        count: u16,
        members: &[u16],
        need: u32,
        number: u64,
    ) -> Result<PooledCut, AllocError> {
        Ok(PooledCut {
            number,
            kind: CutKind::Set { need },
            members: Vec::from_slice(alloc, members)?,
            standings: standings_of(alloc, count, members)?,
            idle: 0,
        })
    }

    /// The row of these three customers, as the cut of this number: it is remembered where a neighbour list holds one of
    /// them.
    pub fn row(
        alloc: Global,
        nearness: &Nearness<'_>,
        members: [u16; 3],
        number: u64,
    ) -> Result<PooledCut, AllocError> {
        let count = nearness.instance.customer_count();
        let mut standings = standings_of(alloc, count, members.as_slice())?;
        let mut v: u16 = 0;
        for standing in standings.iter_mut() {
            let is_near = members.iter().any(|member| nearness.is_near(v, *member));
            if is_near && *standing == Standing::Away {
                *standing = Standing::Near;
            }
            v = v.saturating_add(1);
        }
        Ok(PooledCut {
            number,
            kind: CutKind::Row,
            members: Vec::from_slice(alloc, members.as_slice())?,
            standings,
            idle: 0,
        })
    }

    /// Whether it is a set.
    pub fn is_set(&self) -> bool {
        self.kind != CutKind::Row
    }

    /// Where a row of the instance stands.
    fn standing(&self, row: u16) -> Standing {
        let standing = self.standings.get(usize::from(row)).copied();
        standing.unwrap_or(Standing::Away)
    }

    /// How often a route enters the set.
    fn entries(&self, stops: &[u16]) -> u32 {
        let mut entries: u32 = 0;
        let mut is_inside = false;
        for stop in stops {
            let is_next = self.standing(*stop) == Standing::Member;
            if is_next && !is_inside {
                entries = entries.saturating_add(1);
            }
            is_inside = is_next;
        }
        entries
    }

    /// How often the row charges a route: at each of its customers where its bit is set. That changes the bit, which is
    /// cleared where the row isn't remembered.
    fn charges(&self, stops: &[u16]) -> u32 {
        let mut charges: u32 = 0;
        let mut bit = false;
        for stop in stops {
            let standing = self.standing(*stop);
            if standing == Standing::Member && bit {
                charges = charges.saturating_add(1);
            }
            bit = match standing {
                Standing::Member => !bit,
                Standing::Near => bit,
                Standing::Away => false,
            };
        }
        charges
    }

    /// How often a route enters the set, or is charged by the row.
    pub fn count(&self, stops: &[u16]) -> u32 {
        match self.kind {
            CutKind::Set { .. } => self.entries(stops),
            CutKind::Row => self.charges(stops),
        }
    }

    /// How the cut's price counts, with no multiplier.
    pub fn part(&self) -> CutPart {
        let (count, side) = match self.kind {
            CutKind::Set { need } => (i64::from(need), Side::Above),
            CutKind::Row => (1, Side::Below),
        };
        CutPart {
            count,
            side,
            multiplier: 0,
        }
    }
}
