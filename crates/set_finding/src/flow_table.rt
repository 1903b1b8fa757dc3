//! How much flows between customers.

use branching::Arc;
use pooled_routes::ArcFlow;
use std::alloc::{AllocError, Global};

/// How much of the routes goes between two customers, in both directions, and into each.
#[derive(Drop)]
pub(crate) struct FlowTable {
    /// How many customers there are.
    pub(crate) customers: u16,
    /// That between two customers.
    between: Vec<Vec<i64>>,
    /// Into each row.
    into: Vec<i64>,
    /// The customers to whom something flows from each, or from whom.
    linked: Vec<Vec<u16>>,
    /// One route.
    pub(crate) whole: i64,
}

impl FlowTable {
    /// The table without arcs.
    fn empty(alloc: Global, customers: u16, whole: i64) -> Result<FlowTable, AllocError> {
        let rows = usize::from(customers).saturating_add(1);
        let (mut between, mut linked) = (Vec::new(alloc), Vec::new(alloc));
        for _row in 0..rows {
            between.push(vec![in alloc; 0; rows]?)?;
            linked.push(Vec::new(alloc))?;
        }
        Ok(FlowTable {
            customers,
            between,
            into: vec![in alloc; 0; rows]?,
            linked,
            whole: whole.max(1),
        })
    }

    /// The table of these arcs, each named once, where this much is one route.
    pub(crate) fn new(
        alloc: Global,
        customers: u16,
        arcs: &[ArcFlow],
        whole: i64,
    ) -> Result<FlowTable, AllocError> {
        let mut table = FlowTable::empty(alloc, customers, whole)?;
        for arc in arcs {
            table.add(arc)?;
        }
        Ok(table)
    }

    /// Adds what flows from a customer to another one to what flows between them.
    fn link(&mut self, one: u16, other: u16, flow: i64) -> Result<(), AllocError> {
        let Some(row) = self.between.get_mut(usize::from(one)) else {
            return Ok(());
        };
        let Some(carried) = row.get_mut(usize::from(other)) else {
            return Ok(());
        };
        let is_new = *carried == 0;
        *carried = carried.saturating_add(flow);
        if let Some(linked) = self.linked.get_mut(usize::from(one)) {
            if is_new {
                linked.push(other)?;
            }
        }
        Ok(())
    }

    /// Adds an arc.
    fn add(&mut self, arc: &ArcFlow) -> Result<(), AllocError> {
        let Arc { from, to } = arc.arc;
        if arc.flow <= 0 || from == to {
            return Ok(());
        }
        if let Some(into) = self.into.get_mut(usize::from(to)) {
            *into = into.saturating_add(arc.flow);
        }
        if from > 0 && to > 0 {
            self.link(from, to, arc.flow)?;
            self.link(to, from, arc.flow)?;
        }
        Ok(())
    }

    /// One above the last customer.
    pub(crate) fn end(&self) -> u16 {
        self.customers.saturating_add(1)
    }

    /// What flows into a row.
    pub(crate) fn into_row(&self, i: u16) -> i64 {
        self.into.get(usize::from(i)).copied().unwrap_or(0)
    }

    /// What flows between a customer and each row.
    pub(crate) fn row(&self, i: u16) -> &[i64] {
        match self.between.get(usize::from(i)) {
            Some(row) => row.as_slice(),
            None => &[],
        }
    }

    /// What flows between two customers.
    #[inline(always)]
    pub(crate) fn between(&self, i: u16, j: u16) -> i64 {
        self.row(i).get(usize::from(j)).copied().unwrap_or(0)
    }

    /// The customers to whom something flows from a customer, or from whom.
    pub(crate) fn linked(&self, i: u16) -> &[u16] {
        match self.linked.get(usize::from(i)) {
            Some(linked) => linked.as_slice(),
            None => &[],
        }
    }
}
