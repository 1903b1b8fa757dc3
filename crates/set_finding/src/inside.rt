//! A set of customers to which others are added one by one.

use crate::flow_table::FlowTable;
use crate::found_sets::FoundSet;
use solomon_reader::Instance;
use std::alloc::{AllocError, Global};

/// More vehicles than any load fills.
const MOST_VEHICLES: i64 = 1_000_000;

/// A set of customers, with its load and what flows into it.
#[derive(Drop)]
pub(crate) struct Inside<'f, 'i> {
    alloc: Global,
    flow: &'f FlowTable,
    instance: &'i Instance,
    flags: Vec<bool>,
    /// What flows between each row and the customers of the set.
    near: Vec<i64>,
    pub(crate) size: usize,
    load: i64,
    inflow: i64,
}

impl<'f, 'i> Inside<'f, 'i> {
    /// The set of these customers.
    pub(crate) fn of(
        alloc: Global,
        flow: &'f FlowTable,
        instance: &'i Instance,
        members: &[u16],
    ) -> Result<Inside<'f, 'i>, AllocError> {
        let rows = usize::from(flow.customers).saturating_add(1);
        let mut inside = Inside {
            alloc,
            flow,
            instance,
            flags: vec![in alloc; false; rows]?,
            near: vec![in alloc; 0; rows]?,
            size: 0,
            load: 0,
            inflow: 0,
        };
        for member in members {
            inside.toggle(*member);
        }
        Ok(inside)
    }

    /// Whether a customer is in the set.
    pub(crate) fn has(&self, v: u16) -> bool {
        self.flags.get(usize::from(v)).copied().unwrap_or(false)
    }

    /// What flows between a customer and those of the set.
    fn near(&self, v: u16) -> i64 {
        self.near.get(usize::from(v)).copied().unwrap_or(0)
    }

    /// What flows into the set once a customer is added, or taken out.
    fn inflow_with(&self, v: u16) -> i64 {
        let change = self.flow.into_row(v).saturating_sub(self.near(v));
        if self.has(v) {
            self.inflow.saturating_sub(change)
        } else {
            self.inflow.saturating_add(change)
        }
    }

    /// The load of the set once a customer is added, or taken out.
    fn load_with(&self, v: u16) -> i64 {
        if v > self.instance.customer_count() {
            return self.load;
        }
        let demand = i64::from(self.instance.demand(v));
        if self.has(v) {
            self.load.saturating_sub(demand)
        } else {
            self.load.saturating_add(demand)
        }
    }

    /// How many vehicles a load fills.
    fn vehicles(&self, load: i64) -> i64 {
        let capacity = u64::from(self.instance.capacity()).max(1);
        load.max(0).unsigned_abs().div_ceil(capacity) as i64
    }

    /// Adds a customer, or takes it out where it is in the set.
    pub(crate) fn toggle(&mut self, v: u16) {
        let (inflow, load) = (self.inflow_with(v), self.load_with(v));
        let is_out = self.has(v);
        (self.inflow, self.load) = (inflow, load);
        self.size = if is_out {
            self.size.saturating_sub(1)
        } else {
            self.size.saturating_add(1)
        };
        if let Some(flag) = self.flags.get_mut(usize::from(v)) {
            *flag = !is_out;
        }
        let sign = if is_out { -1 } else { 1 };
        for (near, flow) in self.near.iter_mut().zip(self.flow.row(v)) {
            *near = near.saturating_add(flow.saturating_mul(sign));
        }
    }

    /// How much is lacking of what the set needs once a customer is added, or taken out.
    pub(crate) fn lack_with(&self, v: u16) -> i64 {
        let vehicles = self.vehicles(self.load_with(v));
        let needed = vehicles.saturating_mul(self.flow.whole);
        needed.saturating_sub(self.inflow_with(v))
    }

    /// How much is lacking of what the set needs.
    pub(crate) fn lack(&self) -> i64 {
        let needed = self.vehicles(self.load).saturating_mul(self.flow.whole);
        needed.saturating_sub(self.inflow)
    }

    /// The customer outside with whom most flows, if there is one.
    pub(crate) fn nearest(&self) -> Option<u16> {
        let outside = (1..self.flow.end()).filter(|v| !self.has(*v));
        outside.max_by_key(|v| (self.near(*v), u16::MAX - *v))
    }

    /// The customers, in increasing order.
    fn members(&self) -> Result<Vec<u16>, AllocError> {
        let mut members = Vec::new(self.alloc);
        for v in 1..self.flow.end() {
            if self.has(v) {
                members.push(v)?;
            }
        }
        Ok(members)
    }

    /// Notes the set where more than so much is lacking.
    pub(crate) fn note(&self, found: &mut Vec<FoundSet>, least: i64) -> Result<(), AllocError> {
        let lack = self.lack();
        if lack > least && self.size > 1 {
            found.push(FoundSet {
                members: self.members()?,
                need: self.vehicles(self.load).clamp(1, MOST_VEHICLES) as u32,
                lack,
            })?;
        }
        Ok(())
    }
}
