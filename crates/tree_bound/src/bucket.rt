//! The labels of one load.

ghost use Rattle.std.specs.Prelude.{◌≡◌, ◌<◌, ◌≤◌, length, [], true, IfOk, IsTrue, IsFalse};
ghost use Rattle.row_charges.specs.Rows.{rows_of};
ghost use Rattle.tree_bound.specs.Labels.{IsDominated, IsThinned, IsPut, IsEntered};

use crate::label::Label;
use leaf_arcs::is_subset;
use row_charges::RowTable;
use std::alloc::{AllocError, Global};
use std::marker::Model;

/// No index.
const NONE: usize = usize::MAX;

/// Whether the label at an index stands and dominates another one.
fn dominates_at(rows: &RowTable<'_>, labels: &[Label], index: usize, label: &Label) -> bool
    ensures { IsTrue result → IsDominated (rows_of rows.now.rows.items) labels.now label.now }
{
    if index >= labels.len() {
        return false;
    }
    let found = &labels[index];
    found.active && found.dominates(rows, label)
}

/// Drops the label at an index if it stands and is dominated, and says whether.
fn drop_at(rows: &RowTable<'_>, labels: &mut [Label], index: usize, label: &Label) -> bool
    ensures { IsThinned (rows_of rows.now.rows.items) labels.old labels.new label.now }
{
    if index >= labels.len() {
        return false;
    }
    let found = labels[index];
    if !found.active || !label.dominates(rows, &found) {
        return false;
    }
    labels[index].active = false;
    true
}

/// Puts a label at an index where none stands, if that is one, and says whether.
fn put_at(labels: &mut [Label], index: usize, label: &Label) -> bool
    ensures put { IsTrue result → IsPut labels.old labels.new label.now }
    ensures none { IsFalse result → labels.new ≡ labels.old }
{
    if index >= labels.len() || labels[index].active {
        return false;
    }
    labels[index] = *label;
    true
}

/// A label, by what it is looked up.
#[derive(Clone, Copy)]
struct Entry {
    cost: i64,
    time: u64,
    memory: u16,
    index: usize,
}

/// How many entries cost less.
fn cheaper_count(entries: &[Entry], cost: i64) -> usize
    ensures { result ≤ length entries.now }
{
    entries.partition_point(|entry| entry.cost < cost)
}

/// Whether one of the entries with the same last customer is that of a label that dominates another one. No label
/// is looked at that costs more.
fn dominates_in(rows: &RowTable<'_>, labels: &[Label], entries: &[Entry], label: &Label) -> bool
    ensures { IsTrue result → IsDominated (rows_of rows.now.rows.items) labels.now label.now }
{
    for entry in entries {
        if entry.cost > label.cost {
            break;
        }
        if entry.time <= label.time
            && is_subset(entry.memory, label.memory)
            && dominates_at(rows, labels, entry.index, label)
        {
            return true;
        }
    }
    false
}

/// Drops the labels that another one with the same last customer dominates, and says how many. A free
/// index is where the last of them stood.
fn drop_from(
    rows: &RowTable<'_>,
    labels: &mut [Label],
    entries: &mut Vec<Entry>,
    free: &mut usize,
    label: &Label,
) -> usize
    ensures { IsThinned (rows_of rows.now.rows.items) labels.old labels.new label.now }
{
    let mut dropped: usize = 0;
    let mut at = cheaper_count(entries.as_slice(), label.cost);
    for _turn in at..entries.len() {
        if at >= entries.len() {
            break;
        }
        let entry = entries[at];
        if entry.time < label.time || !is_subset(label.memory, entry.memory) {
            at += 1;
        } else if drop_at(rows, labels, entry.index, label) {
            entries.remove(at);
            dropped = dropped.saturating_add(1);
            *free = entry.index;
        } else {
            at += 1;
        }
    }
    dropped
}

/// The labels with one last customer, the cheapest first.
#[derive(Drop)]
struct Group {
    customer: u16,
    entries: Vec<Entry>,
}

/// Where the group of a customer is, or should be.
fn place_of(groups: &[Group], customer: u16) -> usize
    ensures { result ≤ length groups.now }
{
    groups.partition_point(|found| found.customer < customer)
}

/// Labels, looked up by last customer. Contracts see them as a list; how they are looked up carries no
/// proof, since what a lookup finds is held against the labels themselves.
#[derive(Drop)]
pub(crate) struct Bucket {
    labels: Vec<Label>,
    /// In order of customers.
    groups: Vec<Group>,
    /// An index at which no label stands, where one is known.
    free: usize,
}

impl Model for Bucket {
    ghost use Rattle.std.specs.Prelude.{List};
    ghost use Rattle.tree_bound.specs.declared.label.Label.{Label};

    ghost Value = { List Label };

    ghost view = { λ b. b.labels.items };
}

impl Bucket {
    /// The bucket without labels. It takes no memory.
    pub(crate) fn new(alloc: Global) -> Bucket
        ensures { result ≡ [] }
    {
        Bucket {
            labels: Vec::new(alloc),
            groups: Vec::new(alloc),
            free: NONE,
        }
    }

    /// The labels, also those that don't stand any more.
    pub(crate) fn labels(&self) -> &[Label]
        ensures { result.now ≡ self.now }
    {
        self.labels.as_slice()
    }

    /// Whether a label that stands dominates another one, as far as the group of its customer tells.
    pub(crate) fn dominates(&self, rows: &RowTable<'_>, label: &Label) -> bool
        ensures { IsTrue result → IsDominated (rows_of rows.now.rows.items) self.now label.now }
    {
        let place = place_of(self.groups.as_slice(), label.customer);
        if place >= self.groups.len() {
            return false;
        }
        let entries = self.groups[place].entries.as_slice();
        dominates_in(rows, self.labels.as_slice(), entries, label)
    }

    /// Drops the labels that another one dominates, as far as the group at a place tells, and says how many.
    fn drop_dominated(&mut self, rows: &RowTable<'_>, place: usize, label: &Label) -> usize
        ensures { IsThinned (rows_of rows.now.rows.items) self.old self.new label.now }
    {
        if place >= self.groups.len() {
            return 0;
        }
        drop_from(
            rows,
            self.labels.as_mut_slice(),
            &mut self.groups[place].entries,
            &mut self.free,
            label,
        )
    }

    /// Enters a label's index into the group of its customer, which is at a place or should be.
    fn enter(
        &mut self,
        alloc: Global,
        place: usize,
        label: &Label,
        index: usize,
    ) -> Result<(), AllocError>
        ensures { IfOk result (λ _. self.new ≡ self.old) }
    {
        let customer = label.customer;
        let place = place.min(self.groups.len());
        if place >= self.groups.len() || self.groups[place].customer != customer {
            let entries = Vec::new(alloc);
            self.groups.insert(place, Group { customer, entries })?;
        }
        let (cost, time, memory) = (label.cost, label.time, label.memory);
        let entries = &mut self.groups[place].entries;
        let at = cheaper_count(entries.as_slice(), cost);
        entries.insert(
            at,
            Entry {
                cost,
                time,
                memory,
                index,
            },
        )?;
        Ok(())
    }

    /// Puts a label at the free index, or behind all others, and says where.
    fn put_label(&mut self, label: &Label) -> Result<usize, AllocError>
        ensures { IfOk result (λ _. IsPut self.old self.new label.now) }
    {
        let index = self.free;
        if put_at(self.labels.as_mut_slice(), index, label) {
            return Ok(index);
        }
        let index = self.labels.len();
        self.labels.push(*label)?;
        Ok(index)
    }

    /// Puts a label in, drops those that it dominates, and says how many.
    pub(crate) fn keep(
        &mut self,
        alloc: Global,
        rows: &RowTable<'_>,
        label: &Label,
    ) -> Result<usize, AllocError>
        requires active { label.now.active ≡ true }
        ensures { IfOk result (λ _. IsEntered (rows_of rows.now.rows.items) self.old self.new label.now) }
    {
        let place = place_of(self.groups.as_slice(), label.customer);
        let dropped = self.drop_dominated(rows, place, label);
        let index = self.put_label(label)?;
        self.enter(alloc, place, label, index)?;
        Ok(dropped)
    }
}
