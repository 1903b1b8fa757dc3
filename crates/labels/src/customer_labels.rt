//! The labels of one customer, to find those that dominate another one. What is found is held against
//! the labels themselves.

ghost use Rattle.std.specs.Prelude.{IsTrue, IfOk};
ghost use Rattle.std.specs.List.{All};
ghost use Rattle.labels.specs.Sparing.{HasRoomIn, IsSparingIn};
ghost use Rattle.labels.specs.Domination.{IsDominatedIn, IsPrunedIn};

use crate::label::Label;
use crate::sparing::{keep, memory_of};
use completions::Completions;
use fronts::{Memory, Task};
use std::alloc::{AllocError, Global};

/// This many labels of a group, which stand side by side, are one unit of work.
const LABELS_OF_UNIT: u64 = 4;

/// A label, by what it dominates others of its customer with.
#[derive(Clone, Copy)]
pub struct Entry {
    memory: Memory,
    time: u64,
    cost: i64,
    load: u32,
    /// The greatest load with which another label may dominate it.
    most: u32,
    index: usize,
}

impl Entry {
    /// The entry of a label, which stands at an index, and which another one of this load may dominate
    /// even where it is lighter.
    /// No contract: it decides only how fast a search is.
    pub fn new(label: &Label, load: u32, index: usize) -> Entry {
        Entry {
            memory: label.memory,
            time: label.front.time,
            cost: label.front.cost,
            load: label.front.load,
            most: load.max(label.front.load),
            index,
        }
    }

    /// Whether it may dominate another one that remembers no less, what rows charge left aside. All three are
    /// compared without a branch: mostly one of them fails, and which one cannot be foreseen.
    fn may_dominate(&self, other: &Entry) -> bool {
        (self.time <= other.time) & (self.cost <= other.cost) & (self.load <= other.most)
    }
}

/// The labels of one customer with one memory, in order of time.
#[derive(Drop)]
struct MemoryGroup {
    memory: Memory,
    least_time: u64,
    least_cost: i64,
    latest_time: u64,
    greatest_cost: i64,
    entries: Vec<Entry>,
}

impl MemoryGroup {
    /// The group of an entry, still without it.
    fn new(alloc: Global, entry: &Entry) -> MemoryGroup {
        MemoryGroup {
            memory: entry.memory,
            least_time: entry.time,
            least_cost: entry.cost,
            latest_time: entry.time,
            greatest_cost: entry.cost,
            entries: Vec::new(alloc),
        }
    }

    /// Makes it the group of an entry, still without it.
    fn begin(&mut self, entry: &Entry) {
        self.memory = entry.memory;
        self.least_time = entry.time;
        self.least_cost = entry.cost;
        self.latest_time = entry.time;
        self.greatest_cost = entry.cost;
        self.entries.clear();
    }

    /// Whether one of its labels may dominate a newer one. All three are compared without a branch, as
    /// in `may_dominate`.
    fn may_dominate(&self, newer: &Entry) -> bool {
        self.memory.is_subset(newer.memory)
            & (self.least_time <= newer.time)
            & (self.least_cost <= newer.cost)
    }

    /// Whether one of its labels may spare another one steps that none of these memories does.
    fn may_spare(&self, other: &Entry, memories: &[Memory]) -> bool {
        (self.least_time <= other.time) & (self.least_cost <= other.cost)
            && !memories.iter().any(|memory| memory.is_subset_beside(self.memory, other.memory))
    }

    /// Whether one of its labels dominates a newer one, and how many of them were looked at. Where rows charge, one
    /// that is no later, dearer or heavier may owe too much, and another one not.
    fn has_dominating(
        &self,
        completions: &Completions<'_, '_>,
        labels: &[Label],
        label: &Label,
        newer: &Entry,
    ) -> (bool, usize)
        ensures { IsTrue result.0 → IsDominatedIn completions.now labels.now label.now }
    {
        if !self.may_dominate(newer) {
            return (false, 0);
        }
        for (place, entry) in self.entries.iter().enumerate() {
            if entry.time > newer.time {
                return (false, place);
            }
            if entry.may_dominate(newer) && dominates_at(completions, labels, entry.index, label) {
                return (true, place);
            }
        }
        (false, self.entries.len())
    }

    /// The index of a label whose steps were taken and that is no later, dearer or heavier than another one has to
    /// be.
    fn find_extended(
        &self,
        task: &Task<'_>,
        labels: &[Label],
        label: &Label,
        other: &Entry,
    ) -> Option<usize> {
        for entry in &self.entries {
            if entry.time > other.time {
                return None;
            }
            let index = entry.index;
            if entry.may_dominate(other)
                && is_extended(labels, index)
                && is_no_dearer(task, labels, index, label)
            {
                return Some(index);
            }
        }
        None
    }

    /// Whether a newer label may dominate one of its labels.
    fn may_be_dominated(&self, newer: &Entry) -> bool {
        newer.memory.is_subset(self.memory)
            & (newer.time <= self.latest_time)
            & (newer.cost <= self.greatest_cost)
    }

    /// Drops those of its labels that a newer one dominates, and says how many.
    fn drop_dominated(
        &mut self,
        completions: &Completions<'_, '_>,
        labels: &mut [Label],
        label: &Label,
        newer: &Entry,
    ) -> usize
        ensures { IsPrunedIn completions.now labels.old labels.new label.now }
    {
        if !self.may_be_dominated(newer) {
            return 0;
        }
        let entries = self.entries.as_slice();
        let start = entries.partition_point(|entry| entry.time < newer.time);
        let later = &entries[start..];
        if !later.iter().any(|entry| newer.may_dominate(entry)) {
            return 0;
        }
        if drop_each(completions, labels, later, label, newer) == 0 {
            return 0;
        }
        let before = self.entries.len();
        self.entries.retain(|entry| is_active(labels, entry.index));
        before - self.entries.len()
    }

    /// Adds an entry.
    fn add(&mut self, entry: &Entry) -> Result<(), AllocError> {
        let entries = self.entries.as_slice();
        let start = entries.partition_point(|other| other.time < entry.time);
        self.entries.insert(start, *entry)?;
        self.least_time = self.least_time.min(entry.time);
        self.least_cost = self.least_cost.min(entry.cost);
        self.latest_time = self.latest_time.max(entry.time);
        self.greatest_cost = self.greatest_cost.max(entry.cost);
        Ok(())
    }
}

/// Whether the label at an index is active and dominates a newer one.
fn dominates_at(
    completions: &Completions<'_, '_>,
    labels: &[Label],
    index: usize,
    newer: &Label,
) -> bool
    ensures { IsTrue result → IsDominatedIn completions.now labels.now newer.now }
{
    if index >= labels.len() {
        return false;
    }
    let label = &labels[index];
    label.active && label.dominates(completions, newer)
}

/// Whether the steps of the label at an index were taken.
fn is_extended(labels: &[Label], index: usize) -> bool {
    index < labels.len() && labels[index].extended
}

/// Whether the label at an index is no dearer than another one, whatever rows charge it alone.
fn is_no_dearer(task: &Task<'_>, labels: &[Label], index: usize, label: &Label) -> bool {
    index < labels.len() && labels[index].is_as_cheap(task, label)
}

/// Whether the label at an index is active.
fn is_active(labels: &[Label], index: usize) -> bool {
    index < labels.len() && labels[index].active
}

/// Drops the label of an entry, if a newer one dominates it, and says whether it does.
fn drop_if_dominated(
    completions: &Completions<'_, '_>,
    labels: &mut [Label],
    entry: &Entry,
    label: &Label,
    newer: &Entry,
) -> bool
    ensures { IsPrunedIn completions.now labels.old labels.new label.now }
{
    let index = entry.index;
    if !newer.may_dominate(entry) || index >= labels.len() {
        return false;
    }
    if !label.dominates(completions, &labels[index]) {
        return false;
    }
    labels[index].active = false;
    true
}

/// Drops those labels of some entries that a newer one dominates, and says how many.
fn drop_each(
    completions: &Completions<'_, '_>,
    labels: &mut [Label],
    entries: &[Entry],
    label: &Label,
    newer: &Entry,
) -> usize
    ensures { IsPrunedIn completions.now labels.old labels.new label.now }
{
    let mut dropped: usize = 0;
    for entry in entries {
        if drop_if_dominated(completions, labels, entry, label, newer) {
            dropped = dropped.saturating_add(1);
        }
    }
    dropped
}

/// The labels of one customer: first those with the memory by which one dominated another last.
#[derive(Drop)]
pub(crate) struct CustomerLabels {
    groups: Vec<MemoryGroup>,
    /// Groups of an earlier search, whose memory serves again.
    spare: Vec<MemoryGroup>,
    /// How often newer labels looked at groups, and at labels of them.
    work: u64,
}

impl CustomerLabels {
    /// No labels.
    pub(crate) fn new(alloc: Global) -> CustomerLabels {
        CustomerLabels {
            groups: Vec::new(alloc),
            spare: Vec::new(alloc),
            work: 0,
        }
    }

    /// Drops all labels, and begins another search.
    pub(crate) fn clear(&mut self) -> Result<(), AllocError> {
        self.work = 0;
        for _ in 0..self.groups.len() {
            if let Some(group) = self.groups.pop() {
                self.spare.push(group)?;
            }
        }
        Ok(())
    }

    /// How often newer labels looked at groups, and at labels of them.
    pub(crate) fn work(&self) -> u64 {
        self.work
    }

    /// Whether an active label dominates a newer one.
    pub(crate) fn is_dominated(
        &mut self,
        completions: &Completions<'_, '_>,
        labels: &[Label],
        label: &Label,
        newer: &Entry,
    ) -> bool
        ensures { IsTrue result → IsDominatedIn completions.now labels.now label.now }
    {
        for place in 0..self.groups.len() {
            let (found, labels_met) = self.groups[place].has_dominating(
                completions,
                labels,
                label,
                newer,
            );
            let work = 1 + labels_met as u64 / LABELS_OF_UNIT;
            self.work = self.work.saturating_add(work);
            if found {
                self.groups.as_mut_slice().swap(0, place);
                return true;
            }
        }
        false
    }

    /// Memories that spare a label some of its steps.
    pub(crate) fn sparing(
        &mut self,
        completions: &Completions<'_, '_>,
        labels: &[Label],
        label: &Label,
        most: u32,
    ) -> Result<Vec<Memory>, AllocError>
        requires { HasRoomIn completions.now label.now most }
        ensures { IfOk result (λ memories. All (IsSparingIn completions.now labels.now label.now)
            memories.items) }
    {
        let entry = Entry::new(label, most, usize::MAX);
        let mut memories = Vec::new(completions.task.alloc);
        for group in &self.groups {
            if !group.may_spare(&entry, memories.as_slice()) {
                continue;
            }
            if let Some(index) = group.find_extended(completions.task, labels, label, &entry)
                && let Some(memory) = memory_of(completions, labels, label, most, index)
            {
                keep(completions, labels, &mut memories, label, memory)?;
            }
        }
        let work = 1 + self.groups.len() as u64 / LABELS_OF_UNIT;
        self.work = self.work.saturating_add(work);
        Ok(memories)
    }

    /// Drops the labels that a newer one dominates, and says how many.
    pub(crate) fn drop_dominated(
        &mut self,
        completions: &Completions<'_, '_>,
        labels: &mut [Label],
        label: &Label,
        newer: &Entry,
    ) -> usize
        ensures { IsPrunedIn completions.now labels.old labels.new label.now }
    {
        let mut dropped: usize = 0;
        for group in &mut self.groups {
            let count = group.drop_dominated(completions, labels, label, newer);
            dropped = dropped.saturating_add(count);
        }
        dropped
    }

    /// Adds an entry.
    pub(crate) fn add(&mut self, alloc: Global, entry: &Entry) -> Result<(), AllocError> {
        let memory = entry.memory;
        if let Some(m) = self.groups.iter().position(|g| g.memory.is_same(memory)) {
            return self.groups[m].add(entry);
        }
        let mut group = match self.spare.pop() {
            Some(mut spare) => {
                spare.begin(entry);
                spare
            }
            None => MemoryGroup::new(alloc, entry),
        };
        group.add(entry)?;
        self.groups.push(group)?;
        Ok(())
    }
}
