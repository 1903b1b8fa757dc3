//! Small sets that no vehicle can serve in time.

ghost use Rattle.std.specs.Prelude.{◌≡◌};

use crate::clusters::hash_of;
use crate::order_check::{are_apart, is_in_time};
use priced_sets::NeededSets;
use solomon_reader::Instance;
use std::alloc::{AllocError, Global};

/// A set that was asked about.
#[derive(Drop)]
struct Asked {
    hash: u64,
    members: Vec<u16>,
    /// Whether no vehicle can serve it in time.
    needs_two: bool,
}

/// Which small sets one vehicle can serve in time, as far as it was asked.
#[derive(Drop)]
pub(crate) struct TimedSets {
    alloc: Global,
    /// By their hashes.
    asked: Vec<Asked>,
}

/// An answer, and how much work it was.
#[derive(Clone, Copy)]
pub(crate) struct TimedAnswer {
    pub(crate) needs_two: bool,
    pub(crate) work: u64,
}

impl TimedSets {
    pub(crate) fn new(alloc: Global) -> TimedSets {
        TimedSets {
            alloc,
            asked: Vec::new(alloc),
        }
    }

    /// What is seen at once.
    fn seen(
        &self,
        instance: &Instance,
        needed: &NeededSets<'_>,
        members: &[u16],
    ) -> Result<Option<bool>, AllocError>
        requires { needed.now ≡ instance.now }
    {
        if are_apart(instance, needed.ways(), members) {
            return Ok(Some(true));
        }
        let mut order = Vec::from_slice(self.alloc, members)?;
        let last = instance.customer_count();
        order.sort_by_key(|i| if *i <= last { instance.due(*i) } else { 0 })?;
        let is_served = is_in_time(instance, needed.ways(), order.as_slice());
        Ok(if is_served { Some(false) } else { None })
    }

    /// Whether no vehicle can serve these in time.
    pub(crate) fn needs_two(
        &mut self,
        needed: &mut NeededSets<'_>,
        members: &[u16],
    ) -> Result<TimedAnswer, AllocError> {
        let instance = needed.instance();
        let count = members.len() as u64;
        if let Some(needs_two) = self.seen(instance, needed, members)? {
            let work = count.saturating_mul(2);
            return Ok(TimedAnswer { needs_two, work });
        }
        let hash = hash_of(members);
        let place = self.asked.partition_point(|asked| asked.hash < hash);
        if let Some(asked) = self.asked.get(place) {
            if asked.members.as_slice() == members {
                let needs_two = asked.needs_two;
                return Ok(TimedAnswer { needs_two, work: 1 });
            }
        }
        let needs_two = needed.is_needed(members, 2)?;
        let members = Vec::from_slice(self.alloc, members)?;
        let asked = Asked {
            hash,
            members,
            needs_two,
        };
        self.asked.insert(place, asked)?;
        let subsets = 1u64 << count.min(20);
        let work = subsets.saturating_mul(count).saturating_mul(count) / 8;
        Ok(TimedAnswer { needs_two, work })
    }
}
