//! Labels whose steps were taken, and which spare others some of theirs.

ghost use Rattle.std.specs.Prelude.{IfSome};
ghost use Rattle.std.specs.List.{All};
ghost use Rattle.labels.specs.Sparing.{HasRoomIn, IsSparingIn};

use crate::label::Label;
use completions::Completions;
use fronts::Memory;
use std::alloc::AllocError;

/// At most this many memories are kept.
const MOST_MEMORIES: usize = 4;

/// What the label at an index remembers, if its steps were taken, it is no later and no dearer than another one of
/// its customer, whatever rows charge it alone, and no heavier than a load with which there is room for all that the
/// other one may still load.
pub(crate) fn memory_of(
    completions: &Completions<'_, '_>,
    labels: &[Label],
    label: &Label,
    most: u32,
    index: usize,
) -> Option<Memory>
    requires { HasRoomIn completions.now label.now most }
    ensures { IfSome result (IsSparingIn completions.now labels.now label.now) }
{
    if index >= labels.len() {
        return None;
    }
    let other = labels[index];
    let task = completions.task;
    if !other.extended || !other.is_as_early_and_cheap(task, label) || other.front.load > most {
        return None;
    }
    Some(other.memory)
}

/// Which of some memories is to make room for a further one: one that holds all that this one does beside what a
/// label remembers, or where there are as many as are kept, the last one. No contract: each of them spares steps.
fn place_for(memories: &[Memory], label: &Label, memory: Memory) -> Option<usize> {
    let wider = memories
        .iter()
        .position(|other| memory.is_subset_beside(*other, label.memory));
    match wider {
        Some(place) => Some(place),
        None if memories.len() >= MOST_MEMORIES => Some(MOST_MEMORIES - 1),
        None => None,
    }
}

/// Keeps a further memory, maybe in place of another one. Bounds and labels are named by the contract alone.
pub(crate) fn keep(
    _completions: &Completions<'_, '_>,
    _labels: &[Label],
    memories: &mut Vec<Memory>,
    label: &Label,
    memory: Memory,
) -> Result<(), AllocError>
    requires so_far { All (IsSparingIn _completions.now _labels.now label.now) memories.old.items }
    requires memory { IsSparingIn _completions.now _labels.now label.now memory }
    ensures { All (IsSparingIn _completions.now _labels.now label.now) memories.new.items }
{
    match place_for(memories.as_slice(), label, memory) {
        Some(place) if place < memories.len() => {
            memories[place] = memory;
            Ok(())
        }
        _ => Ok(memories.push(memory)?),
    }
}
