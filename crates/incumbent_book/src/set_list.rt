//! The list of the sets that had a price at some leaf.

ghost use Rattle.std.specs.Prelude.{◌≡◌, ◌++◌, ◌≤◌, ◌∷◌, [], length, map, IfErr, OnOk, OnErr};
ghost use Rattle.std.specs.Bool.{Decides};
ghost use Rattle.solomon_reader.specs.SetPrices.{listed_of};
ghost use Rattle.priced_sets.specs.Sets.{set_of, sets_of, listed_set};
ghost use Rattle.incumbent_book.specs.declared.fault.BookFault.TheVariants.{Memory};
ghost use Rattle.incumbent_book.specs.SetLists.{IsPlaceOf, IsGrown, IsUnlistedFor, Begins};

use crate::fault::BookFault;
use priced_sets::{ListedSet, PricedSet};

/// Whether both are one set with one need.
fn is_same(listed: &ListedSet, set: &PricedSet) -> bool
    ensures { Decides result (listed_set listed.now ≡ listed_of (set_of set.now)) }
{
    listed.need == set.need && listed.members.as_slice() == set.members.as_slice()
}

/// The place of a set in a list, from 0, or none where it doesn't stand there.
pub(crate) fn place_of(listed: &[ListedSet], set: &PricedSet) -> Option<usize>
    ensures { IsPlaceOf (listed_of (set_of set.now)) (map listed_set listed.now) result }
{
    for place in 0..listed.len() {
        if is_same(&listed[place], set) {
            return Some(place);
        }
    }
    None
}

/// Puts a copy of a set at the end, unless memory is refused.
fn put_in(listed: &mut Vec<ListedSet>, set: &PricedSet) -> Result<(), BookFault>
    ensures ok { OnOk result (map listed_set listed.new.items
        ≡ map listed_set listed.old.items ++ listed_of (set_of set.now) ∷ []) }
    ensures begins { Begins listed.old.items listed.new.items }
    ensures err { IfErr result (λ why. (why ≡ Memory) × (listed.new.items ≡ listed.old.items)) }
{
    let Ok(copy) = set.listed() else {
        return Err(BookFault::Memory);
    };
    match listed.push(copy) {
        Ok(()) => Ok(()),
        Err(_) => Err(BookFault::Memory),
    }
}

/// Lists a set where it isn't, as long as no more than `most` are.
fn add(listed: &mut Vec<ListedSet>, most: u32, set: &PricedSet) -> Result<(), BookFault>
    requires few { length (map listed_set listed.old.items) ≤ most }
    ensures ok { OnOk result (IsGrown most (set_of set.now ∷ [])
        (map listed_set listed.old.items) (map listed_set listed.new.items)) }
    ensures err { IfErr result (IsUnlistedFor most (set_of set.now ∷ []) (map listed_set listed.old.items)) }
    ensures begins { Begins listed.old.items listed.new.items }
{
    if place_of(listed.as_slice(), set).is_some() {
        return Ok(());
    }
    if listed.len() >= most as usize {
        return Err(BookFault::SetsFull);
    }
    put_in(listed, set)
}

/// Lists those of some sets that aren't, as long as no more than `most` are. At a refusal some may be listed.
fn gather(listed: &mut Vec<ListedSet>, most: u32, sets: &[PricedSet]) -> Result<(), BookFault>
    requires few { length (map listed_set listed.old.items) ≤ most }
    ensures ok { OnOk result (IsGrown most (sets_of sets.now)
        (map listed_set listed.old.items) (map listed_set listed.new.items)) }
    ensures err { IfErr result (IsUnlistedFor most (sets_of sets.now) (map listed_set listed.old.items)) }
    ensures begins { Begins listed.old.items listed.new.items }
{
    for set in sets {
        add(listed, most, set)?;
    }
    Ok(())
}

/// The same for two lists of sets.
fn gather_both(
    listed: &mut Vec<ListedSet>,
    most: u32,
    first: &[PricedSet],
    second: &[PricedSet],
) -> Result<(), BookFault>
    requires few { length (map listed_set listed.old.items) ≤ most }
    ensures ok { OnOk result (IsGrown most (sets_of first.now ++ sets_of second.now)
        (map listed_set listed.old.items) (map listed_set listed.new.items)) }
    ensures err { IfErr result (IsUnlistedFor most (sets_of first.now ++ sets_of second.now)
        (map listed_set listed.old.items)) }
    ensures begins { Begins listed.old.items listed.new.items }
{
    gather(listed, most, first)?;
    gather(listed, most, second)
}

/// Lists those of two lists of sets that aren't listed, as long as no more than `most` are. A refusal changes nothing.
pub(crate) fn list_sets(
    listed: &mut Vec<ListedSet>,
    most: u32,
    first: &[PricedSet],
    second: &[PricedSet],
) -> Result<(), BookFault>
    requires few { length (map listed_set listed.old.items) ≤ most }
    ensures ok { OnOk result (IsGrown most (sets_of first.now ++ sets_of second.now)
        (map listed_set listed.old.items) (map listed_set listed.new.items)) }
    ensures begins { OnOk result (Begins listed.old.items listed.new.items) }
    ensures err { IfErr result (λ why. IsUnlistedFor most (sets_of first.now ++ sets_of second.now)
        (map listed_set listed.old.items) why × (listed.new.items ≡ listed.old.items)) }
{
    let before = listed.len();
    match gather_both(listed, most, first, second) {
        Ok(()) => Ok(()),
        Err(fault) => {
            listed.truncate(before);
            Err(fault)
        }
    }
}
