//! Whether few customers can be served in time, as far as it is seen at once.

ghost use Rattle.std.specs.Prelude.{◌≡◌};

use set_needs::QuickestWays;
use solomon_reader::Instance;

/// How long the quickest way between two rows takes, in tenths.
fn way(instance: &Instance, ways: &QuickestWays<'_>, i: u16, j: u16) -> u64
    requires { ways.now ≡ instance.now }
{
    let last = instance.customer_count();
    if i > last || j > last {
        return 0;
    }
    u64::from(ways.get(i, j))
}

/// When a vehicle can leave a customer to whom it comes at a time, if it isn't too late, in tenths.
fn leaves(instance: &Instance, customer: u16, arrives: u64) -> Option<u64> {
    if customer > instance.customer_count() {
        return None;
    }
    let begins = arrives.max(instance.ready(customer));
    if begins > instance.due(customer) {
        return None;
    }
    Some(begins.saturating_add(instance.service(customer)))
}

/// Whether customers can be served in this order in time.
pub(crate) fn is_in_time(instance: &Instance, ways: &QuickestWays<'_>, order: &[u16]) -> bool
    requires { ways.now ≡ instance.now }
{
    instance.law_of_limits();
    let (mut from, mut time) = (0, instance.ready(0));
    for stop in order {
        let arrives = time.saturating_add(way(instance, ways, from, *stop));
        let Some(left) = leaves(instance, *stop, arrives) else {
            return false;
        };
        (from, time) = (*stop, left);
    }
    time.saturating_add(way(instance, ways, from, 0)) <= instance.due(0)
}

/// Whether one customer can be served in time after another one.
fn may_follow(instance: &Instance, ways: &QuickestWays<'_>, i: u16, j: u16) -> bool
    requires { ways.now ≡ instance.now }
{
    instance.law_of_limits();
    let arrives = instance.ready(0).saturating_add(way(instance, ways, 0, i));
    let Some(left) = leaves(instance, i, arrives) else {
        return false;
    };
    let arrives = left.saturating_add(way(instance, ways, i, j));
    leaves(instance, j, arrives).is_some()
}

/// Whether a customer and one of these can be served in neither order.
fn is_apart(instance: &Instance, ways: &QuickestWays<'_>, i: u16, members: &[u16]) -> bool
    requires { ways.now ≡ instance.now }
{
    for j in members {
        let is_one = i == *j || may_follow(instance, ways, i, *j);
        if !is_one && !may_follow(instance, ways, *j, i) {
            return true;
        }
    }
    false
}

/// Whether two of these can be served in neither order.
pub(crate) fn are_apart(instance: &Instance, ways: &QuickestWays<'_>, members: &[u16]) -> bool
    requires { ways.now ≡ instance.now }
{
    for i in members {
        if is_apart(instance, ways, *i, members) {
            return true;
        }
    }
    false
}
