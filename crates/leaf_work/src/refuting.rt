//! Prices that rule out every plan, for a reason that plain arithmetic tells.

ghost use Rattle.std.specs.Prelude.{◌≡◌, ◌<◌, ◌≤◌, [], pos, length, IfOk, IfSome};
ghost use Rattle.std.specs.List.{AllByRecursion};
ghost use Rattle.solomon_reader.specs.Problem.{customer_count};
ghost use Rattle.solomon_reader.specs.CertificateText.{IsPrice};
ghost use Rattle.solomon_reader.specs.declared.limits.TheConstants.{MOST_NEIGHBOURS};
ghost use Rattle.priced_sets.specs.Sets.{IsWithin};
ghost use Rattle.leaf_work.specs.FirstLeaf.{IsRefutedRoot, IsRoot};

use crate::first::FirstLimits;
use crate::pricing::price_alone;
use crate::starting::higher_at;
use branching::Region;
use fronts::Nearness;
use labelling::PricingTask;
use priced_sets::{NeededSets, PricedSet, PricedSets};
use prices::{Priced, high_price};
use schedule::walk;
use solomon_reader::{Instance, MOST_PRICE};
use std::alloc::{AllocError, Global};

/// Whether the vehicles together don't carry what all customers demand.
fn is_overloaded(instance: &Instance) -> bool {
    u32::from(instance.fleet()) < instance.fewest_routes()
}

/// A price for one customer, and 0 for the others. It is so high that no plan costs as much.
fn prices_of_one(alloc: Global, instance: &Instance, customer: u16) -> Result<Vec<i64>, AllocError>
    ensures count { IfOk result (λ v. length v.items ≡ customer_count instance.now) }
    ensures in_range { IfOk result (λ v. AllByRecursion IsPrice v.items) }
{
    let mut prices = Vec::new(alloc);
    for other in 1..instance.customer_count() + 1 {
        let price = if other == customer {
            high_price(instance)
        } else {
            0
        };
        prices.push(price)?;
    }
    Ok(prices)
}

/// All customers, in order.
fn all_customers(alloc: Global, instance: &Instance) -> Result<Vec<u16>, AllocError> {
    let mut customers = Vec::new(alloc);
    for customer in 1..instance.customer_count() + 1 {
        customers.push(customer)?;
    }
    Ok(customers)
}

/// The set of all customers with a high price, if the vehicles don't carry what they demand together: each route
/// enters it once, and it needs one entry more than there are vehicles.
fn set_of_all<'i>(alloc: Global, instance: &'i Instance) -> Result<PricedSets<'i>, AllocError>
    ensures problem { IfOk result (λ s. s.problem ≡ instance.now) }
    ensures one { IfOk result (λ s. length s.sets ≤ 1) }
{
    let all = PricedSet {
        members: all_customers(alloc, instance)?,
        need: u32::from(instance.fleet()) + 1,
        price: high_price(instance).unsigned_abs(),
    };
    let mut needed = NeededSets::new(alloc, instance)?;
    PricedSets::of(alloc, instance, &mut needed, &[all])
}

/// The root with these prices of customers and sets; nothing where memory or labels don't suffice. The tables of the
/// instance are lent.
#[tactic(auto, using(labelling::proofs::Paying::priced_within, labelling::proofs::Paying::within_alone, labelling::proofs::Paying::no_rows_priced))]
fn root_at<'i>(
    alloc: Global,
    nearness: &Nearness<'_>,
    neighbours: u32,
    prices: Vec<i64>,
    sets: PricedSets<'i>,
    labels: Option<usize>,
) -> Option<Priced<'i>>
    requires few { neighbours ≤ MOST_NEIGHBOURS }
    requires count { length prices.items ≡ customer_count sets.problem }
    requires in_range { AllByRecursion (IsWithin sets.sets) prices.items }
    ensures root { IfSome result (IsRoot sets.entry.problem neighbours) }
    ensures sets { IfSome result (λ f. f.sets ≡ sets.entry.sets) }
    ensures rows { IfSome result (λ f. f.rows ≡ []) }
{
    let instance = sets.instance();
    let task = PricingTask {
        instance,
        region: Region::root(alloc, instance.customer_count()),
        neighbours,
        prices,
        sets,
        rows: Vec::new(alloc),
    };
    price_alone(alloc, nearness, task, labels).ok()
}

/// The root with these prices, where their value is above the cost of every plan. The tables of the instance are lent.
fn refuted_at<'i>(
    alloc: Global,
    nearness: &Nearness<'_>,
    neighbours: u32,
    prices: Vec<i64>,
    sets: PricedSets<'i>,
    labels: Option<usize>,
) -> Option<Priced<'i>>
    requires few { neighbours ≤ MOST_NEIGHBOURS }
    requires count { length prices.items ≡ customer_count sets.problem }
    requires in_range { AllByRecursion (IsWithin sets.sets) prices.items }
    ensures { IfSome result (IsRefutedRoot sets.entry.problem neighbours (length sets.entry.sets)) }
{
    let ceiling = sets.instance().ceiling();
    let root = root_at(alloc, nearness, neighbours, prices, sets, labels)?;
    if root.tenths() > u128::from(ceiling.get()) {
        Some(root)
    } else {
        None
    }
}

/// The root with prices by which no vehicle serves some customer, not alone and not over others.
fn refuted_by_one<'i>(
    alloc: Global,
    nearness: &Nearness<'_>,
    instance: &'i Instance,
    neighbours: u32,
    labels: Option<usize>,
) -> Option<Priced<'i>>
    requires { neighbours ≤ MOST_NEIGHBOURS }
    ensures { IfSome result (IsRefutedRoot instance.now neighbours 0) }
{
    for customer in 1..instance.customer_count() + 1 {
        if walk(instance, &[customer]).is_some() {
            continue;
        }
        let prices = prices_of_one(alloc, instance, customer).ok()?;
        let none = PricedSets::none(alloc, instance);
        let root = refuted_at(alloc, nearness, neighbours, prices, none, labels);
        if root.is_some() {
            return root;
        }
    }
    None
}

/// A price of zero for each customer.
fn zero_prices(alloc: Global, instance: &Instance) -> Result<Vec<i64>, AllocError>
    ensures count { IfOk result (λ v. length v.items ≡ customer_count instance.now) }
    ensures zero { IfOk result (λ v. AllByRecursion (λ z. z ≡ pos 0) v.items) }
{
    Ok(vec![in alloc; 0; instance.customer_count() as usize]?)
}

/// The root with prices by which the vehicles don't carry all demands.
fn refuted_by_loads<'i>(
    alloc: Global,
    nearness: &Nearness<'_>,
    instance: &'i Instance,
    neighbours: u32,
    labels: Option<usize>,
) -> Option<Priced<'i>>
    requires { neighbours ≤ MOST_NEIGHBOURS }
    ensures { IfSome result (IsRefutedRoot instance.now neighbours 1) }
{
    if !is_overloaded(instance) {
        return None;
    }
    let sets = set_of_all(alloc, instance).ok()?;
    let prices = zero_prices(alloc, instance).ok()?;
    // their prices are within range
    let _sets = sets.as_slice();
    refuted_at(alloc, nearness, neighbours, prices, sets, labels)
}

/// The root with prices whose value is above the cost of every plan, where plain arithmetic says why there is none: no
/// vehicle can serve some customer, or, where a set may have a price, all vehicles together don't carry what the
/// customers demand. Nothing where memory or labels don't suffice. The tables of the instance are lent.
pub(crate) fn refuted_root<'i>(
    alloc: Global,
    nearness: &Nearness<'_>,
    instance: &'i Instance,
    neighbours: u32,
    limits: FirstLimits,
) -> Option<Priced<'i>>
    requires { neighbours ≤ MOST_NEIGHBOURS }
    ensures { IfSome result (IsRefutedRoot instance.now neighbours limits.sets) }
{
    let by_one = refuted_by_one(alloc, nearness, instance, neighbours, limits.labels);
    if by_one.is_some() || limits.sets == 0 {
        return by_one;
    }
    refuted_by_loads(alloc, nearness, instance, neighbours, limits.labels)
}

/// A customer's price in grains, by which a fleet that is too small for the demands lifts the value: each unit of
/// demand has a price, and one unit at least is never served.
fn price_of_demand(instance: &Instance, customer: u16) -> i64
    requires { customer < length instance.now.rows }
    ensures { IsPrice result }
{
    let most = MOST_PRICE as i64;
    let unit = high_price(instance).min(most / i64::from(instance.capacity()));
    let price = unit.saturating_mul(i64::from(instance.demand(customer)));
    price.clamp(0, most)
}

/// The prices of all customers by their demands.
fn prices_of_demands(alloc: Global, instance: &Instance) -> Result<Vec<i64>, AllocError>
    ensures count { IfOk result (λ v. length v.items ≡ customer_count instance.now) }
    ensures in_range { IfOk result (λ v. AllByRecursion IsPrice v.items) }
{
    let mut prices = Vec::new(alloc);
    for customer in 1..instance.customer_count() + 1 {
        prices.push(price_of_demand(instance, customer))?;
    }
    Ok(prices)
}

/// The root with prices by which the vehicles don't carry all demands, where no set may have one and their value is
/// higher; else the root as it is, also where memory or labels don't suffice. The tables of the instance are lent.
pub(crate) fn start_by_demands<'i>(
    alloc: Global,
    nearness: &Nearness<'_>,
    root: Priced<'i>,
    labels: Option<usize>,
) -> Priced<'i>
    ensures problem { result.problem ≡ root.entry.problem }
    ensures region { result.region ≡ root.entry.region }
    ensures neighbours { result.neighbours ≡ root.entry.neighbours }
    ensures not_lower { root.entry.value ≤ result.value }
    ensures no_sets { root.entry.sets ≡ [] → result.sets ≡ [] }
    ensures no_rows { root.entry.rows ≡ [] → result.rows ≡ [] }
{
    let instance = root.instance();
    if !is_overloaded(instance) {
        return root;
    }
    match prices_of_demands(alloc, instance) {
        Ok(prices) => higher_at(alloc, nearness, root, prices, labels),
        Err(_) => root,
    }
}
