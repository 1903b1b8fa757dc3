//! The customers that are likely to follow on each row.

ghost use Rattle.std.specs.Prelude.{◌<◌, length};

use crate::width::Width;
use fronts::Task;
use solomon_reader::Instance;
use std::alloc::{AllocError, Global};

/// The grains of a tenth.
const GRAINS_OF_TENTH: i64 = 1_000;

/// A wait counts as a way of this part of it: it costs nothing but time.
const WAIT_PART: u64 = 16;

/// Tenths in grains.
pub(crate) fn grains(tenths: u64) -> i64 {
    tenths.cast_signed().saturating_mul(GRAINS_OF_TENTH)
}

/// A step from a row to a customer.
#[derive(Clone, Copy)]
pub(crate) struct LikelyStep {
    /// The latest time at which a vehicle may leave for the customer, in tenths.
    pub(crate) latest: u64,
    /// How long the way is, in tenths.
    way: u64,
    /// When service may begin, and how long it is, in tenths.
    ready: u64,
    service: u64,
    /// What the way takes, and a part of what the wait does in the best case, in grains.
    far: i64,
    /// What the step adds to the reduced cost at the prices chosen last, in grains.
    pub(crate) cost: i64,
    pub(crate) customer: u16,
    pub(crate) demand: u32,
    /// The customer's place in the neighbour list of the row.
    pub(crate) place: u8,
}

impl LikelyStep {
    /// When the vehicle may leave the customer that left the row at a time, in tenths.
    pub(crate) fn leaves(&self, time: u64) -> u64 {
        let arrival = time.saturating_add(self.way);
        arrival.max(self.ready).saturating_add(self.service)
    }

    /// The step at these prices.
    fn at(self, prices: &[i64]) -> LikelyStep {
        let way = grains(self.way);
        LikelyStep {
            cost: way.saturating_sub(price_of(prices, self.customer)),
            ..self
        }
    }
}

/// The price of a customer among these, in grains; 0 where there is none.
fn price_of(prices: &[i64], customer: u16) -> i64 {
    let place = usize::from(customer).wrapping_sub(1);
    prices.get(place).copied().unwrap_or(0)
}

/// The step from a row to a customer, if it can be reached in time; at prices of zero.
fn step_to(task: &Task<'_>, v: u16, customer: u16) -> Option<LikelyStep>
    requires v { v < length task.now.instance.now.rows }
    requires customer { customer < length task.now.instance.now.rows }
{
    let instance = task.instance;
    let way = instance.distance(v, customer).get();
    let latest = instance.due(customer).checked_sub(way)?;
    let arrival = instance
        .ready(0)
        .saturating_add(instance.distance(0, v).get());
    let earliest = arrival
        .max(instance.ready(v))
        .saturating_add(instance.service(v));
    if v == customer || earliest > latest {
        return None;
    }
    let last = instance.due(v).saturating_add(instance.service(v));
    let wait = instance
        .ready(customer)
        .saturating_sub(last.saturating_add(way));
    let places = task.places.get(usize::from(v))?;
    Some(LikelyStep {
        latest,
        way,
        ready: instance.ready(customer),
        service: instance.service(customer),
        far: grains(way.saturating_add(wait / WAIT_PART)),
        cost: grains(way),
        customer,
        demand: u32::from(instance.demand(customer)),
        place: places.get(usize::from(customer)).copied()?,
    })
}

/// The steps from a row, the nearest customers first.
fn steps_from(task: &Task<'_>, v: u16) -> Result<Vec<LikelyStep>, AllocError>
    requires { v < length task.now.instance.now.rows }
{
    let mut steps = Vec::new(task.alloc);
    for customer in 1..task.instance.customer_count() + 1 {
        if let Some(step) = step_to(task, v, customer) {
            steps.push(step)?;
        }
    }
    steps.sort_by_key(|step| step.far)?;
    Ok(steps)
}

/// What the steps from a row are paid, in grains, that to customer i at i - 1. Where the region doesn't allow a step, the
/// sets that it enters don't count.
fn paid_from(task: &Task<'_>, v: u16) -> Result<Vec<i64>, AllocError>
    requires { v < length task.now.instance.now.rows }
{
    let mut paid = Vec::from_slice(task.alloc, task.payment.prices)?;
    if task.payment.sets.is_empty() {
        return Ok(paid);
    }
    for step in task.steps_from(v) {
        let place = usize::from(step.customer).wrapping_sub(1);
        if let Some(price) = paid.get_mut(place) {
            *price = grains(u64::from(step.way)).saturating_sub(step.cost);
        }
    }
    Ok(paid)
}

/// Of these steps, which stand by how far they are, those that are likely at these prices.
fn choose_of(
    alloc: Global,
    all: &[LikelyStep],
    prices: &[i64],
    width: Width,
) -> Result<Vec<LikelyStep>, AllocError> {
    let nearest = width.nearest.min(width.steps);
    let mut steps = Vec::from_slice(alloc, all)?;
    if nearest < width.steps && width.steps < steps.len() {
        let others = &mut steps.as_mut_slice()[nearest..];
        let _ = others.select_nth_unstable_by_key(
            width.steps - nearest,
            |step| step.far.saturating_sub(price_of(prices, step.customer)),
        );
    }
    steps.truncate(width.steps);
    Ok(steps)
}

/// The steps at these prices, those first that may be left for latest.
fn at_prices(mut steps: Vec<LikelyStep>, prices: &[i64]) -> Result<Vec<LikelyStep>, AllocError> {
    for step in steps.iter_mut() {
        *step = step.at(prices);
    }
    steps.sort_by_key(|step| u64::MAX - step.latest)?;
    Ok(steps)
}

/// The customers that are likely to follow on each row.
#[derive(Drop)]
pub struct Likely {
    /// From each row all that can be reached in time, the nearest ones first.
    all: Vec<Vec<LikelyStep>>,
}

impl Likely {
    /// The customers of a task, whatever its prices.
    /// No contract: a rule of search; any prices are sound.
    pub fn new(task: &Task<'_>) -> Result<Likely, AllocError> {
        let mut all = Vec::new(task.alloc);
        for v in 0..task.instance.customer_count() + 1 {
            all.push(steps_from(task, v)?)?;
        }
        Ok(Likely { all })
    }

    /// From each row the likely steps of a task: from the depot all, from a customer the nearest ones,
    /// and of the others those that the prices make near.
    pub(crate) fn choose(
        &self,
        task: &Task<'_>,
        width: Width,
    ) -> Result<Vec<Vec<LikelyStep>>, AllocError> {
        let alloc = task.alloc;
        let mut chosen = Vec::new(alloc);
        for v in 0..task.instance.customer_count() + 1 {
            let all = self.all.get(usize::from(v));
            let all = all.map_or(&[][..], |all| all.as_slice());
            let paid = paid_from(task, v)?;
            let steps = if v == 0 {
                Vec::from_slice(alloc, all)?
            } else {
                choose_of(alloc, all, paid.as_slice(), width)?
            };
            chosen.push(at_prices(steps, paid.as_slice())?)?;
        }
        Ok(chosen)
    }
}
