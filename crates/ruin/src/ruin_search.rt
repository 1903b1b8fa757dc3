//! The search.
//!
//! No contract speaks of it: it is a rule of search, and who takes its routes checks them.

use crate::cooling::Progress;
use crate::rule::Rule;
use crate::trials::{Judgement, Trials};
use rand_core::Rng;
use solomon_reader::Instance;
use std::alloc::{AllocError, Global};

/// This many steps for each customer are a turn: some 30 to 40 milliseconds at 100 customers, and 150 to 220 at
/// 400.
pub const STEPS_OF_CUSTOMER: u64 = 72_000;

/// What a trial takes beside its slots and places, in steps.
const STEPS_OF_TRIAL: u64 = 800;

/// In this many tenths of the cooling, the first ones, whole plans are broken now and then.
const LENT_TENTHS: u64 = 7;

/// A search by ruin and recreate (Schrimpf et al. 2000). A trial takes strings of customers out of a few
/// neighbouring routes, or changes the tails of two, and puts each customer that is out back at its cheapest
/// place (Christiaens and Vanden Berghe 2020). Routes are right at any time, but customers may be absent from
/// them. A trial is kept by how often those that it leaves out were left out before, and by its cost, under a
/// temperature that falls from the first whole plan on, and once more from the middle of what is left of the run
/// then.
#[derive(Drop)]
pub struct RuinSearch<'i> {
    instance: &'i Instance,
    trials: Trials,
    /// Drawn at the first trial of each cooling.
    rule: Option<Rule>,
    /// The number of the cooling that the rule is of.
    cooling: u64,
    /// The cost of the cheapest whole plan that was met, in tenths.
    least: Option<i64>,
    /// The stops of its routes, with the depot behind each route.
    least_tour: Vec<u16>,
    /// How much of the run was done at the last trial.
    done: u64,
    /// How much was done when the first whole plan was met.
    first_whole: Option<u64>,
}

impl<'i> RuinSearch<'i> {
    /// The search for an instance, without routes yet. All memory that trials need is taken here.
    pub fn new(alloc: Global, instance: &'i Instance) -> Result<RuinSearch<'i>, AllocError> {
        let rows = usize::from(instance.customer_count());
        Ok(RuinSearch {
            instance,
            trials: Trials::new(alloc, instance)?,
            rule: None,
            cooling: 0,
            least: None,
            least_tour: Vec::with_capacity(alloc, rows.saturating_mul(2))?,
            done: 0,
            first_whole: None,
        })
    }

    /// Takes the plan in as the cheapest, where it is whole and cheaper.
    fn note_least(&mut self) {
        let plan = &self.trials.plan;
        let is_cheaper = self.least.is_none_or(|least| plan.cost < least);
        if !is_cheaper || !self.trials.absence.absent.is_empty() {
            return;
        }
        self.first_whole = self.first_whole.or(Some(self.done));
        self.least = Some(plan.cost);
        self.least_tour.clear();
        for slot in &plan.slots {
            slot.held.add_to(&mut self.least_tour);
        }
    }

    /// Goes on from these routes, each its customers in order. Customers that stand in none, or whose place
    /// doesn't fit, are absent. Forgets the cheapest plan, and begins with this one where it is whole. The
    /// temperature stays.
    pub fn begin_with(&mut self, routes: &[Vec<u16>]) {
        self.trials.plan.clear();
        for route in routes {
            self.trials.begin_route(route.as_slice());
        }
        self.trials.plan.end_trial(true);
        self.trials.note_absent();
        self.least = None;
        self.note_least();
    }

    /// The rule of a cooling: the one held, or another where that is of the cooling before.
    fn rule_of<R: Rng>(&mut self, random: &mut R, cooling: u64) -> Rule {
        let rule = match self.rule {
            Some(rule) if self.cooling == cooling => rule,
            _ => Rule::draw(random),
        };
        self.rule = Some(rule);
        self.cooling = cooling;
        rule
    }

    /// How a trial is judged where its cooling is so far.
    fn judgement<R: Rng>(&self, random: &mut R, rule: Rule, cooled: Progress) -> Judgement {
        let cost = self.trials.plan.cost;
        let least = self.least.unwrap_or(cost).unsigned_abs();
        let customers = u64::from(self.instance.customer_count());
        let first = rule.first_temperature(least, customers);
        let lent = cooled.whole.saturating_mul(LENT_TENTHS);
        Judgement {
            threshold: cooled.draw_threshold(random, first),
            most_missed: self.trials.absence.sum(),
            lends: self.first_whole.is_some() && cooled.done.saturating_mul(10) < lent,
        }
    }

    /// Makes trials until this many steps are done, slots and places seen; each trial counts as one step at
    /// least. Meanwhile the run goes from the first progress to the second, and the temperature with it: from
    /// the first whole plan on it falls twice.
    pub fn search<R: Rng>(&mut self, random: &mut R, work: u64, from: Progress, to: Progress) {
        self.trials.plan.steps = 0;
        for _ in 0..work {
            let steps = self.trials.plan.steps;
            if steps >= work {
                break;
            }
            let progress = from.toward(to, steps, work);
            self.done = progress.done;
            self.trials.plan.steps = steps.saturating_add(STEPS_OF_TRIAL);
            let begin = self.first_whole.unwrap_or(progress.done);
            let (number, cooled) = progress.since(begin).cooling();
            let rule = self.rule_of(random, number);
            let judgement = self.judgement(random, rule, cooled);
            self.trials.attempt(random, rule, judgement);
            self.note_least();
        }
        self.done = to.done;
    }

    /// The cost of the cheapest whole plan that has been met, in tenths.
    pub fn least_cost(&self) -> Option<u64> {
        self.least.map(|cost| cost.unsigned_abs())
    }

    /// The routes of the cheapest whole plan that has been met, each its customers in order.
    pub fn least_routes(&self, alloc: Global) -> Result<Option<Vec<Vec<u16>>>, AllocError> {
        if self.least.is_none() {
            return Ok(None);
        }
        let mut routes = Vec::new(alloc);
        let mut route = Vec::new(alloc);
        for row in &self.least_tour {
            if *row != 0 {
                route.push(*row)?;
            } else if !route.is_empty() {
                routes.push(route)?;
                route = Vec::new(alloc);
            }
        }
        Ok(Some(routes))
    }
}
