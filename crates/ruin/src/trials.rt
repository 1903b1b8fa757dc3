//! Trials, which take customers out of routes, or change the tails of two, and put customers back.

use crate::absence::Absence;
use crate::drawing::below;
use crate::order::{Order, Removed};
use crate::plan::Plan;
use crate::rule::Rule;
use crate::tails::{OUT_AT_FIRST, OUT_AT_SECOND, Seam, TAILS_CUSTOMERS, tails_of_thousand};
use crate::window::Window;
use rand_core::Rng;
use solomon_reader::Instance;
use std::alloc::{AllocError, Global};

/// A trial takes one to this many strings out, each of another route.
const STRINGS: usize = 5;

/// A short trial takes one to this many strings out.
const SHORT_STRINGS: usize = 3;

/// A string of a short trial has at most this many customers.
const SHORT_LONGEST: usize = 10;

/// A threshold is for a trial that takes this many customers out.
const THRESHOLD_CUSTOMERS: u64 = 16;

/// Where customers are absent, this many trials of a hundred are near one of them.
const NEAR_ABSENT: usize = 75;

/// Where customers are absent, this many trials of a hundred first put back those that were left out most.
const MISSED_FIRST: usize = 50;

/// Of the trials that would break a whole plan, one in this many is kept: a loan.
const LENT: usize = 1_000;

/// How a trial is judged.
#[derive(Clone, Copy)]
pub(crate) struct Judgement {
    /// By how many tenths it may be dearer where it takes `THRESHOLD_CUSTOMERS` out, and by as many times more
    /// where it takes more. Under one threshold for all nearly any small trial is kept, and no large one.
    pub(crate) threshold: u64,
    /// The misses of the absent customers, 0 where a whole plan is held. It is kept where those that it
    /// leaves out have less, whatever it costs, and isn't where they have more.
    pub(crate) most_missed: i64,
    /// Whether it may be a loan.
    pub(crate) lends: bool,
}

impl Judgement {
    /// The greatest cost in tenths at which a trial is kept that takes this many customers out, where the routes
    /// held cost this much.
    fn limit(self, held: i64, customers: usize) -> i64 {
        let grown = self.threshold.saturating_mul(customers as u64);
        held.saturating_add_unsigned(grown / THRESHOLD_CUSTOMERS)
    }
}

/// How a trial begins.
#[derive(Clone, Copy)]
enum Kind {
    /// Strings of customers go out.
    Strings,
    /// Two routes change tails.
    Tails,
}

impl Kind {
    /// Such a trial is judged as if it took this many more customers out.
    fn more_customers(self) -> usize {
        match self {
            Kind::Strings => 0,
            Kind::Tails => TAILS_CUSTOMERS,
        }
    }
}

/// How much a trial takes out.
#[derive(Clone, Copy)]
struct Size {
    /// This many strings, each of another route.
    strings: usize,
    /// At most this many customers a string.
    longest: usize,
}

impl Size {
    /// A random size, where routes have this many customers in the mean.
    fn draw<R: Rng>(random: &mut R, rule: Rule, mean: usize) -> Size {
        if below(random, 100) < rule.short_percent {
            return Size {
                strings: below(random, SHORT_STRINGS).saturating_add(1),
                longest: mean.min(SHORT_LONGEST),
            };
        }
        Size {
            strings: below(random, STRINGS).saturating_add(1),
            longest: mean,
        }
    }
}

/// Routes, and the customers that are absent from them, which trials change.
#[derive(Drop)]
pub(crate) struct Trials {
    pub(crate) plan: Plan,
    pub(crate) absence: Absence,
    /// The customers that a trial has to put back.
    out: Vec<Removed>,
    pub(crate) customers: u16,
}

impl Trials {
    /// Without routes.
    pub(crate) fn new(alloc: Global, instance: &Instance) -> Result<Trials, AllocError> {
        let customers = instance.customer_count();
        let mut trials = Trials {
            plan: Plan::new(alloc, instance)?,
            absence: Absence::new(alloc, usize::from(customers))?,
            out: Vec::with_capacity(alloc, usize::from(customers))?,
            customers,
        };
        trials.note_absent();
        Ok(trials)
    }

    /// Counts the customers as absent that stand in no route.
    pub(crate) fn note_absent(&mut self) {
        self.absence.absent.clear();
        for customer in 1..=self.customers {
            if self.plan.slot_of(customer).is_none() {
                let _ = self.absence.absent.push(customer);
            }
        }
    }

    /// Begins a route with these customers, as far as they fit.
    pub(crate) fn begin_route(&mut self, route: &[u16]) {
        let mut held = None;
        for customer in route {
            let is_known = *customer > 0 && *customer <= self.customers;
            if is_known && self.plan.slot_of(*customer).is_none() {
                let slot = self.plan.append(*customer, held);
                self.plan.note_slot(*customer, slot);
                held = slot.or(held);
            }
        }
    }

    /// The customer that strings are taken near to: mostly an absent one where there are such.
    fn draw_center<R: Rng>(&mut self, random: &mut R) -> u16 {
        let absent = self.absence.absent.as_slice();
        if !absent.is_empty() && below(random, 100) < NEAR_ABSENT {
            let center = absent.get(below(random, absent.len()));
            return center.copied().unwrap_or(1);
        }
        let customers = usize::from(self.customers);
        below(random, customers).saturating_add(1).min(customers) as u16
    }

    /// How many customers a route has in the mean.
    fn mean(&self) -> usize {
        (usize::from(self.customers) / self.plan.routes.max(1)).max(1)
    }

    /// A random kind of trial; one of strings while customers are absent.
    fn draw_kind<R: Rng>(&self, random: &mut R) -> Kind {
        let tails = tails_of_thousand(self.mean());
        let is_whole = self.absence.absent.is_empty();
        if is_whole && tails > 0 && below(random, 1_000) < tails {
            return Kind::Tails;
        }
        Kind::Strings
    }

    /// Takes strings of customers out, nearest ones first; answers by how many tenths the routes are longer,
    /// and nothing where one would be late.
    fn ruin<R: Rng>(&mut self, random: &mut R, rule: Rule) -> Option<i64> {
        let size = Size::draw(random, rule, self.mean());
        let mut strings = size.strings;
        let mut longest = (below(random, rule.whole) > 0).then_some(size.longest);
        let center = usize::from(self.draw_center(random));
        let mut change: i64 = 0;
        for place in 0..usize::from(self.customers) {
            let nearest = self.plan.tables.nearest.get(center)?;
            let customer = nearest.get(place).copied()?;
            let Some(number) = self.plan.slot_of(customer) else {
                continue;
            };
            let slot = self.plan.slots.get(number)?;
            if slot.is_turned {
                continue;
            }
            let stops = slot.held.stops.as_slice();
            let window = Window::around(random, stops, customer, longest);
            window.take(stops, &mut self.out);
            change = change.saturating_add(self.plan.cut(number, window)?);
            longest = Some(size.longest);
            strings = strings.saturating_sub(1);
            if strings == 0 {
                break;
            }
        }
        Some(change)
    }

    /// Two routes change tails, so that a random customer and one near it become neighbours; who doesn't fit at
    /// their seams goes out. Answers by how many tenths the routes are longer, and nothing where none are met.
    fn change_tails<R: Rng>(&mut self, random: &mut R) -> Option<i64> {
        let center = self.draw_center(random);
        let seam = Seam::draw(random, &self.plan, center)?;
        let out_at_first = below(random, OUT_AT_FIRST);
        let out_at_second = below(random, OUT_AT_SECOND);
        let (plan, out) = (&self.plan, &mut self.out);
        let first = seam.take_out(random, plan, out_at_first, out)?;
        let second = seam.other().take_out(random, plan, out_at_second, out)?;
        self.plan.change_tails(first, second)
    }

    /// Adds the absent customers to those that are put back.
    fn add_absent(&mut self) {
        for customer in &self.absence.absent {
            let _ = self.out.push(Removed::new(*customer));
        }
    }

    /// Puts the customers that are out in the order in which they are put back.
    fn order<R: Rng>(&mut self, random: &mut R) {
        let is_missed = !self.absence.absent.is_empty() && below(random, 100) < MISSED_FIRST;
        let drawn = Order::draw(random);
        let order = if is_missed { Order::Missed } else { drawn };
        for removed in self.out.iter_mut() {
            let misses = self.absence.misses_of(removed.customer);
            let key = order.key(&self.plan.tables, removed.customer, misses);
            removed.key = (key, random.next_u32());
        }
        self.out.sort_unstable_by_key(|removed| removed.key);
    }

    /// Puts those that are out back, each at its cheapest place, and leaves those out that fit nowhere; where
    /// a whole plan is held that is a loan, or the trial's end. Answers the cost in tenths, where the trial is
    /// kept.
    fn recreate<R: Rng>(
        &mut self,
        random: &mut R,
        rule: Rule,
        kind: Kind,
        change: i64,
        judgement: Judgement,
    ) -> Option<i64> {
        let customers = self.out.len().saturating_add(kind.more_customers());
        let limit = judgement.limit(self.plan.cost, customers);
        self.add_absent();
        self.order(random);
        let mut opens = below(random, rule.opened) == 0;
        let mut most_missed = judgement.most_missed;
        let mut missed: i64 = 0;
        let mut cost = self.plan.cost.saturating_add(change);
        for removed in self.out.iter_mut() {
            let put = self.plan.put_back(random, removed.customer, opens);
            opens = false;
            if let Some((slot, detour)) = put {
                removed.slot = Some(slot);
                cost = cost.saturating_add(i64::from(detour));
            } else {
                if most_missed == 0 && judgement.lends && below(random, LENT) == 0 {
                    most_missed = i64::MAX;
                }
                if most_missed == 0 {
                    return None;
                }
                let misses = self.absence.leave_out(removed.customer);
                missed = missed.saturating_add(i64::from(misses));
            }
            let is_dear = most_missed == 0 && cost > limit;
            if is_dear || missed > most_missed {
                return None;
            }
        }
        (missed < most_missed || cost <= limit).then_some(cost)
    }

    /// Keeps a trial of this cost in tenths, or goes back to the routes before it.
    fn end(&mut self, cost: Option<i64>) {
        self.plan.end_trial(cost.is_some());
        if let Some(cost) = cost {
            for removed in &self.out {
                self.plan.note_slot(removed.customer, removed.slot);
            }
            self.plan.cost = cost;
            std::mem::swap(&mut self.absence.absent, &mut self.absence.left_out);
        }
        self.absence.left_out.clear();
    }

    /// Makes a trial.
    pub(crate) fn attempt<R: Rng>(&mut self, random: &mut R, rule: Rule, judgement: Judgement) {
        self.out.clear();
        let kind = self.draw_kind(random);
        let change = match kind {
            Kind::Strings => self.ruin(random, rule),
            Kind::Tails => self.change_tails(random),
        };
        let cost = match change {
            Some(change) => self.recreate(random, rule, kind, change, judgement),
            None => None,
        };
        if matches!(kind, Kind::Tails) && cost.is_some() {
            self.plan.note_turned();
        }
        self.end(cost);
    }
}
