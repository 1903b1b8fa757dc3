//! Segments of a route.

ghost use Rattle.std.specs.Prelude.{◌≡◌, ◌+◌, ◌*◌, ◌≤◌, ℤ, pos, ◌+ℤ◌, ◌-ℤ◌, ◌≤ℤ◌};
ghost use Rattle.std.specs.Int.{int_min, int_max};
ghost use Rattle.solomon_reader.specs.Problem.{IsCustomer, customer_count};
ghost use Rattle.solomon_reader.specs.declared.limits.TheConstants.{MOST_DISTANCE, MOST_TIME};
ghost use Rattle.solomon_reader.specs.Segments.{capped};
ghost use Rattle.segments.specs.Segments.{stop, join};
ghost use Rattle.segments.specs.Closing.{closed};
ghost use Rattle.segments.specs.Joining.{join_assoc};

use crate::linked::Linked;
use solomon_reader::Instance;
use std::marker::Model;

/// What a list of stops, not empty, does to an arrival time, and what it costs and loads. An arrival
/// at the first stop at t is feasible where t is at most the latest, and the last stop is then left
/// at t plus the duration, or at the earliest if that is later. Times and the cost are tenths.
#[derive(Clone, Copy)]
pub struct Segment {
    load: u32,
    cost: u32,
    first: u16,
    last: u16,
    latest: i64,
    duration: i64,
    earliest: i64,
}

impl Model for Segment {
    ghost use Rattle.segments.specs.Segments.{Summary, IsBounded};

    ghost Value = { Summary };

    ghost view = { λ a. record {
      load = a.load;
      cost = a.cost;
      first = a.first;
      last = a.last;
      latest = a.latest;
      duration = a.duration;
      earliest = a.earliest;
    } };

    ghost invariant = { λ a. IsBounded
        (record {
          load = a.load;
          cost = a.cost;
          first = a.first;
          last = a.last;
          latest = a.latest;
          duration = a.duration;
          earliest = a.earliest;
        }) };

    ghost inverse = { λ s. record {
      load = s.load;
      cost = s.cost;
      first = s.first;
      last = s.last;
      latest = s.latest;
      duration = s.duration;
      earliest = s.earliest;
    } };
}

impl Segment {
    /// The segment of one customer, counted from 1.
    pub fn stop(instance: &Instance, customer: u16) -> Segment
        requires { IsCustomer instance.now customer }
        ensures { result ≡ stop instance.now customer }
    {
        let load = u32::from(instance.demand(customer));
        let latest = instance.due(customer) as i64;
        let duration = instance.service(customer) as i64;
        let earliest = instance.ready(customer) as i64 + duration;
        Segment {
            load,
            cost: 0,
            first: customer,
            last: customer,
            latest,
            duration,
            earliest,
        }
    }

    /// The sum of the demands, which stops at 4,294,967,295.
    pub fn load(&self) -> u32
        ensures { result ≡ self.now.load }
    {
        self.load
    }

    /// The cost of the inner arcs, in tenths.
    pub fn cost(&self) -> u32
        ensures { result ≡ self.now.cost }
    {
        self.cost
    }

    /// The first stop, a customer counted from 1.
    pub fn first(&self) -> u16
        ensures { result ≡ self.now.first }
    {
        self.first
    }

    /// The last stop, a customer counted from 1.
    pub fn last(&self) -> u16
        ensures { result ≡ self.now.last }
    {
        self.last
    }

    /// The latest feasible arrival at the first stop, in tenths.
    pub fn latest(&self) -> i64
        ensures { result ≡ self.now.latest }
    {
        self.latest
    }

    /// How long the segment takes where nothing is waited for, in tenths.
    pub fn duration(&self) -> i64
        ensures { result ≡ self.now.duration }
    {
        self.duration
    }

    /// When the last stop may be left at the earliest, in tenths.
    pub fn earliest(&self) -> i64
        ensures { result ≡ self.now.earliest }
    {
        self.earliest
    }

    /// The cost in tenths of the route that the segment is, or `None` where that route doesn't fit.
    pub fn closed(&self, instance: &Instance) -> Option<u32>
        requires first { self.now.first ≤ customer_count instance.now }
        requires last { self.now.last ≤ customer_count instance.now }
        ensures { result ≡ closed instance.now self.now }
    {
        instance.law_of_limits();
        if self.load > u32::from(instance.capacity()) {
            return None;
        }
        let out = instance.distance(0, self.first).get();
        let back = instance.distance(self.last, 0).get();
        let arrival = (instance.ready(0) + out) as i64;
        if arrival > self.latest {
            return None;
        }
        let reached = self.leave(arrival) + back as i64;
        if reached > instance.due(0) as i64 {
            return None;
        }
        Some(out as u32 + self.cost + back as u32)
    }

    /// When the last stop is left after a feasible arrival.
    fn leave(&self, arrival: i64) -> i64
        requires low { pos 0 ≤ℤ arrival }
        requires high { arrival ≤ℤ self.now.latest }
        ensures value { result ≡ int_max (arrival +ℤ self.now.duration) self.now.earliest }
        ensures bound { result ≤ℤ pos (20 * MOST_TIME) }
    {
        let left = arrival + self.duration;
        if left < self.earliest {
            self.earliest
        } else {
            left
        }
    }

    /// When the next segment is reached at the earliest.
    fn reach(&self, arc: u64) -> i64
        requires { arc ≤ MOST_DISTANCE }
        ensures { result ≡ self.now.earliest +ℤ pos arc }
    {
        self.earliest + arc as i64
    }

    /// The load with the next segment.
    fn load_with(&self, next: &Segment) -> u32
        ensures { result ≡ capped (self.now.load + next.now.load) }
    {
        self.load.saturating_add(next.load)
    }

    /// The cost with the next segment.
    fn cost_with(&self, next: &Segment, arc: u64) -> u32
        requires { arc ≤ MOST_DISTANCE }
        ensures { result ≡ self.now.cost + arc + next.now.cost }
    {
        self.cost + arc as u32 + next.cost
    }

    /// The latest feasible arrival with the next segment.
    fn latest_with(&self, next: &Segment, arc: u64) -> i64
        requires { arc ≤ MOST_DISTANCE }
        ensures { result ≡ int_min self.now.latest
            ((next.now.latest -ℤ self.now.duration) -ℤ pos arc) }
    {
        let latest = next.latest - self.duration - arc as i64;
        if latest < self.latest {
            latest
        } else {
            self.latest
        }
    }

    /// The duration with the next segment.
    fn duration_with(&self, next: &Segment, arc: u64) -> i64
        requires { arc ≤ MOST_DISTANCE }
        ensures { result ≡ self.now.duration +ℤ pos arc +ℤ next.now.duration }
    {
        self.duration + arc as i64 + next.duration
    }

    /// The earliest leaving with the next segment.
    fn earliest_with(&self, next: &Segment, arc: u64) -> i64
        requires { arc ≤ MOST_DISTANCE }
        ensures { result ≡ int_max (self.now.earliest +ℤ pos arc +ℤ next.now.duration)
            next.now.earliest }
    {
        let earliest = self.earliest + arc as i64 + next.duration;
        if earliest < next.earliest {
            next.earliest
        } else {
            earliest
        }
    }
}

impl Linked for Segment {
    type Context = Instance;

    ghost op = { join };

    /// The segment of the joined lists, or `None` at a stop above the instance's customers and where
    /// no arrival is feasible.
    fn join(context: &Instance, a: &Segment, b: &Segment) -> Option<Segment> {
        let count = context.customer_count();
        if a.last > count || b.first > count {
            return None;
        }
        let arc = context.distance(a.last, b.first).get();
        if a.reach(arc) > b.latest {
            return None;
        }
        Some(Segment {
            load: a.load_with(b),
            cost: a.cost_with(b, arc),
            first: a.first,
            last: b.last,
            latest: a.latest_with(b, arc),
            duration: a.duration_with(b, arc),
            earliest: a.earliest_with(b, arc),
        })
    }

    ghost law = { join_assoc };
}
