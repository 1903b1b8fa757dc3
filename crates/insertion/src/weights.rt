//! The weights of the insertion criteria.

ghost use Rattle.std.specs.Prelude.{◌≡◌, ◌*◌, ◌%◌, ◌≤◌, ◌^◌, SomeIff, unsigned_abs};
ghost use Rattle.insertion.specs.Weighing.{Weighing, IsWeighing};
ghost use Rattle.solomon_reader.specs.declared.limits.TheConstants.{MOST_DISTANCE};

use std::marker::Model;

/// The greatest weight of the direct arc and of the way from the depot, in hundredths.
const MOST_WEIGHT: u16 = 1_000;

/// One, in hundredths.
const ONE: u16 = 100;

/// The weights of the insertion criteria c1 and c2 (Solomon 1987), in whole hundredths: `mu` of
/// the arc that an insertion spares, `lambda` of the way from the depot, `a1` of the detour and
/// `100 - a1` of the delay. Contracts see the three.
#[derive(Clone, Copy, Debug, PartialEq, Eq)]
pub struct Weights {
    mu: u16,
    lambda: u16,
    a1: u16,
}

impl Model for Weights {
    ghost use Rattle.insertion.specs.Weighing.{Weighing, IsWeighing};

    ghost Value = { Weighing };

    ghost view = { λ w. record { mu = w.mu; lambda = w.lambda; a1 = w.a1 } };

    ghost invariant = { λ w. IsWeighing (record { mu = w.mu; lambda = w.lambda; a1 = w.a1 }) };

    ghost inverse = { λ w. record { mu = w.mu; lambda = w.lambda; a1 = w.a1 } };
}

/// An amount times a weight.
fn weigh(weight: u16, amount: i64) -> i64
    requires weight { weight ≤ MOST_WEIGHT }
    requires amount { unsigned_abs amount ≤ 10 ^ 12 }
    ensures { unsigned_abs result ≤ MOST_WEIGHT * unsigned_abs amount }
{
    i64::from(weight) * amount
}

impl Weights {
    /// These weights in hundredths, or `None` where `mu` or `lambda` is above 1,000 or `a1` above
    /// 100.
    pub fn new(mu: u16, lambda: u16, a1: u16) -> Option<Weights>
        ensures { let weighing : Weighing = record { mu = mu; lambda = lambda; a1 = a1 } in SomeIff
            result (IsWeighing weighing) weighing }
    {
        if mu > MOST_WEIGHT || lambda > MOST_WEIGHT || a1 > ONE {
            return None;
        }
        Some(Weights { mu, lambda, a1 })
    }

    /// The weights that count the detour alone, beside the arc that it spares and the way from the
    /// depot, each once: 100, 100 and 100.
    pub fn plain() -> Weights
        ensures { result ≡ record { mu = 100; lambda = 100; a1 = 100 } }
    {
        Weights {
            mu: ONE,
            lambda: ONE,
            a1: ONE,
        }
    }

    /// Weights of three random words, each by its rest: `mu` and `lambda` from 0 to 1,000, `a1` from 0
    /// to 100.
    pub fn of_words(mu: u32, lambda: u32, a1: u32) -> Weights
        ensures { result ≡ record { mu = mu % 1001; lambda = lambda % 1001; a1 = a1 % 101 } }
    {
        Weights {
            mu: (mu % (u32::from(MOST_WEIGHT) + 1)) as u16,
            lambda: (lambda % (u32::from(MOST_WEIGHT) + 1)) as u16,
            a1: (a1 % (u32::from(ONE) + 1)) as u16,
        }
    }

    /// The criterion c11, in hundredths of tenths: the way round by a customer less the weighted
    /// arc that it spares, both in tenths.
    pub(crate) fn detour(&self, round: i64, spared: i64) -> i64
        requires round { unsigned_abs round ≤ 2 * MOST_DISTANCE }
        requires spared { unsigned_abs spared ≤ MOST_DISTANCE }
        ensures { unsigned_abs result ≤ 10 ^ 9 }
    {
        weigh(ONE, round) - weigh(self.mu, spared)
    }

    /// The criterion c1, in ten-thousandths of tenths, of a detour in hundredths of tenths and a
    /// delay in tenths.
    pub(crate) fn cost(&self, detour: i64, delay: i64) -> i64
        requires detour { unsigned_abs detour ≤ 10 ^ 9 }
        requires delay { unsigned_abs delay ≤ 10 ^ 8 }
        ensures { unsigned_abs result ≤ 10 ^ 15 }
    {
        weigh(self.a1, detour) + weigh(ONE - self.a1, weigh(ONE, delay))
    }

    /// The criterion c2, in ten-thousandths of tenths, of a customer at this distance from the
    /// depot, in tenths, whose insertion costs c1.
    pub(crate) fn gain(&self, from_depot: i64, cost: i64) -> i64
        requires from_depot { unsigned_abs from_depot ≤ MOST_DISTANCE }
        requires cost { unsigned_abs cost ≤ 10 ^ 15 }
    {
        weigh(self.lambda, weigh(ONE, from_depot)) - cost
    }
}
