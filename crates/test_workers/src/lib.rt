//! Tests of what threads share, without a lock and at a desk, of the workers' random words, and of the bounds that
//! pricings go by.
#![tactic(auto)]

#[cfg(test)]
mod deques;
pub mod ends;
#[cfg(test)]
mod offers;
#[cfg(test)]
mod random;
#[cfg(test)]
mod seats;
#[cfg(test)]
mod shares;
#[cfg(test)]
mod short_steps;
