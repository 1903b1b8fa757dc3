//! The search for a first plan.

ghost use Rattle.std.specs.Prelude.{◌≡◌, IfOk, IfSome};
ghost use Rattle.solomon_reader.specs.Moves.{IsLocalOptimum};
ghost use Rattle.search.specs.Searching.{plan_of};

use crate::fault::SearchFault;
use crate::held::HeldPlan;
use crate::searcher::Searcher;
use crate::turning::{Pace, whole_plan, work};
use rand_core::Rng;
use ruin::RuinSearch;
use schedule::Feasible;
use solomon_reader::Instance;
use std::alloc::{AllocError, Global};

/// A search for a first plan of an instance, where vehicles are few: routes that are right at any time, from
/// which customers are absent, by ruin and recreate (Christiaens and Vanden Berghe 2020).
#[derive(Drop)]
pub struct Seeker<'i, R> {
    alloc: Global,
    instance: &'i Instance,
    ruins: RuinSearch<'i>,
    random: R,
}

impl<'i, R: Rng + Drop> Seeker<'i, R> {
    /// A search with these random words, from no route on; refused where memory is.
    pub fn new(
        alloc: Global,
        instance: &'i Instance,
        random: R,
    ) -> Result<Seeker<'i, R>, AllocError>
        ensures { IfOk result (λ s. s.instance.now ≡ instance.now) }
    {
        let ruins = RuinSearch::new(alloc, instance)?;
        Ok(Seeker {
            alloc,
            instance,
            ruins,
            random,
        })
    }

    /// The next of its random words.
    pub fn next_word(&mut self) -> u32
        ensures { self.new.instance.now ≡ self.old.instance.now }
    {
        self.random.next_u32()
    }

    /// Makes a turn's work, and answers the plan that a descent from the cheapest plan met comes to, if one
    /// was met. `Memory` where memory was refused; the search goes on from where it is.
    pub fn turn(&mut self, pace: Pace) -> Result<Option<Feasible<'i>>, SearchFault>
        ensures instance { self.new.instance.now ≡ self.old.instance.now }
        ensures problem { IfOk result (λ o. IfSome o (λ f. f.problem ≡ self.old.instance.now)) }
        ensures optimum { IfOk result (λ o. IfSome o (λ f. IsLocalOptimum f.problem f.routes)) }
    {
        work(&mut self.ruins, self.instance, &mut self.random, pace);
        whole_plan(self.alloc, self.instance, &self.ruins)
    }

    /// A searcher that holds a plan and goes on from there with the search's tables and random words.
    pub fn into_searcher(mut self, plan: Feasible<'i>) -> Searcher<'i, R>
        ensures { plan_of result ≡ plan.entry }
    {
        self.ruins.begin_with(plan.routes());
        Searcher::with_search(
            self.alloc,
            HeldPlan::any(plan),
            self.random,
            Some(self.ruins),
        )
    }
}
