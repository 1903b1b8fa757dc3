//! Plans of an instance.

ghost use Rattle.std.specs.Prelude.{◌≡◌, ℕ, List, IfOk, IfErr};
ghost use Rattle.solomon_reader.specs.Plan.{IsPlan};
ghost use Rattle.solomon_reader.specs.Lists.{lists};
ghost use Rattle.solomon_reader.specs.PlanDefects.{IsLowestDefect};
ghost use Rattle.schedule.specs.Solution.{IsSolution};

use crate::finding::{cost_or_fault, total_cost};
use solomon_reader::{Instance, PlanFault};
use std::alloc::AllocError;
use std::marker::Model;
use tenths::Tenths;

/// A plan of its instance, at its exact cost. Contracts see the instance, the routes as lists and
/// the cost.
#[derive(Debug, Drop)]
pub struct Feasible<'i> {
    instance: &'i Instance,
    routes: Vec<Vec<u16>>,
    cost: Tenths,
}

impl<'i> Model for Feasible<'i> {
    ghost use Rattle.schedule.specs.Solution.{Solution, IsSolution};
    ghost use Rattle.solomon_reader.specs.Lists.{lists};

    ghost Value = { Solution };

    ghost view = { λ f. record {
      problem = f.instance.now;
      routes = lists f.routes.items;
      cost = f.cost;
    } };

    ghost invariant = { λ f. IsSolution (record {
      problem = f.instance.now;
      routes = lists f.routes.items;
      cost = f.cost;
    }) };
}

impl<'i> Feasible<'i> {
    /// The plan of these routes, or the routes again and the first fault that they have in the
    /// order of `PlanFault`. Each route is walked once.
    pub fn check(
        instance: &'i Instance,
        routes: Vec<Vec<u16>>,
    ) -> Result<Feasible<'i>, (Vec<Vec<u16>>, PlanFault)>
        ensures problem { IfOk result (λ f. f.problem ≡ instance.now) }
        ensures routes { IfOk result (λ f. f.routes ≡ lists routes.items) }
        ensures solution { IfOk result (λ f. IsSolution f) }
        ensures refused { IfErr result (λ _. ¬ IsPlan instance.now (lists routes.items)) }
        ensures back { IfErr result (λ e. e.0 ≡ routes) }
        ensures fault { IfErr result (λ e. IsLowestDefect instance.now (lists routes.items) e.1) }
    {
        match cost_or_fault(instance, routes.as_slice()) {
            Ok(cost) => Ok(Feasible {
                instance,
                routes,
                cost,
            }),
            Err(fault) => Err((routes, fault)),
        }
    }

    /// The plan of routes that are known as one. Each route is walked once, for its cost.
    pub fn known(instance: &'i Instance, routes: Vec<Vec<u16>>) -> Feasible<'i>
        requires { IsPlan instance.now (lists routes.items) }
        ensures problem { result.problem ≡ instance.now }
        ensures routes { result.routes ≡ lists routes.items }
        ensures solution { IsSolution result }
    {
        instance.law_of_limits();
        let cost = total_cost(instance, routes.as_slice());
        Feasible {
            instance,
            routes,
            cost,
        }
    }

    /// The sum of the routes' costs, in tenths.
    pub fn cost(&self) -> Tenths
        ensures is { result ≡ self.now.cost }
        ensures solution { IsSolution self.now }
    {
        self.cost
    }

    /// The instance whose plan this is.
    pub fn instance(&self) -> &'i Instance
        ensures is { result.now ≡ self.now.problem }
        ensures solution { IsSolution self.now }
    {
        self.instance
    }

    /// The routes, each the customers that one vehicle serves, in order.
    pub fn routes(&self) -> &[Vec<u16>]
        ensures { lists result.now ≡ self.now.routes }
    {
        self.routes.as_slice()
    }

    /// A copy, unless memory runs out.
    pub fn try_clone(&self) -> Result<Feasible<'i>, AllocError>
        ensures { IfOk result (λ f. f ≡ self.now) }
    {
        let routes = self.routes.clone()?;
        Ok(Feasible {
            instance: self.instance,
            routes,
            cost: self.cost,
        })
    }
}
