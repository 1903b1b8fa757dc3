//! The trees of a plan's routes.

ghost use Rattle.std.specs.Prelude.{◌≡◌, ◌<◌, ◌≤◌, [], length, map, slice_index_or, IfOk};
ghost use Rattle.std.specs.List.{All, AllByRecursion};
ghost use Rattle.std.specs.Borrow.{sem};
ghost use Rattle.solomon_reader.specs.Problem.{IsCustomer, customer_count};
ghost use Rattle.solomon_reader.specs.declared.limits.TheConstants.{MOST_CUSTOMERS};
ghost use Rattle.solomon_reader.specs.Layout.{IsWithinLimits};
ghost use Rattle.solomon_reader.specs.Plan.{IsPlan};
ghost use Rattle.solomon_reader.specs.Lists.{lists};
ghost use Rattle.segments.specs.Segments.{stop, join};
ghost use Rattle.segments.specs.Trees.{items_of, IsTree};
ghost use Rattle.segments.specs.PlanTrees.{problem_of, routes_of, AreTrees};
ghost use Rattle.segments.specs.RouteLending.{LendsRoute};

use crate::fault::TreeFault;
use crate::segment::Segment;
use crate::tree::RouteTree;
use schedule::Feasible;
use solomon_reader::Instance;
use std::alloc::Global;

/// A tree of single stops for each route of a plan, in order. Contracts see the instance, the
/// routes as lists of stops, and that the trees are those of the instance.
#[derive(Drop)]
pub struct PlanTrees<'i> {
    instance: &'i Instance,
    routes: Vec<RouteTree<Segment>>,
}

/// The stops of a route, in order.
fn stops_of(alloc: Global, instance: &Instance, route: &[u16]) -> Result<Vec<Segment>, TreeFault>
    requires { All (λ i. IsCustomer instance.now i) route.now }
    ensures { IfOk result (λ v. v.items ≡ map (stop instance.now) route.now) }
{
    let mut stops = Vec::new(alloc);
    for customer in route {
        stops.push(Segment::stop(instance, *customer))?;
    }
    Ok(stops)
}

/// A tree of stops for each route, in order.
fn trees_of(
    alloc: Global,
    instance: &Instance,
    routes: &[Vec<u16>],
) -> Result<Vec<RouteTree<Segment>>, TreeFault>
    requires { All (λ r. All (λ i. IsCustomer instance.now i) r.items) routes.now }
    ensures routes { IfOk result (λ v. map items_of v.items ≡ map (map (stop instance.now))
        (lists routes.now)) }
    ensures trees { IfOk result (λ v. AllByRecursion (IsTree (join instance.now)) v.items) }
{
    let mut trees = Vec::new(alloc);
    for route in routes {
        let stops = stops_of(alloc, instance, route.as_slice())?;
        let tree = RouteTree::new(alloc, instance, stops).map_err(|(_, fault)| fault)?;
        trees.push(tree)?;
    }
    Ok(trees)
}

impl<'i> PlanTrees<'i> {
    /// The trees of a plan.
    pub fn new(alloc: Global, plan: &Feasible<'i>) -> Result<PlanTrees<'i>, TreeFault>
        ensures problem { IfOk result (λ t. problem_of t ≡ plan.now.problem) }
        ensures routes { IfOk result (λ t. routes_of t ≡ map
            (map (stop plan.now.problem)) plan.now.routes) }
        ensures trees { IfOk result (λ t. AreTrees t) }
        ensures plan { IfOk result (λ t. IsPlan (problem_of t) plan.now.routes) }
    {
        let instance = plan.instance();
        let routes = trees_of(alloc, instance, plan.routes())?;
        Ok(PlanTrees { instance, routes })
    }

    /// The instance of the plan.
    pub fn instance(&self) -> &'i Instance
        ensures { result.now ≡ problem_of self.now }
    {
        self.instance
    }

    /// The instance is within the limits.
    pub fn law_of_limits(&self)
        ensures limits { IsWithinLimits (problem_of self.now) }
        ensures customers { customer_count (problem_of self.now) ≤ MOST_CUSTOMERS }
    {
        self.instance.law_of_limits();
    }

    /// The number of routes.
    pub fn count(&self) -> usize
        ensures { result ≡ length (routes_of self.now) }
    {
        self.routes.len()
    }

    /// A route by its number, counted from 0.
    pub fn route(&self, r: usize) -> &RouteTree<Segment>
        requires { r < length (routes_of self.now) }
        ensures items { items_of result.now ≡ slice_index_or (routes_of self.now) r [] }
        ensures tree { AreTrees self.now → IsTree (join (problem_of self.now)) result.now }
    {
        &self.routes[r]
    }

    /// A route by its number, counted from 0, to be changed. What it is left as stands in its place, by
    /// `laws_of_trees`.
    pub fn route_mut(&mut self, r: usize) -> &mut RouteTree<Segment>
        requires { r < length (routes_of self.old) }
        ensures* writes_back { sem 𝓛 (LendsRoute self.entry r result) }
        ensures items { items_of result.now ≡ slice_index_or (routes_of self.old) r [] }
        ensures tree { AreTrees self.old → IsTree (join (problem_of self.old)) result.now }
    {
        &mut self.routes[r]
    }
}
