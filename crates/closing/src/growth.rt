//! A tree that grows.

ghost use Rattle.std.specs.Prelude.{◌≡◌, ◌+◌, ◌<◌, ◌≤◌, min, false, true, [], MatchOption, OnOk, ◌++◌, ◌∷◌, map, reverse, IfOk, IfErr};
ghost use Rattle.solomon_reader.specs.Problem.{customer_count};
ghost use Rattle.solomon_reader.specs.Bound.{ceiling_of, split_node, version_2};
ghost use Rattle.branching.specs.Arcs.{pair};
ghost use Rattle.branching.specs.Nodes.{node_of, IsListedTree};
ghost use Rattle.insertion.specs.Building.{IsServedAlone};
ghost use Rattle.prices.specs.ValuedPrices.{IsValued};
ghost use Rattle.closing.specs.Closing.{IsClosed, IsLeftOpen, costs, known_or_above};
ghost use Rattle.closing.specs.declared.fault.TheConstants.{MOST_CLOSED};
ghost use Rattle.closing.specs.Growing.{Grows, IsGrowth, IsSameTask, IsSameTree, ToldTarget, target_of};

use crate::fault::CloseAloneFault;
use crate::found::Found;
use branching::{Arc, LeafPrices, TreeNode};
use prices::Priced;
use schedule::Feasible;
use solomon_reader::{Instance, bounds_hold};
use std::alloc::{AllocError, Global};
use tenths::Tenths;

/// A tree that grows from the root of an instance, listed in the reverse of preorder as far as it is known.
#[derive(Drop)]
pub(crate) struct Growth<'i> {
    pub(crate) alloc: Global,
    pub(crate) instance: &'i Instance,
    /// The most leaves.
    pub(crate) limit: u32,
    pub(crate) nodes: Vec<TreeNode>,
    /// The leaves of the tree, those that aren't listed yet among them.
    pub(crate) leaves: u32,
    /// The least of the ceiling and one and the values of the listed leaves, in tenths.
    pub(crate) bound: u32,
    /// The cheapest plan known.
    pub(crate) best: Option<Feasible<'i>>,
    /// Whether a leaf of a lower value than the least cost stays, since there may be no more leaves.
    pub(crate) is_stopped: bool,
}

/// The lesser of a bound and a leaf's value.
fn lesser(bound: u32, leaf: &Priced<'_>) -> u32
    ensures least { result ≡ min bound leaf.now.value }
    ensures valued { IsValued leaf.now }
{
    leaf.tenths().min(u128::from(bound)) as u32
}

impl<'i> Growth<'i> {
    /// The root alone, not listed yet, and a plan to begin with.
    pub(crate) fn new(
        alloc: Global,
        instance: &'i Instance,
        limit: u32,
        best: Option<Feasible<'i>>,
    ) -> Growth<'i>
        requires own { MatchOption best (¬ IsServedAlone instance.now)
            (λ f. f.problem ≡ instance.now) }
        requires some { 1 ≤ limit }
        ensures growth { IsGrowth result }
        ensures instance { result.instance.now ≡ instance.now }
        ensures limit { result.limit ≡ limit }
        ensures nodes { result.nodes.items ≡ [] }
        ensures leaves { result.leaves ≡ 1 }
        ensures bound { result.bound ≡ ceiling_of instance.now + 1 }
        ensures going { result.is_stopped ≡ false }
        ensures target { target_of result ≡ known_or_above instance.now (costs best.entry) }
    {
        bounds_hold();
        Growth {
            alloc,
            instance,
            limit,
            nodes: Vec::new(alloc),
            leaves: 1,
            bound: instance.above_ceiling(),
            best,
            is_stopped: false,
        }
    }

    /// The least cost known in tenths, or the ceiling and one.
    pub(crate) fn target(&self) -> u64
        ensures { result ≡ target_of self.now }
    {
        match &self.best {
            Some(plan) => plan.cost().get(),
            None => u64::from(self.instance.above_ceiling()),
        }
    }

    /// The routes of the best plan, or none.
    pub(crate) fn routes(&self) -> &[Vec<u16>] {
        match &self.best {
            Some(plan) => plan.routes(),
            None => &[],
        }
    }

    /// Takes a plan where it is cheaper than the best.
    pub(crate) fn offer(&mut self, plan: Feasible<'i>)
        requires growth { IsGrowth self.old }
        requires going { self.old.is_stopped ≡ false }
        requires own { plan.problem ≡ self.old.instance.now }
        ensures growth { IsGrowth self.new }
        ensures same { IsSameTree self.old self.new }
        ensures known { target_of self.new ≤ plan.entry.cost }
        ensures least { target_of self.new ≤ target_of self.old }
    {
        bounds_hold();
        if plan.cost().get() < self.target() {
            self.best = Some(plan);
        }
    }

    /// Lists a leaf where no set and no row has a price.
    fn list(&mut self, leaf: &Priced<'i>) -> Result<(), AllocError>
        requires own { leaf.now.problem ≡ self.old.instance.now }
        requires no_sets { leaf.now.sets ≡ [] }
        requires no_rows { leaf.now.rows ≡ [] }
        requires low { self.old.bound ≤ ceiling_of self.old.instance.now + 1 }
        ensures grows { OnOk result (Grows leaf.now.neighbours leaf.now.region self.old self.new) }
        ensures least { OnOk result (self.new.bound ≡ min self.old.bound leaf.now.value) }
        ensures leaves { self.new.leaves ≡ self.old.leaves }
        ensures best { self.new.best ≡ self.old.best }
        ensures stopped { self.new.is_stopped ≡ self.old.is_stopped }
        ensures task { IsSameTask self.old self.new }
    {
        let customers = leaf.prices().to_vec(self.alloc)?;
        let sets = Vec::new(self.alloc);
        let rows = Vec::new(self.alloc);
        self.nodes.push(TreeNode::Leaf(LeafPrices {
            customers,
            sets,
            rows,
        }))?;
        self.bound = lesser(self.bound, leaf);
        Ok(())
    }

    /// Lists a leaf at which nothing is left to do: its value reaches the target, or the growth has
    /// stopped.
    pub(crate) fn lay_aside(&mut self, leaf: &Priced<'i>) -> Result<(), AllocError>
        requires growth { IsGrowth self.old }
        requires own { leaf.now.problem ≡ self.old.instance.now }
        requires no_sets { leaf.now.sets ≡ [] }
        requires no_rows { leaf.now.rows ≡ [] }
        requires reaches { self.old.is_stopped ≡ false → target_of self.old ≤ leaf.now.value }
        ensures growth { OnOk result (IsGrowth self.new) }
        ensures grows { OnOk result (Grows leaf.now.neighbours leaf.now.region self.old self.new) }
        ensures leaves { self.new.leaves ≡ self.old.leaves }
        ensures target { target_of self.new ≡ target_of self.old }
    {
        self.list(leaf)
    }

    /// Lists a leaf that may not be split, since there are as many leaves as the limit allows, and stops.
    pub(crate) fn stop_at(&mut self, leaf: &Priced<'i>) -> Result<(), AllocError>
        requires growth { IsGrowth self.old }
        requires own { leaf.now.problem ≡ self.old.instance.now }
        requires no_sets { leaf.now.sets ≡ [] }
        requires no_rows { leaf.now.rows ≡ [] }
        requires full { self.old.leaves ≡ self.old.limit }
        requires below { leaf.now.value < target_of self.old }
        ensures growth { OnOk result (IsGrowth self.new) }
        ensures grows { OnOk result (Grows leaf.now.neighbours leaf.now.region self.old self.new) }
        ensures leaves { self.new.leaves ≡ self.old.leaves }
        ensures target { target_of self.new ≡ target_of self.old }
    {
        self.is_stopped = true;
        self.list(leaf)
    }

    /// Counts a split: in place of the leaf there are two.
    pub(crate) fn split(&mut self)
        requires growth { IsGrowth self.old }
        requires going { self.old.is_stopped ≡ false }
        requires room { self.old.leaves < self.old.limit }
        ensures growth { IsGrowth self.new }
        ensures task { IsSameTask self.old self.new }
        ensures nodes { self.new.nodes.items ≡ self.old.nodes.items }
        ensures leaves { self.new.leaves ≡ self.old.leaves + 1 }
        ensures bound { self.new.bound ≡ self.old.bound }
        ensures target { target_of self.new ≡ target_of self.old }
    {
        self.leaves += 1;
    }

    /// Lists a split by an arc whose children are listed, that which uses it last.
    pub(crate) fn list_split(&mut self, arc: Arc) -> Result<(), AllocError>
        requires { IsGrowth self.old }
        ensures growth { OnOk result (IsGrowth self.new) }
        ensures task { IsSameTask self.old self.new }
        ensures nodes { OnOk result (map node_of self.new.nodes.items ≡ map node_of
            self.old.nodes.items ++ split_node (pair arc) ∷ []) }
        ensures leaves { self.new.leaves ≡ self.old.leaves }
        ensures bound { self.new.bound ≡ self.old.bound }
        ensures target { target_of self.new ≡ target_of self.old }
    {
        self.nodes.push(TreeNode::Split(arc))?;
        Ok(())
    }

    /// What the tree comes to, once it is listed.
    pub(crate) fn finish(mut self, neighbours: u32) -> Result<Found<'i>, CloseAloneFault>
        requires growth { IsGrowth self }
        requires small { customer_count self.instance.now ≤ MOST_CLOSED }
        requires tree { IsListedTree version_2 self.instance.now neighbours
            (reverse self.nodes.items) self.bound self.leaves }
        ensures closed { IfOk result (IsClosed self.entry.instance.now neighbours
            self.entry.limit) }
        ensures left_open { IfErr result
            (IsLeftOpen self.entry.instance.now neighbours self.entry.limit) }
        ensures told { IfErr result (ToldTarget self.entry) }
    {
        bounds_hold();
        self.nodes.reverse();
        let bound = Tenths::from(self.bound);
        let cost = match &self.best {
            Some(plan) => Some(plan.cost()),
            None => None,
        };
        if self.is_stopped {
            return Err(CloseAloneFault::LeafLimit {
                cost,
                bound,
                nodes: self.nodes,
            });
        }
        Ok(Found {
            plan: self.best,
            bound,
            sets: Vec::new(self.alloc),
            rows: Vec::new(self.alloc),
            nodes: self.nodes,
        })
    }
}
