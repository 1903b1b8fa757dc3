//! Prices with their value.

ghost use Rattle.std.specs.Prelude.{◌≡◌, ◌≢◌, ◌≤◌, ◌↔◌, length, pos, IfOk, IfErr, IfSome, None, []};
ghost use Rattle.std.specs.List.{AllByRecursion};
ghost use Rattle.solomon_reader.specs.Problem.{customer_count};
ghost use Rattle.solomon_reader.specs.Region.{root_region};
ghost use Rattle.solomon_reader.specs.CertificateText.{IsPrice};
ghost use Rattle.solomon_reader.specs.declared.limits.TheConstants.{MOST_NEIGHBOURS, MOST_ROW_PRICES};
ghost use Rattle.labelling.specs.declared.fault.LabelFault.TheVariants as label;
ghost use Rattle.priced_sets.specs.Sets.{sets_of, ArePriced};
ghost use Rattle.row_charges.specs.Rows.{rows_of};
ghost use Rattle.fronts.specs.Fronts.{IsWithinAll};
ghost use Rattle.labelling.specs.PricedRows.{ArePricedRows};
ghost use Rattle.labelling.specs.Pricings as labelling;
ghost use Rattle.prices.specs.ValuedPrices.{IsValued, IsPricedBy, leaf_of};
ghost use Rattle.prices.specs.Tasks.{valued_at};
ghost use Rattle.prices.specs.Steps.{IsGuide};
ghost use Rattle.prices.specs.Narrowing.{IsNarrower, IsSameAt};
ghost use Rattle.labelling.specs.Answer.{HasLeastValueAt, HasItsRouteAt};
ghost use Rattle.prices.specs.declared.fault.PriceFault.TheVariants.{LabelLimit, PriceRange};

use crate::fault::PriceFault;
use crate::narrowing::stays_least;
use crate::range::are_prices;
use crate::valuing::{charge_of, least_of, sum_of, value_of};
use branching::Region;
use labelling::{Hints, Kept, LabelFault, Least, PricingTask, least_by_hints};
use priced_sets::{PricedSet, PricedSets};
use row_charges::PricedRow;
use solomon_reader::Instance;
use std::alloc::{AllocError, Global};
use std::marker::Model;

/// A price for each customer, for some sets and for some rows at a region of an instance, and the value that they give:
/// every plan that obeys the region costs at least the value. Contracts see all seven. Beside them stands the least
/// reduced cost over the relaxed routes, with its route.
#[derive(Debug, Drop)]
pub struct Priced<'i> {
    task: PricingTask<'i>,
    value: u128,
    least: Least,
}

impl<'i> Model for Priced<'i> {
    ghost use Rattle.std.specs.Coded.{codes};
    ghost use Rattle.solomon_reader.specs.Region.{region_code};
    ghost use Rattle.prices.specs.ValuedPrices.{ValuedPrices, IsValued, leaf_of};
    ghost use Rattle.prices.specs.Tasks.{valued_at};
    ghost use Rattle.labelling.specs.Answer.{HasLeastValueAt, HasItsRouteAt};

    ghost Value = { ValuedPrices };

    ghost coded = { Prim.hlevel (codes, region_code) };

    ghost view = { λ f. valued_at f.task f.value };

    ghost invariant = { λ f. IsValued (valued_at f.task f.value)
        × HasLeastValueAt f.task.instance.now f.task.region f.task.neighbours (leaf_of (valued_at f.task f.value)) f.least
        × HasItsRouteAt f.task.instance.now f.task.region f.task.neighbours (leaf_of (valued_at f.task f.value)) f.least };
}

/// The value of the prices in tenths, and the least reduced cost that gives it.
fn evaluate(
    alloc: Global,
    task: &PricingTask<'_>,
    limit: Option<usize>,
    hints: &Hints<'_>,
    kept: &mut Kept,
) -> Result<(u128, Least), LabelFault>
    ensures value { let t = task.now in
        IfOk result (λ v. IsValued (valued_at t v.0)) }
    ensures least { let t = task.now in
        IfOk result (λ v. HasLeastValueAt t.instance.now t.region t.neighbours (leaf_of (valued_at t v.0)) v.1) }
    ensures route { let t = task.now in
        IfOk result (λ v. HasItsRouteAt t.instance.now t.region t.neighbours (leaf_of (valued_at t v.0)) v.1) }
    ensures unlimited { IfErr result (λ e. e ≡ label.LabelLimit → limit ≢ None) }
{
    let instance = task.instance;
    instance.law_of_limits();
    // their prices are within range
    let _sets = task.sets.as_slice();
    let found = least_by_hints(alloc, task, limit, hints, kept)?;
    let value = value_of(
        instance.fleet(),
        instance.fewest_routes(),
        sum_of(task.prices.as_slice())
            .more(task.sets.paid_for_needs())
            .less(charge_of(task.rows.as_slice())),
        least_of(found.value),
    );
    Ok((value, found))
}

/// A price of zero for each customer.
fn no_prices(alloc: Global, instance: &Instance) -> Result<Vec<i64>, AllocError>
    ensures len { IfOk result (λ prices. length prices.items ≡ customer_count instance.now) }
    ensures zero { IfOk result (λ prices. AllByRecursion (λ z. z ≡ pos 0) prices.items) }
    ensures priced { IfOk result (λ prices. AllByRecursion IsPrice prices.items) }
{
    let count = instance.customer_count();
    Ok(vec![in alloc; 0; count as usize]?)
}

/// A copy of a least reduced cost with its route.
fn copy_of(least: &Least) -> Result<Least, AllocError>
    ensures value { IfOk result (λ l. l.value ≡ least.now.value) }
    ensures route { IfOk result (λ l. l.route.items ≡ least.now.route.items) }
{
    Ok(Least {
        value: least.value,
        route: least.route.clone()?,
    })
}

impl<'i> Priced<'i> {
    /// These prices, in grains, with their value; `prices[i - 1]` is that of customer i. Each
    /// customer has this many neighbours, at most 15. `PriceRange` where a price is outside its
    /// range, which is looked for first; `LabelLimit` where as many labels stand as `limit` allows;
    /// `Memory`. A refusal gives region and prices back.
    pub fn of(
        alloc: Global,
        instance: &'i Instance,
        region: Region,
        neighbours: u32,
        prices: Vec<i64>,
        limit: Option<usize>,
    ) -> Result<Priced<'i>, (Region, Vec<i64>, PriceFault)>
        requires size { region.size ≡ customer_count instance.now }
        requires count { length prices.items ≡ customer_count instance.now }
        requires few { neighbours ≤ MOST_NEIGHBOURS }
        ensures problem { IfOk result (λ f. f.problem ≡ instance.now) }
        ensures region { IfOk result (λ f. f.region ≡ region) }
        ensures neighbours { IfOk result (λ f. f.neighbours ≡ neighbours) }
        ensures prices { IfOk result (λ f. f.prices ≡ prices.items) }
        ensures sets { IfOk result (λ f. f.sets ≡ []) }
        ensures rows { IfOk result (λ f. f.rows ≡ []) }
        ensures valued { IfOk result (λ f. IsValued f) }
        ensures in_range { IfOk result (λ f. AllByRecursion IsPrice prices.items) }
        ensures out_of_range { IfErr result
            (λ e. e.2 ≡ PriceRange ↔ (¬ AllByRecursion IsPrice prices.items)) }
        ensures unlimited { IfErr result (λ e. e.2 ≡ LabelLimit → limit ≢ None) }
        ensures region_back { IfErr result (λ e. e.0 ≡ region) }
        ensures prices_back { IfErr result (λ e. e.1 ≡ prices) }
    {
        if !are_prices(prices.as_slice()) {
            return Err((region, prices, PriceFault::PriceRange));
        }
        let task = PricingTask {
            instance,
            region,
            neighbours,
            prices,
            sets: PricedSets::none(alloc, instance),
            rows: Vec::new(alloc),
        };
        let (hints, mut kept) = (Hints::none(alloc), Kept::nothing(alloc));
        match Priced::by_hints(alloc, task, limit, &hints, &mut kept) {
            Ok(priced) => Ok(priced),
            Err((task, fault)) => Err((task.region, task.prices, PriceFault::from(fault))),
        }
    }

    /// What `of` answers for a task, found sooner where a route of low reduced cost, the tables of the instance or
    /// an earlier search are known. It keeps further routes that were met.
    pub fn by_hints(
        alloc: Global,
        task: PricingTask<'i>,
        limit: Option<usize>,
        hints: &Hints<'_>,
        kept: &mut Kept,
    ) -> Result<Priced<'i>, (PricingTask<'i>, LabelFault)>
        ensures priced { let t = task.entry in
            IfOk result (IsPricedBy t.instance.now t.region t.neighbours (labelling.leaf_of t)) }
        ensures unlimited { IfErr result (λ e. e.1 ≡ label.LabelLimit → limit ≢ None) }
        ensures back { IfErr result (λ e. e.0 ≡ task.entry) }
    {
        match evaluate(alloc, &task, limit, hints, kept) {
            Ok((value, least)) => Ok(Priced { task, value, least }),
            Err(fault) => Err((task, fault)),
        }
    }

    /// The root of an instance at prices of 0, with this many neighbours, at most 15, found sooner where the tables of
    /// the instance are known. `LabelLimit` where as many labels stand as `limit` allows; `Memory`.
    pub fn root(
        alloc: Global,
        instance: &'i Instance,
        neighbours: u32,
        limit: Option<usize>,
        hints: &Hints<'_>,
    ) -> Result<Priced<'i>, LabelFault>
        requires { neighbours ≤ MOST_NEIGHBOURS }
        ensures problem { IfOk result (λ f. f.problem ≡ instance.now) }
        ensures region { IfOk result (λ f. f.region ≡ root_region (customer_count instance.now)) }
        ensures neighbours { IfOk result (λ f. f.neighbours ≡ neighbours) }
        ensures prices { IfOk result (λ f. AllByRecursion (λ z. z ≡ pos 0) f.prices) }
        ensures sets { IfOk result (λ f. f.sets ≡ []) }
        ensures rows { IfOk result (λ f. f.rows ≡ []) }
        ensures valued { IfOk result (λ f. IsValued f) }
        ensures unlimited { IfErr result (λ e. e ≡ label.LabelLimit → limit ≢ None) }
    {
        let task = PricingTask {
            instance,
            region: Region::root(alloc, instance.customer_count()),
            neighbours,
            prices: no_prices(alloc, instance)?,
            sets: PricedSets::none(alloc, instance),
            rows: Vec::new(alloc),
        };
        match Priced::by_hints(alloc, task, limit, hints, &mut Kept::nothing(alloc)) {
            Ok(priced) => Ok(priced),
            Err((_task, fault)) => Err(fault),
        }
    }

    /// What was priced.
    pub fn task(&self) -> &PricingTask<'i>
        ensures instance { result.now.instance.now ≡ self.now.problem }
        ensures region { result.now.region ≡ self.now.region }
        ensures neighbours { result.now.neighbours ≡ self.now.neighbours }
        ensures prices { result.now.prices.items ≡ self.now.prices }
        ensures sets { result.now.sets.sets ≡ self.now.sets }
        ensures rows { rows_of result.now.rows.items ≡ self.now.rows }
    {
        &self.task
    }

    /// The instance.
    pub fn instance(&self) -> &'i Instance
        ensures { result.now ≡ self.now.problem }
    {
        self.task.instance
    }

    /// The region.
    pub fn region(&self) -> &Region
        ensures value { result.now ≡ self.now.region }
        ensures size { self.now.region.size ≡ customer_count self.now.problem }
    {
        &self.task.region
    }

    /// How many neighbours each customer has in relaxed routes.
    pub fn neighbours(&self) -> u32
        ensures value { result ≡ self.now.neighbours }
        ensures bound { result ≤ MOST_NEIGHBOURS }
    {
        self.task.neighbours
    }

    /// The prices in grains; that of customer i stands at i - 1.
    pub fn prices(&self) -> &[i64]
        ensures value { result.now ≡ self.now.prices }
        ensures count { length self.now.prices ≡ customer_count self.now.problem }
        ensures in_range { AllByRecursion IsPrice self.now.prices }
    {
        self.task.prices.as_slice()
    }

    /// The sets that have a price, with their prices in grains.
    pub fn sets(&self) -> &[PricedSet]
        ensures value { sets_of result.now ≡ self.now.sets }
        ensures priced { ArePriced self.now.problem self.now.sets }
        ensures in_range { AllByRecursion (IsWithinAll self.now.sets self.now.rows) self.now.prices }
    {
        self.task.sets.as_slice()
    }

    /// The rows of three customers that have a price, in increasing order, with their prices in grains.
    pub fn rows(&self) -> &[PricedRow]
        ensures value { rows_of result.now ≡ self.now.rows }
        ensures few { length self.now.rows ≤ MOST_ROW_PRICES }
        ensures priced { ArePricedRows (customer_count self.now.problem) self.now.rows }
    {
        self.task.rows.as_slice()
    }

    /// The value in tenths: the prices, those of sets as often as these are entered at least, less those of rows, and less
    /// what each vehicle may take back where the least reduced cost is below zero, and where it is above, what it costs
    /// each route that carries the demands; rounded up, and not below zero.
    pub fn value(&self) -> i128
        ensures is { result ≡ pos self.now.value }
        ensures valued { IsValued self.now }
    {
        self.value as i128
    }

    /// The value in tenths, as histories and trees have it.
    pub fn tenths(&self) -> u128
        ensures value { result ≡ self.now.value }
        ensures valued { IsValued self.now }
    {
        self.value
    }

    /// The least reduced cost over the relaxed routes of the region at these prices, in grains, with
    /// a route that has it.
    pub fn least(&self) -> &Least
        ensures value { HasLeastValueAt self.now.problem self.now.region self.now.neighbours (leaf_of self.now) result.now }
        ensures route { HasItsRouteAt self.now.problem self.now.region self.now.neighbours (leaf_of self.now) result.now }
    {
        &self.least
    }

    /// The same prices at a region that allows no other arcs, where the value stays since the route of
    /// the least reduced cost is allowed there, too, or there is none; nothing where the route isn't
    /// allowed. It takes no pricing.
    pub fn narrowed(&self, region: &Region) -> Result<Option<Priced<'i>>, AllocError>
        requires { IsNarrower region.now self.now.region }
        ensures { IfOk result (λ found. IfSome found (IsSameAt region.now self.now)) }
    {
        if !stays_least(region, &self.least) {
            return Ok(None);
        }
        let task = self.task.at(region)?;
        let least = copy_of(&self.least)?;
        Ok(Some(Priced {
            task,
            value: self.value,
            least,
        }))
    }

    /// The route that a step goes by: one of the least reduced cost where that is below zero, else the
    /// empty one.
    pub(crate) fn guide(&self) -> &[u16]
        ensures { IsGuide self.now result.now }
    {
        let least = self.least();
        match least.value {
            Some(cost) if cost < 0 => least.route.as_slice(),
            _ => &[],
        }
    }

    /// A copy, unless memory runs out.
    pub fn try_clone(&self) -> Result<Priced<'i>, AllocError>
        ensures { IfOk result (λ f. f ≡ self.now) }
    {
        let task = self.task.at(&self.task.region)?;
        let least = copy_of(&self.least)?;
        Ok(Priced {
            task,
            value: self.value,
            least,
        })
    }
}
