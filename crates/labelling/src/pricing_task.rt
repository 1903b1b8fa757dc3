//! What is to be priced.

ghost use Rattle.std.specs.Prelude.{◌≡◌, ◌≤◌, length, IfOk, []};
ghost use Rattle.std.specs.List.{AllByRecursion};
ghost use Rattle.solomon_reader.specs.Problem.{customer_count};
ghost use Rattle.solomon_reader.specs.CertificateText.{IsPrice};
ghost use Rattle.solomon_reader.specs.SubsetRows.{row_price_sum};
ghost use Rattle.priced_sets.specs.Sets.{IsWithin};
ghost use Rattle.row_charges.specs.Rows.{rows_of};
ghost use Rattle.fronts.specs.Fronts.{IsWithinAll};
ghost use Rattle.labelling.specs.PricedRows.{ArePricedRows, props};
ghost use Rattle.solomon_reader.specs.declared.limits.TheConstants.{MOST_NEIGHBOURS, MOST_PRICE, MOST_ROW_PRICES};

use branching::Region;
use priced_sets::PricedSets;
use row_charges::PricedRow;
use solomon_reader::Instance;
use std::alloc::AllocError;

/// Prices at a region of an instance, of which the least reduced cost is asked.
#[derive(Debug, Drop)]
pub struct PricingTask<'i> {
    /// The instance.
    pub instance: &'i Instance,
    /// The region whose relaxed routes count.
    pub region: Region,
    /// How many neighbours each customer has in relaxed routes, at most 15.
    pub neighbours: u32,
    /// The prices in grains; that of customer i stands at i - 1.
    pub prices: Vec<i64>,
    /// The sets that have a price.
    pub sets: PricedSets<'i>,
    /// The rows of three customers that have a price, at most 256, in increasing order.
    pub rows: Vec<PricedRow>,
    ghost size: { region.size ≡ customer_count instance.now },
    ghost count: { length prices.items ≡ customer_count instance.now },
    ghost priced: { AllByRecursion IsPrice prices.items } by { Prim.hlevel props },
    ghost few: { neighbours ≤ MOST_NEIGHBOURS },
    ghost same: { sets.problem ≡ instance.now },
    ghost few_rows: { length rows.items ≤ MOST_ROW_PRICES },
    ghost low_rows: { row_price_sum (rows_of rows.items) ≤ MOST_PRICE },
    ghost rows_are: { ArePricedRows (customer_count instance.now) (rows_of rows.items) } by { Prim.hlevel props },
    ghost within: { AllByRecursion (IsWithinAll sets.sets (rows_of rows.items)) prices.items } by { Prim.hlevel props },
}

impl<'i> PricingTask<'i> {
    /// The same prices at another region of the instance, unless memory runs out.
    pub fn at(&self, region: &Region) -> Result<PricingTask<'i>, AllocError>
        requires { region.now.size ≡ self.now.region.size }
        ensures instance { IfOk result (λ t. t.instance.now ≡ self.now.instance.now) }
        ensures region { IfOk result (λ t. t.region ≡ region.now) }
        ensures neighbours { IfOk result (λ t. t.neighbours ≡ self.now.neighbours) }
        ensures prices { IfOk result (λ t. t.prices.items ≡ self.now.prices.items) }
        ensures sets { IfOk result (λ t. t.sets ≡ self.now.sets) }
        ensures rows { IfOk result (λ t. t.rows.items ≡ self.now.rows.items) }
    {
        Ok(PricingTask {
            instance: self.instance,
            region: region.try_clone()?,
            neighbours: self.neighbours,
            prices: self.prices.clone()?,
            sets: self.sets.try_clone()?,
            rows: Vec::from_slice(*self.rows.allocator(), self.rows.as_slice())?,
        })
    }

    /// Other prices of customers and sets at the same region, in grains, where no row has one, unless memory runs out.
    #[tactic(auto, using(crate::proofs::Paying::within_alone, crate::proofs::Paying::no_rows_priced))]
    pub fn with(
        &self,
        prices: Vec<i64>,
        sets: PricedSets<'i>,
    ) -> Result<PricingTask<'i>, AllocError>
        requires count { length prices.items ≡ customer_count self.now.instance.now }
        requires same { sets.problem ≡ self.now.instance.now }
        requires in_range { AllByRecursion (IsWithin sets.sets) prices.items }
        ensures instance { IfOk result (λ t. t.instance.now ≡ self.now.instance.now) }
        ensures region { IfOk result (λ t. t.region ≡ self.now.region) }
        ensures neighbours { IfOk result (λ t. t.neighbours ≡ self.now.neighbours) }
        ensures prices { IfOk result (λ t. t.prices ≡ prices) }
        ensures sets { IfOk result (λ t. t.sets ≡ sets.entry) }
        ensures rows { IfOk result (λ t. t.rows.items ≡ []) }
    {
        let rows = Vec::new(*prices.allocator());
        self.with_rows(prices, sets, rows)
    }

    /// Other prices of customers, sets and rows at the same region, in grains, unless memory runs out.
    #[tactic(auto, using(crate::proofs::Paying::priced_within))]
    pub fn with_rows(
        &self,
        prices: Vec<i64>,
        sets: PricedSets<'i>,
        rows: Vec<PricedRow>,
    ) -> Result<PricingTask<'i>, AllocError>
        requires count { length prices.items ≡ customer_count self.now.instance.now }
        requires same { sets.problem ≡ self.now.instance.now }
        requires few { length rows.items ≤ MOST_ROW_PRICES }
        requires low { row_price_sum (rows_of rows.items) ≤ MOST_PRICE }
        requires priced { ArePricedRows (customer_count self.now.instance.now) (rows_of rows.items) }
        requires in_range { AllByRecursion (IsWithinAll sets.sets (rows_of rows.items)) prices.items }
        ensures instance { IfOk result (λ t. t.instance.now ≡ self.now.instance.now) }
        ensures region { IfOk result (λ t. t.region ≡ self.now.region) }
        ensures neighbours { IfOk result (λ t. t.neighbours ≡ self.now.neighbours) }
        ensures prices { IfOk result (λ t. t.prices ≡ prices) }
        ensures sets { IfOk result (λ t. t.sets ≡ sets.entry) }
        ensures rows { IfOk result (λ t. t.rows ≡ rows) }
    {
        Ok(PricingTask {
            instance: self.instance,
            region: self.region.try_clone()?,
            neighbours: self.neighbours,
            prices,
            sets,
            rows,
        })
    }
}
