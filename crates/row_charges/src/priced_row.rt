//! Rows of three customers that have a price.

ghost use Rattle.std.specs.Prelude.{◌≡◌};
ghost use Rattle.solomon_reader.specs.SubsetRows.{in_row};
ghost use Rattle.solomon_reader.specs.CertificateText.{is_before};
ghost use Rattle.row_charges.specs.Rows.{row_of};

/// Three customers, and what a route pays at each charge.
#[derive(Clone, Copy, Debug)]
pub struct PricedRow {
    /// The first customer.
    pub first: u16,
    /// The second one.
    pub second: u16,
    /// The third one.
    pub third: u16,
    /// What a charge costs, in grains.
    pub price: u64,
}

impl PricedRow {
    /// Whether a customer is one of the three.
    pub fn has(&self, customer: u16) -> bool
        ensures { result ≡ in_row (row_of self.now).row customer }
    {
        customer == self.first || customer == self.second || customer == self.third
    }

    /// Whether the row stands before another one: by its first customer, then the second, then the third.
    pub fn is_before(&self, other: &PricedRow) -> bool
        ensures { result ≡ is_before (row_of self.now).row (row_of other.now).row }
    {
        self.first < other.first
            || self.first == other.first
                && (self.second < other.second
                    || self.second == other.second && self.third < other.third)
    }
}
