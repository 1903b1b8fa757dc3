//! The limits of instances and of certificates, each named once for the code and the definitions.

/// The most bytes of a name.
pub const MOST_NAME: usize = 32;

/// The most vehicles.
pub const MOST_FLEET: u16 = 1_000;

/// The greatest capacity of a vehicle.
pub const MOST_CAPACITY: u16 = 10_000;

/// The most customers.
pub const MOST_CUSTOMERS: u16 = 400;

/// The greatest coordinate, in units of the file.
pub const MOST_COORDINATE: u16 = 10_000;

/// The greatest distance between two points within the coordinates, in tenths.
pub const MOST_DISTANCE: u32 = 141_421;

/// The greatest demand of a customer.
pub const MOST_DEMAND: u16 = 10_000;

/// The greatest ready time, due date and service time, in units of the file.
pub const MOST_TIME: u32 = 1_000_000;

/// The most neighbours of a customer in relaxed routes.
pub const MOST_NEIGHBOURS: u32 = 15;

/// The greatest price of a customer, and the greatest below zero, in grains.
pub const MOST_PRICE: u64 = 1_000_000_000_000;

/// The most events of a history.
pub const MOST_EVENTS: usize = 1_000_000;

/// The most leaves of a tree.
pub const MOST_LEAVES: u32 = 100_000;

/// The most arcs on a path of a tree.
pub const MOST_DEPTH: u32 = 600;

/// The most sets of customers that a certificate lists.
pub const MOST_SETS: u32 = 1_000;

/// The most rows of three customers that a certificate lists.
pub const MOST_ROWS: u32 = 1_000;

/// The most rows that have a price at a leaf.
pub const MOST_ROW_PRICES: usize = 256;

/// The most entries that a listed set needs: what all customers with the greatest demand need where a vehicle holds 1.
pub const MOST_NEED: u32 = 4_000_000;
