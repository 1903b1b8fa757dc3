//! Bounds on what may follow, where a step is shorter than a slot of the table.

use branching::Region;
use completions::Completions;
use fronts::{Nearness, Payment, Task};
use solomon_reader::read;
use std::test::Fail;

/// Two customers, from one to the other 2 with the service there, and the depot open for 600.
const NEAR: &str =
    "near VEHICLE NUMBER CAPACITY 2 10 CUSTOMER CUST NO. XCOORD. YCOORD. DEMAND READY TIME DUE DATE SERVICE TIME 0 0 0 0 0 600 0 1 5 0 1 0 600 1 2 6 0 1 0 600 1";

#[test]
fn a_short_step_leads_into_a_later_slot(rt: HostRuntime) -> Result<(), Fail> {
    let alloc = rt.alloc();
    let instance = read(alloc, NEAR.as_bytes())?;
    let nearness = Nearness::new(alloc, &instance, 0)?;
    let region = Region::root(alloc, instance.customer_count());
    let prices = vec![in alloc; 0; usize::from(instance.customer_count())]?;
    let payment = Payment {
        prices: prices.as_slice(),
        sets: &[],
        rows: &[],
    };
    let task = Task::new(alloc, &nearness, &region, payment)?;
    let completions = Completions::new(&task, 0)?;
    assert_eq!(rt; completions.at(1, 60).least, 50_000);
    Ok(())
}
