//! The places of a route, each of which one more customer may be put into.

ghost use Rattle.std.specs.Prelude.{◌≡◌, ◌+◌, ◌*◌, ◌<◌, ◌≤◌, length, IfOk};
ghost use Rattle.std.specs.List.{All};
ghost use Rattle.solomon_reader.specs.declared.limits.TheConstants.{MOST_TIME};
ghost use Rattle.solomon_reader.specs.Problem.{IsCustomer};
ghost use Rattle.insertion.specs.Places.{IsBoundedPlace};

use solomon_reader::Instance;
use std::alloc::{AllocError, Global};

/// The place between two stops of a route, the depot standing at both ends. Times are tenths.
#[derive(Clone, Copy)]
pub(crate) struct Place {
    /// The stop before, and when it is left.
    pub(crate) before: u16,
    pub(crate) leaves: u64,
    /// The stop after, and when its service begins; for the depot, when it is reached.
    pub(crate) after: u16,
    pub(crate) begins: u64,
    /// When the stop after may be reached at the latest, so that the rest of the route is in time.
    pub(crate) latest: u64,
    /// The way between the two.
    pub(crate) arc: u64,
}

impl Place {
    /// The place after a stop that is left at this time. Its stop after is not late, so that the
    /// due date cuts nothing off.
    fn between(instance: &Instance, before: u16, leaves: u64, after: u16) -> Place
        requires before { before < length instance.now.rows }
        requires after { after < length instance.now.rows }
        requires leaves { leaves ≤ 20 * MOST_TIME }
        ensures { IsBoundedPlace instance.now result }
    {
        let arc = instance.distance(before, after).get();
        let due = instance.due(after);
        Place {
            before,
            leaves,
            after,
            begins: (leaves + arc).max(instance.ready(after)).min(due),
            latest: due,
            arc,
        }
    }
}

/// Lowers each latest time so far that the stops after it are in time, too.
fn tighten(instance: &Instance, places: &mut [Place])
    requires { All (λ g. IsBoundedPlace instance.now g) places.old }
    ensures known { All (λ g. IsBoundedPlace instance.now g) places.new }
    ensures len { length places.new ≡ length places.old }
{
    let mut latest = u64::MAX;
    for index in (0..places.len()).rev() {
        let place = places[index];
        let here = place.latest.min(latest);
        places[index].latest = here;
        latest = here.saturating_sub(place.arc + instance.service(place.before));
    }
}

/// The places of a fitting route, in order.
pub(crate) fn places(
    alloc: Global,
    instance: &Instance,
    visits: &[u16],
) -> Result<Vec<Place>, AllocError>
    requires depot { 0 < length instance.now.rows }
    requires known { All (λ i. IsCustomer instance.now i) visits.now }
    ensures known { IfOk result (λ v. All (λ g. IsBoundedPlace instance.now g) v.items) }
    ensures len { IfOk result (λ v. length v.items ≡ length visits.now + 1) }
{
    let mut places = Vec::new(alloc);
    let mut before = 0;
    let mut leaves = instance.ready(0);
    for stop in visits {
        let place = Place::between(instance, before, leaves, *stop);
        before = *stop;
        leaves = place.begins + instance.service(*stop);
        places.push(place)?;
    }
    places.push(Place::between(instance, before, leaves, 0))?;
    tighten(instance, &mut places);
    Ok(places)
}
