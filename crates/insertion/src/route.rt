//! The route under construction.

ghost use Rattle.std.specs.Prelude.{◌≡◌, ◌+◌, ◌≤◌, length, IfOk, IfSome, IfNone};
ghost use Rattle.std.specs.List.{All, insert};
ghost use Rattle.solomon_reader.specs.Plan.{IsFitting};
ghost use Rattle.insertion.specs.Places.{IsBoundedPlace};

use crate::place::{Place, places};
use schedule::walk;
use solomon_reader::Instance;
use std::alloc::{AllocError, Global};

/// A route with its places, and what its vehicle can still load.
#[derive(Drop)]
pub(crate) struct OpenRoute<'i> {
    pub(crate) instance: &'i Instance,
    pub(crate) visits: Vec<u16>,
    pub(crate) places: Vec<Place>,
    pub(crate) room: u32,
    ghost known: { All (λ g. IsBoundedPlace instance.now g) places.items },
    ghost count: { length places.items ≡ length visits.items + 1 },
}

impl<'i> OpenRoute<'i> {
    /// The route of these visits, or `None` where it is no fitting one.
    pub(crate) fn new(
        alloc: Global,
        instance: &'i Instance,
        visits: Vec<u16>,
    ) -> Result<Option<OpenRoute<'i>>, AllocError>
        ensures instance { IfOk result
            (λ route. IfSome route (λ r. r.instance.now ≡ instance.now)) }
        ensures visits { IfOk result (λ route. IfSome route (λ r. r.visits.items ≡ visits.items)) }
        ensures fits { IfOk result (λ route. IfSome route
            (λ r. IsFitting instance.now visits.items)) }
        ensures none { IfOk result (λ route. IfNone route (¬ IsFitting instance.now visits.items)) }
    {
        let Some(walk) = walk(instance, &visits) else {
            return Ok(None);
        };
        let places = places(alloc, instance, &visits)?;
        let room = u32::from(instance.capacity()) - walk.load;
        Ok(Some(OpenRoute {
            instance,
            visits,
            places,
            room,
        }))
    }

    /// The route with a customer more at this position, or `None` where it is no fitting one.
    pub(crate) fn with(
        &self,
        alloc: Global,
        position: usize,
        customer: u16,
    ) -> Result<Option<OpenRoute<'i>>, AllocError>
        requires { position ≤ length self.now.visits.items }
        ensures instance { IfOk result
            (λ route. IfSome route (λ r. r.instance.now ≡ self.now.instance.now)) }
        ensures visits { IfOk result (λ route. IfSome route
            (λ r. r.visits.items ≡ insert self.now.visits.items position customer)) }
        ensures fits { IfOk result (λ route. IfSome route
            (λ r. IsFitting self.now.instance.now r.visits.items)) }
    {
        let mut visits = self.visits.clone()?;
        visits.insert(position, customer)?;
        OpenRoute::new(alloc, self.instance, visits)
    }
}
