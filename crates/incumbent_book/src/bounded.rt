//! An instance with its ceiling.

ghost use Rattle.std.specs.Prelude.{◌≡◌, ◌+◌, ◌≤◌, ◌*◌};
ghost use Rattle.solomon_reader.specs.Bound.{ceiling_of};
ghost use Rattle.tenths.specs.declared.value.TheConstants.{MOST_TENTHS};

use solomon_reader::Instance;
use std::marker::Model;

/// An instance and the ceiling plus one, which is found once, since it takes every distance.
/// Contracts see the instance.
#[derive(Drop)]
pub(crate) struct Bounded<'i> {
    instance: &'i Instance,
    above: u32,
}

impl<'i> Model for Bounded<'i> {
    ghost use Rattle.std.specs.Prelude.{◌≡◌, ◌+◌};
    ghost use Rattle.solomon_reader.specs.Problem.{Problem};
    ghost use Rattle.solomon_reader.specs.Bound.{ceiling_of};

    ghost Value = { Problem };

    ghost view = { λ b. b.instance.now };

    ghost invariant = { λ b. b.above ≡ ceiling_of b.instance.now + 1 };
}

impl<'i> Bounded<'i> {
    /// An instance with its ceiling.
    pub(crate) fn new(instance: &'i Instance) -> Bounded<'i>
        ensures { result ≡ instance.now }
    {
        Bounded {
            instance,
            above: instance.above_ceiling(),
        }
    }

    /// The instance.
    pub(crate) fn instance(&self) -> &'i Instance
        ensures { result.now ≡ self.now }
    {
        self.instance
    }

    /// The ceiling plus one, in tenths, which no plan's cost reaches.
    pub(crate) fn above(&self) -> u32
        ensures { result ≡ ceiling_of self.now + 1 }
    {
        self.above
    }
}
