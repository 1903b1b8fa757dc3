//! Where a vehicle stands after the first stops of a route.

ghost use Rattle.std.specs.Prelude.{◌≡◌, ◌↔◌, ◌+◌, ◌≤◌, IsTrue};
ghost use Rattle.solomon_reader.specs.Problem.{due};
ghost use Rattle.solomon_reader.specs.Distance.{distance};
ghost use Rattle.fronts.specs.Fronts.{end_cost, IsBounded, IsStart};

use solomon_reader::Instance;

/// Where a vehicle stands, and what it has loaded and cost so far.
#[derive(Clone, Copy)]
pub struct Front {
    /// The last stop: 0 is the depot.
    pub last: u16,
    /// When the vehicle may leave it, in tenths.
    pub time: u64,
    /// The sum of the demands.
    pub load: u32,
    /// The reduced cost, in grains.
    pub cost: i64,
}

impl Front {
    /// A vehicle that is about to leave the depot.
    pub fn start(instance: &Instance) -> Front
        ensures start { IsStart instance.now result }
        ensures bounded { IsBounded instance.now result }
    {
        instance.law_of_limits();
        Front {
            last: 0,
            time: instance.ready(0),
            load: 0,
            cost: 0,
        }
    }

    /// Whether the vehicle is back at the depot before that closes.
    pub fn is_back_in_time(self, instance: &Instance) -> bool
        requires { IsBounded instance.now self }
        ensures { IsTrue result ↔ (self.time + distance instance.now self.last 0 ≤ due instance.now 0) }
    {
        self.time + instance.distance(self.last, 0).get() <= instance.due(0)
    }

    /// The reduced cost with the return to the depot, in grains.
    pub fn end_cost(self, instance: &Instance) -> i64
        requires { IsBounded instance.now self }
        ensures { result ≡ end_cost instance.now self }
    {
        let grains = 1000 * instance.distance(self.last, 0).get();
        self.cost + grains as i64
    }
}
