//! Random words for each worker.

ghost use Rattle.std.specs.Prelude.{◌≡◌};
ghost use Rattle.rand_xoshiro.specs.SplitMix64.{splitmix_seed};
ghost use Rattle.rand_xoshiro.specs.Xoshiro256.{of_seed};
ghost use Rattle.run_settings.specs.Generators.{jumped};

use rand_core::SeedableRng;
use rand_xoshiro::Xoshiro256PlusPlus;

/// The generator that worker w draws its words from: that of the seed, after w jumps. The words of
/// different workers don't meet.
#[tactic(auto, unfolding(crate::specs::Generators::jumped))]
pub fn generator(seed: u32, worker: u16) -> Xoshiro256PlusPlus
    ensures { result ≡ jumped worker (of_seed (splitmix_seed 32 seed)) }
{
    let mut random = Xoshiro256PlusPlus::seed_from_u64(u64::from(seed));
    for _ in 0..worker {
        random.jump();
    }
    random
}
