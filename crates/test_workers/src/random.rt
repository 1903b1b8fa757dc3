//! The random words of the workers.

use rand_core::SeedableRng;
use rand_xoshiro::Xoshiro256PlusPlus;
use run_settings::generator;

#[test]
fn each_worker_is_a_jump_further(rt: HostRuntime) {
    let mut random = Xoshiro256PlusPlus::seed_from_u64(7);
    for worker in 0..3 {
        assert!(rt; generator(7, worker) == random, "{worker}");
        random.jump();
    }
}
