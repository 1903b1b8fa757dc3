//! What stands in a deque once all its ends are together again.

ghost use Rattle.std.specs.Prelude.{◌≡◌, ◌≢◌, ◌⊎◌, ◌<◌, ◌≤◌, ◌∷◌, ◌++◌, ℕ, [], true, length, map, slice_index_or, vec_capacity, IfOk, IfErr};
ghost use Rattle.std.specs.List.{All};
ghost use Rattle.solomon_reader.specs.DequeLaw.{IsBalanced, all_taken};
ghost use Rattle.node_pool.specs.Law.{Stand, all_parts, known};
ghost use Rattle.node_pool.specs.declared.fault.PoolFault.TheVariants.{Memory, MissingPass};

use crate::fault::PoolFault;
use crate::hand::Hand;
use crate::pass::Pass;
use std::alloc::Global;

impl Hand {
    ghost use Rattle.node_pool.specs.declared.pass.Pass.{Pass};
    ghost use Rattle.node_pool.specs.Deques.{FitsAt, KeepsOthers, taken_by};
    ghost use Rattle.node_pool.specs.Ends.{deque_of, known_to};

    /// Takes this deque's shares back from the passes.
    fn take_all_back(&mut self, passes: &mut [Pass])
        requires fits { All (FitsAt (deque_of self.old)) passes.old }
        requires whole { length passes.old ≡ self.old.others }
        ensures knows { known_to self.new ≡ known true all_parts (known_to self.old).pushed
            ((known_to self.old).taken ++ all_taken
            (map (taken_by (deque_of self.old)) passes.old)) }
        ensures alone { self.new.others ≡ 0 }
        ensures pushes { self.new.pushes ≡ self.old.pushes }
        ensures others { (k : ℕ) (p : Pass) → k < length passes.old → KeepsOthers self.old.number
            (slice_index_or passes.old k p) (slice_index_or passes.new k p) }
    {
        for pass in passes.iter_mut() {
            self.take_back(&mut pass.passes[self.number]);
        }
    }

    /// Moves what stands into the list, the oldest first.
    fn empty_into(&mut self, mut stands: Vec<u32>) -> Vec<u32>
        requires alone { self.old.others ≡ 0 }
        requires none { stands.items ≡ [] }
        requires room { self.old.pushes ≤ vec_capacity stands }
        ensures { Stand (known_to self.old) result.items }
    {
        let count = self.standing();
        for _ in 0..count {
            let Some(number) = self.pop() else {
                unreachable!()
            };
            stands.push_reserved(number);
        }
        stands
    }

    /// The numbers that stand, the oldest first, once all passes of the pool are together again: what
    /// left the deque and then these are what was pushed, in order, and each number left as often as this
    /// end and the passes took it. The deque is spent, and the passes serve the others as before.
    /// `MissingPass` where passes are missing, and `Memory`; then all is as it was, and this end comes
    /// back.
    pub fn audit(
        mut self,
        alloc: Global,
        passes: &mut [Pass],
    ) -> Result<Vec<u32>, (Hand, PoolFault)>
        requires { All (FitsAt (deque_of self)) passes.old }
        ensures balance { IfOk result (λ stands. IsBalanced (known_to self).pushed
            ((known_to self).taken ∷ map (taken_by (deque_of self)) passes.old) stands.items) }
        ensures whole { IfOk result (λ _. length passes.old ≡ self.others) }
        ensures others { IfOk result (λ _. (k : ℕ) (p : Pass) → k < length passes.old
            → KeepsOthers self.number (slice_index_or passes.old k p)
            (slice_index_or passes.new k p)) }
        ensures back { IfErr result (λ e. (e.0 ≡ self) × (passes.new ≡ passes.old)) }
        ensures fault { IfErr result (λ e.
            ((e.1 ≡ MissingPass) × (length passes.old ≢ self.others)) ⊎ (e.1 ≡ Memory)) }
    {
        if passes.len() != self.others {
            return Err((self, PoolFault::MissingPass));
        }
        let Ok(stands) = Vec::with_capacity(alloc, self.pushes as usize) else {
            return Err((self, PoolFault::Memory));
        };
        self.take_all_back(passes);
        Ok(self.empty_into(stands))
    }
}
