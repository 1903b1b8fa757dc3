//! The end of a deque that one worker holds.

ghost use Rattle.std.specs.Prelude.{◌≡◌, ◌<◌, ◌≤◌, ◌-◌, ◌+◌, ◌^◌, ◌∷◌, ◌++◌, ℕ, List, [], true, false, length, MatchOption, MatchResult, IfOk};
ghost use Rattle.crossbeam_deque.specs.Handles.{view, IsPassOf, worker_deque};
ghost use Rattle.node_pool.specs.Owners.{IsOwner};
ghost use Rattle.node_pool.specs.Law.{WasEmpty, StoodFirst, Stand, known, all_parts};
ghost use Rattle.node_pool.specs.declared.fault.PoolFault.TheVariants.{Full};

use crate::fault::PoolFault;
use crate::law::{Dealt, Joined, Known, Law, Pushed, Spent, Standing, Taken};
use crate::thief::Thief;
use crossbeam_deque::Worker;
use std::alloc::{AllocError, Global};
use std::mem::replace;

/// The end of a deque that its worker holds. It has room for all that is pushed in its life.
#[derive(Drop)]
pub struct Hand {
    owner: Worker<u32, Global, Known, Law>,
    pub(crate) number: usize,
    pub(crate) others: usize,
    pub(crate) pushes: u64,
    room: u64,
    ghost fits: { IsOwner owner others pushes room },
}

impl Hand {
    ghost use Rattle.node_pool.specs.Deques.{IsShareOf};
    ghost use Rattle.node_pool.specs.Ends.{IsEmptyHand, deque_at, deque_of, known_to};

    /// An empty deque with this number, and room for this many pushes.
    pub(crate) fn new(alloc: Global, number: usize, room: usize) -> Result<Hand, AllocError>
        ensures number { IfOk result (λ h. h.number ≡ number) }
        ensures empty { IfOk result (λ h. IsEmptyHand 0 room h) }
    {
        let owner = Worker::<u32, Global, Known, Law>::fifo_as(alloc, room)?;
        Ok(Hand {
            owner,
            number,
            others: 0,
            pushes: 0,
            room: room as u64,
        })
    }

    /// The end of the deque from which others steal.
    pub(crate) fn thief(&self) -> Result<Thief, AllocError>
        ensures { IfOk result (λ t. deque_at t ≡ deque_of self.now) }
    {
        let others = self.owner.stealer()?;
        Ok(Thief {
            others,
            number: self.number,
        })
    }

    /// A pass of the deque, with one part.
    pub(crate) fn pass(&mut self) -> crossbeam_deque::Pass<u32, Known>
        requires { self.old.others < 2 ^ 64 - 1 }
        ensures of { IsShareOf (deque_of self.new) result }
        ensures fresh { view result ≡ known false 1 [] [] }
        ensures knows { known_to self.new ≡ known true ((known_to self.old).parts - 1)
            (known_to self.old).pushed (known_to self.old).taken }
        ensures others { self.new.others ≡ self.old.others + 1 }
        ensures same { (deque_of self.new ≡ deque_of self.old) ×
            (self.new.pushes ≡ self.old.pushes) × (self.new.room ≡ self.old.room) }
    {
        self.others += 1;
        self.owner.another::<Dealt>()
    }

    /// Takes a pass back, with its part and what it took, and leaves one in its place that has no part.
    pub(crate) fn take_back(&mut self, pass: &mut crossbeam_deque::Pass<u32, Known>)
        requires some { 0 < self.old.others }
        requires of { IsShareOf (deque_of self.old) pass.old }
        ensures knows { known_to self.new ≡ known true ((known_to self.old).parts + 1)
            (known_to self.old).pushed ((known_to self.old).taken ++ (view pass.old).taken) }
        ensures others { self.new.others + 1 ≡ self.old.others }
        ensures same { (deque_of self.new ≡ deque_of self.old) ×
            (self.new.pushes ≡ self.old.pushes) × (self.new.room ≡ self.old.room) }
    {
        let spent = self.owner.another::<Spent>();
        let pass = replace(pass, spent);
        self.others -= 1;
        self.owner.absorb::<Joined>(pass);
    }

    /// How many numbers stand.
    pub(crate) fn standing(&mut self) -> usize
        requires { self.old.others ≡ 0 }
        ensures count { (items : List ℕ) × (length items ≡ result) × Stand
            (known_to self.old) items }
        ensures few { result ≤ self.old.pushes }
        ensures knows { known_to self.new ≡ known_to self.old }
        ensures same { (deque_of self.new ≡ deque_of self.old) ×
            (self.new.others ≡ self.old.others) × (self.new.pushes ≡ self.old.pushes) ×
            (self.new.room ≡ self.old.room) }
    {
        self.owner.len_as::<Standing>()
    }

    /// Takes the number as the newest. `Full` exactly where the deque has taken as many pushes in its
    /// life as it has room for; then the number comes back, and nothing changes. It waits for nobody.
    pub fn push(&mut self, number: u32) -> Result<(), (u32, PoolFault)>
        ensures rule { MatchResult result
            (λ _. known_to self.new ≡ known true (known_to self.old).parts
            ((known_to self.old).pushed ++ number ∷ []) (known_to self.old).taken)
            (λ e. (e ≡ (number, Full)) × (known_to self.new ≡ known_to self.old)) }
        ensures full { MatchResult result
            (λ _. (self.new.pushes ≡ self.old.pushes + 1) × (self.old.pushes < self.old.room))
            (λ _. (self.new.pushes ≡ self.old.pushes) × (self.old.pushes ≡ self.old.room)) }
        ensures same { (deque_of self.new ≡ deque_of self.old) ×
            (self.new.others ≡ self.old.others) × (self.new.room ≡ self.old.room) }
    {
        if self.pushes == self.room {
            return Err((number, PoolFault::Full));
        }
        let Ok(()) = self.owner.push_as::<Pushed>(number) else {
            unreachable!()
        };
        self.pushes += 1;
        Ok(())
    }

    /// Takes the oldest number out. `None` where the deque was empty at one moment of the call, which the
    /// clause says only where no pass is out. It waits for nobody.
    pub fn pop(&mut self) -> Option<u32>
        ensures rule { MatchOption result
            ((known_to self.new ≡ known_to self.old) × WasEmpty (known_to self.old))
            (λ x. (known_to self.new ≡ known true (known_to self.old).parts
            (known_to self.old).pushed ((known_to self.old).taken ++ x ∷ []))
            × StoodFirst (known_to self.old) (x ∷ [])) }
        ensures same { (deque_of self.new ≡ deque_of self.old) ×
            (self.new.others ≡ self.old.others) × (self.new.pushes ≡ self.old.pushes) ×
            (self.new.room ≡ self.old.room) }
    {
        self.owner.pop_as::<Taken>()
    }
}
