//! Marks of customers.

ghost use Rattle.std.specs.Prelude.{◌≡◌, ℕ, ◌+◌, ◌≤◌, List, [], ◌∷◌, ◌++◌, IsTrue, IsFalse};
ghost use Rattle.std.specs.List.{All};
ghost use Rattle.solomon_reader.specs.declared.limits.TheConstants.{MOST_CUSTOMERS};
ghost use Rattle.solomon_reader.specs.Plan.{count_of};
ghost use Rattle.schedule.specs.Marks.{is_marked, AreMarks};

use solomon_reader::MOST_CUSTOMERS;

/// How many marks there are: one for each row of the largest instance.
const MOST_MARKS: usize = MOST_CUSTOMERS as usize + 1;

/// Which customers stand in a list of stops. There is room for each customer that an instance may
/// have, so that no memory is taken.
#[derive(Drop)]
pub struct Marks {
    /// At i whether customer i stands in the list.
    marked: [bool; MOST_MARKS],
}

impl Marks {
    /// No marks.
    pub fn new() -> Marks
        ensures { AreMarks [] result }
    {
        Marks {
            marked: [false; MOST_MARKS],
        }
    }

    /// Marks a customer, and answers whether it wasn't marked before.
    fn insert(&mut self, customer: u16) -> bool
        requires { customer ≤ MOST_CUSTOMERS }
        ensures again { (list : List ℕ) → AreMarks list self.old → IsFalse result
            → count_of customer list ≡ 1 }
        ensures once { (list : List ℕ) → AreMarks list self.old → IsTrue result → AreMarks
            (list ++ customer ∷ []) self.new }
    {
        let index = usize::from(customer);
        if self.marked[index] {
            return false;
        }
        self.marked[index] = true;
        true
    }

    /// Whether a customer is marked.
    pub fn contains(&self, customer: u16) -> bool
        requires { customer ≤ MOST_CUSTOMERS }
        ensures { result ≡ is_marked self.now customer }
    {
        self.marked[usize::from(customer)]
    }
}

/// Marks the stops of a route, and answers whether none of them was marked before.
pub fn mark_route(marks: &mut Marks, route: &[u16]) -> bool
    requires { All (λ i. i ≤ MOST_CUSTOMERS) route.now }
    ensures again { (list : List ℕ) → AreMarks list marks.old → IsFalse result → (i : ℕ) ×
        (2 ≤ count_of i (list ++ route.now)) }
    ensures once { (list : List ℕ) → AreMarks list marks.old → IsTrue result → AreMarks
        (list ++ route.now) marks.new }
{
    for stop in route {
        if !marks.insert(*stop) {
            return false;
        }
    }
    true
}
