//! Which open leaves of a tree are worked at.

ghost use Rattle.std.specs.Prelude.{◌≡◌, ◌↔◌, IsTrue};

/// The most parts that the open leaves of a tree are shared out among.
pub const MOST_PARTS: u32 = 10_000;

/// The open leaves of a tree whose place among the open ones, counted from 1 in preorder, is `place` modulo
/// `count`. Any numbers can stand in it: `is_within` says whether there is such a part.
#[derive(Clone, Copy, Debug, PartialEq, Eq)]
pub struct Part {
    /// Which of the parts it is: 1 to `count`.
    pub place: u32,
    /// How many parts there are: 1 to `MOST_PARTS`.
    pub count: u32,
}

impl Part {
    ghost use Rattle.run_settings.specs.Parts.{HasPlace, IsPart};

    /// All open leaves.
    pub const WHOLE: Part = Part { place: 1, count: 1 };

    /// Whether there is such a part.
    pub fn is_within(&self) -> bool
        ensures { IsTrue result ↔ IsPart self.now }
    {
        1 <= self.place && self.place <= self.count && self.count <= MOST_PARTS
    }

    /// Whether the open leaf with this place among the open ones, counted from 1, is in the part.
    pub fn has(&self, place: u32) -> bool
        requires { IsPart self.now }
        ensures { IsTrue result ↔ HasPlace self.now place }
    {
        place % self.count == self.place % self.count
    }
}
