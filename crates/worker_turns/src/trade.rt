//! Which trade a worker has in a turn: its first one, or that in which it lends a hand.

/// What a worker does in a turn.
#[derive(Clone, Copy, Debug, PartialEq, Eq)]
pub(crate) enum Trade {
    /// It looks for plans.
    Search,
    /// It raises the bound.
    Bound,
}

/// A searcher raises leaves, where there are several, after so many turns in a row that made its plan no cheaper where
/// another worker came to a plan of the same cost; else after so many, about as many as it cools once in, and one of so
/// many of its turns.
const AGREED_TURNS: u32 = 2;

const STALE_TURNS: u32 = 100;

const PART_OF_TURNS: u32 = 2;

/// Of so many turns in which it might raise leaves one is a searcher's all the same.
const LENT_TURNS: u32 = 4;

/// After so many of its turns each bound worker but the first looks for plans as long as the root isn't split.
const ROOT_TURNS: u32 = 4;

/// Whether a searcher may lend a hand that made so many turns, of which the last ones made its plan no cheaper.
pub(crate) fn is_stale(idle: u32, searched: u32, has_agreed: bool) -> bool {
    idle >= if has_agreed {
        AGREED_TURNS
    } else {
        STALE_TURNS.max(searched / PART_OF_TURNS)
    }
}

/// Whether a turn is lent by a searcher that may lend a hand.
pub(crate) fn is_lent(turn: u32) -> bool {
    turn % LENT_TURNS > 0
}

/// Whether a bound worker of this place among them has done its part at the root in so many turns.
pub(crate) fn is_done_at_root(place: u32, made: u32) -> bool {
    place > 0 && made >= ROOT_TURNS
}
