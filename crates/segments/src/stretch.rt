//! A stretch of a tree's level.

ghost use Rattle.std.specs.Prelude.{◌≡◌, ◌*◌, ◌%◌, ◌<◌, ◌≤◌, length};
ghost use Rattle.segments.specs.Levels.{pairs, beside};
ghost use Rattle.segments.specs.Stretches.{worth};

use crate::levels::join_both;
use crate::linked::Linked;

/// The positions of a level from a on and before b, and the joins of what stands before and behind,
/// `None` where nothing does.
#[derive(Clone, Copy)]
pub(crate) struct Stretch<L> {
    pub(crate) a: usize,
    pub(crate) b: usize,
    pub(crate) before: Option<Option<L>>,
    pub(crate) behind: Option<Option<L>>,
}

/// Two joins side by side.
fn join_beside<L: Linked>(
    context: &L::Context,
    a: Option<Option<L>>,
    b: Option<Option<L>>,
) -> Option<Option<L>>
    ensures { result ≡ beside (L.op context.now) a b }
{
    match a {
        Some(x) => match b {
            Some(y) => Some(join_both(context, x, y)),
            None => Some(x),
        },
        None => b,
    }
}

impl<L: Linked> Stretch<L> {
    /// The join of the stretch with what stands before and behind, where it has no position.
    pub(crate) fn closed(self, context: &L::Context) -> Option<Option<L>>
        ensures { result ≡ beside (L.op context.now) self.before self.behind }
    {
        join_beside(context, self.before, self.behind)
    }

    /// Moves an odd first position out of the stretch.
    fn first_out(self, context: &L::Context, level: &[Option<L>]) -> Stretch<L>
        requires in_order { self.a ≤ self.b }
        requires within { self.b ≤ length level.now }
        ensures worth { worth (L.op context.now) result level.now ≡ worth
            (L.op context.now) self level.now }
        ensures even { result.a < result.b → result.a % 2 ≡ 0 }
        ensures in_order { result.a ≤ result.b }
        ensures end { result.b ≡ self.b }
    {
        if self.a == self.b || self.a % 2 == 0 {
            return self;
        }
        let before = join_beside(context, self.before, Some(level[self.a]));
        Stretch {
            a: self.a + 1,
            before,
            ..self
        }
    }

    /// Moves an odd last position out of the stretch.
    fn last_out(self, context: &L::Context, level: &[Option<L>]) -> Stretch<L>
        requires in_order { self.a ≤ self.b }
        requires within { self.b ≤ length level.now }
        requires even { self.a < self.b → self.a % 2 ≡ 0 }
        ensures worth { worth (L.op context.now) result level.now ≡ worth
            (L.op context.now) self level.now }
        ensures first { result.a < result.b → result.a % 2 ≡ 0 }
        ensures last { result.a < result.b → result.b % 2 ≡ 0 }
        ensures in_order { result.a ≤ result.b }
        ensures end { result.b ≤ self.b }
    {
        if self.a == self.b || self.b % 2 == 0 {
            return self;
        }
        let behind = join_beside(context, Some(level[self.b - 1]), self.behind);
        Stretch {
            b: self.b - 1,
            behind,
            ..self
        }
    }

    /// The same stretch one level up.
    pub(crate) fn up(self, context: &L::Context, level: &[Option<L>]) -> Stretch<L>
        requires in_order { self.a ≤ self.b }
        requires within { self.b ≤ length level.now }
        ensures worth { worth (L.op context.now) result
            (pairs (L.op context.now) level.now) ≡ worth (L.op context.now) self level.now }
        ensures in_order { result.a ≤ result.b }
        ensures end { 2 * result.b ≤ self.b }
    {
        let inner = self.first_out(context, level).last_out(context, level);
        Stretch {
            a: inner.a / 2,
            b: inner.b / 2,
            ..inner
        }
    }
}
