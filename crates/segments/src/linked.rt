//! Items that may be joined.

ghost use Rattle.std.specs.Prelude.{◌≡◌, Option, Some};
ghost use Rattle.std.proofs.Common.{ap};
ghost use Rattle.segments.specs.Linked.{IsAssociative, both};
ghost use Rattle.segments.specs.Chains.{both-assoc};

/// Items that may be joined in their order, under a context.
pub trait Linked: Copy {
    type Context;

    ghost op: { Self.Context → Self → Self → Option Self };

    /// The join, if there is one.
    fn join(context: &Self::Context, a: &Self, b: &Self) -> Option<Self>
        ensures { result ≡ op context.now a.now b.now };

    ghost law: { IsAssociative op };
}

/// A join that may have failed, joined further: a failure stays one.
impl<L: Linked> Linked for Option<L> {
    type Context = L::Context;

    ghost op = { λ c a b. Some (both (L.op c) a b) };

    fn join(context: &L::Context, a: &Option<L>, b: &Option<L>) -> Option<Option<L>> {
        let joined = match a {
            Some(x) => match b {
                Some(y) => L::join(context, x, y),
                None => None,
            },
            None => None,
        };
        Some(joined)
    }

    ghost law = { λ c x y z. ap Some (both-assoc (L.op c) (L.law c) x y z) };
}
