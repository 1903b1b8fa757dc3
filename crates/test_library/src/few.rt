//! Lists of at most eight numbers: a second kind of items that may be joined, beside segments.

ghost use Rattle.std.specs.Prelude.{◌≡◌, [], ◌∷◌, length};

use segments::Linked;
use std::marker::Model;

/// The most numbers of a list.
const MOST: usize = 8;

/// At most eight numbers; contracts see their list.
#[derive(Clone, Copy)]
pub struct Few {
    items: [u8; 8],
    len: usize,
}

impl Model for Few {
    ghost use Rattle.std.specs.Prelude.{List, ℕ, length, take};
    ghost use Rattle.std.proofs.Common.{sym};
    ghost use Rattle.test_library.specs.Few.{filled, IsFilled};
    ghost use Rattle.test_library.specs.FewLaws.{length_kept};

    ghost Value = { List ℕ };

    ghost view = { λ f. take f.len f.items };

    ghost invariant = { λ f. IsFilled f.items f.len };

    ghost inverse = { λ xs. record { items = filled 8 xs; len = length xs } };

    ghost inverse_ok = { λ a is i. record { items = sym is.zeros i; len = length_kept a.items a.len is i } };
}

impl Few {
    /// The list of one number.
    pub fn one(number: u8) -> Few
        ensures { result ≡ number ∷ [] }
    {
        Few {
            items: [number, 0, 0, 0, 0, 0, 0, 0],
            len: 1,
        }
    }

    /// How many numbers there are.
    pub fn len(&self) -> usize
        ensures { result ≡ length self.now }
    {
        self.len
    }
}

/// Lists are joined end to end, up to eight numbers.
impl Linked for Few {
    ghost use Rattle.test_library.specs.Few.{joined_end_to_end};
    ghost use Rattle.test_library.specs.FewLaws.{joined-assoc};

    type Context = ();

    ghost op = { λ _ a b. joined_end_to_end a b };

    fn join(_context: &(), a: &Few, b: &Few) -> Option<Few> {
        if a.len + b.len > MOST {
            return None;
        }
        let mut items = a.items;
        for i in 0..b.len {
            items[a.len + i] = b.items[i];
        }
        Some(Few {
            items,
            len: a.len + b.len,
        })
    }

    ghost law = { λ _ x y z. joined-assoc x y z };
}
