//! What is done for each of the ten ledgers.

/// The body of the function of that name.
macro_rules! each_ledger {
    (new $parts:expr; $($ledger:ident)*) => {
        Blanks { $($ledger: Blank::new($parts),)* }
    };
    (open $blanks:expr; $($ledger:ident)*) => {{
        $(let $ledger = $blanks.$ledger.open();)*
        (Totals { $($ledger: $ledger.0,)* }, Tokens { $($ledger: $ledger.1,)* })
    }};
    (audit $totals:expr, $all:expr; $($ledger:ident)*) => {{
        $($totals.$ledger.audit(&mut $all.$ledger);)*
    }};
    (split_off $tokens:expr; $($ledger:ident)*) => {
        Tokens { $($ledger: $tokens.$ledger.split_off(1, 0),)* }
    };
    (merge $tokens:expr, $other:expr; $($ledger:ident)*) => {{
        let Tokens { $($ledger,)* } = $other;
        $($tokens.$ledger.merge($ledger);)*
    }};
    ($function:ident $($given:expr),*) => {
        each_ledger!(
            $function $($given),*;
            accepted better repriced split workers costs values repriced_leaves split_leaves made
        )
    };
}

pub(crate) use each_ledger;
