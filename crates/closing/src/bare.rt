//! Leaves where no set and no row has a price.

ghost use Rattle.std.specs.Prelude.{◌≡◌, [], IfOk};

use leaf_work::Raised;
use prices::{PriceFault, Priced};
use std::alloc::{AllocError, Global};

/// A leaf's prices of customers alone, with their value. It takes a pricing only where a set or a row has a price.
pub(crate) fn bare_leaf<'i>(alloc: Global, leaf: Priced<'i>) -> Result<Priced<'i>, AllocError>
    ensures problem { IfOk result (λ f. f.problem ≡ leaf.entry.problem) }
    ensures region { IfOk result (λ f. f.region ≡ leaf.entry.region) }
    ensures neighbours { IfOk result (λ f. f.neighbours ≡ leaf.entry.neighbours) }
    ensures sets { IfOk result (λ f. f.sets ≡ []) }
    ensures rows { IfOk result (λ f. f.rows ≡ []) }
{
    if leaf.sets().is_empty() && leaf.rows().is_empty() {
        return Ok(leaf);
    }
    let region = leaf.region().try_clone()?;
    let prices = leaf.prices().to_vec(alloc)?;
    match Priced::of(
        alloc,
        leaf.instance(),
        region,
        leaf.neighbours(),
        prices,
        None,
    ) {
        Ok(bare) => Ok(bare),
        Err((_, _, PriceFault::Memory)) => Err(AllocError),
        Err(_) => unreachable!(),
    }
}

/// The same for raised prices, with the ascent that has ended there.
pub(crate) fn bare_raised<'i>(alloc: Global, raised: Raised<'i>) -> Result<Raised<'i>, AllocError>
    ensures problem { IfOk result (λ r. r.priced.problem ≡ raised.entry.priced.problem) }
    ensures region { IfOk result (λ r. r.priced.region ≡ raised.entry.priced.region) }
    ensures neighbours { IfOk result (λ r. r.priced.neighbours ≡ raised.entry.priced.neighbours) }
    ensures sets { IfOk result (λ r. r.priced.sets ≡ []) }
    ensures rows { IfOk result (λ r. r.priced.rows ≡ []) }
{
    let Raised {
        priced,
        ascent,
        added,
    } = raised;
    Ok(Raised {
        priced: bare_leaf(alloc, priced)?,
        ascent,
        added,
    })
}
