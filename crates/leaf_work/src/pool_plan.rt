//! A plan that raised prices lead to.

ghost use Rattle.std.specs.Prelude.{◌≡◌, IfOk, IfSome};

use price_way::RoutePool;
use schedule::Feasible;
use solomon_reader::Instance;
use std::alloc::AllocError;

/// The routes that make up the prices raised last, where they are a plan. `AllocError` where memory was refused.
pub fn met_plan<'i>(
    instance: &'i Instance,
    pool: &RoutePool,
) -> Result<Option<Feasible<'i>>, AllocError>
    ensures { IfOk result (λ plan. IfSome plan (λ f. f.problem ≡ instance.now)) }
{
    Ok(Feasible::check(instance, pool.main_routes()?).ok())
}
