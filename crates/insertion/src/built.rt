//! What a build answers.

use schedule::Feasible;

/// What a build ends with.
#[derive(Debug, Drop)]
pub enum Built<'i> {
    /// A plan of the instance.
    Whole(Feasible<'i>),
    /// Fitting routes, at most as many as vehicles, which leave some customers out.
    Part {
        /// The routes, each the customers that one vehicle serves, in order.
        routes: Vec<Vec<u16>>,
        /// The customers that stand in no route, in rising order.
        left: Vec<u16>,
    },
}
