//! What rows of three customers charge routes: their bits along a route, what a stop costs, and by how much one
//! route has to be cheaper than another one so that bits don't matter (Jepsen, Petersen, Spoorendonk and Pisinger
//! 2008; Pecin, Pessoa, Poggi and Uchoa 2017).
#![tactic(auto)]

mod bits;
mod priced_row;
mod stop;
mod table;

pub use bits::RowBits;
pub use priced_row::PricedRow;
pub use table::RowTable;
