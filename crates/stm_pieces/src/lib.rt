//! Pieces: steps of a thread over copies of records, with nothing shared.
#![tactic(auto)]

mod known;
mod lent;
mod loan;
mod needs;
mod noted;
mod run;
mod view;

pub use known::knows;
pub use loan::{Loan, Piece, run_piece};
pub use run::{PieceEnd, run_steps};
pub use view::PieceView;
