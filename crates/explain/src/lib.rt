// Why a pixel reads what it reads: the steps of a setup are repeated on their tape, in a ring and cells lent for it, and what happened to the pixel is named.
// Document 02, (v). Added: the Rust keeps no trace. It stands above the engine, whose calls it uses; none changes for it, and one, `tape_step`, was added.
#![tactic(auto)]

mod explaining;
mod look;
mod noting;
mod pixel;
mod reason;
mod repeating;
mod walking;

pub use explaining::explain;
pub use reason::{Explanation, Moment, Reason};
pub use walking::blank_block;
