// The refinement of implicit graphs: setup, children, step, run, one step of a run, picture, counts and a move of the queue over a record by value, a lent ring and lent cells.
// Document 01, "Picture and step" and "Numbers of refusal"; from the Rust's graph/implicit.rs. Every entry takes all numbers and buffers, and refuses by number.
#![tactic(auto)]

mod commit;
mod deciding;
mod first;
mod fitting;
mod listing;
mod record;
mod room;
mod running;
mod setting_up;
mod state;
mod stepping;
mod tiled;
mod tiled_running;
mod view;

pub use listing::children;
pub use room::{enough_ring, move_queue};
pub use running::run;
pub use setting_up::{least_ring, setup};
pub use state::{Ended, Ending, Finished, Ranges, Refused, State, Tally};
pub use stepping::{step, tape_step};
pub use tiled::{fill_table, setup_with_table, step_with_table};
pub use tiled_running::run_with_table;
pub use view::{counts, picture};
