// What a step decides of one block, before anything is written: its children, what a verdict makes of a child, and where an incomplete one
// goes on. The crates `plan` and `implicit` put these together.
// Document 01, "Picture and step"; from the Rust's graph/implicit.rs (`subdivide_xy`, `process_block`, the search for a direction).
// There is no ring here, and no cell is written. Every public function takes any picture, block, verdicts and cells.
#![tactic(auto)]

mod children;
mod damage;
mod turn;
mod verdict;

pub use children::{Children, Cut, Place, child_of, children_of, cut_of, place_of};
pub use coordinate::is_legal_side;
pub use damage::{has_damaged_cell, is_legal_chosen};
pub use turn::{find_direction, start_of};
pub use verdict::{Outcome, cost_of, is_legal_verdict, judge};

// What a setup chooses and no step changes: the sides in pixels, and the variables in use. The reserved bytes are for what later
// releases let a setup choose: setup makes them 0, and nothing looks at them.
#[repr(C)]
#[derive(Clone, Copy)]
pub struct Chosen {
    pub width: u32,
    pub height: u32,
    pub set: u8,
    pub reserved1: u8,
    pub reserved2: u8,
    pub reserved3: u8,
}
