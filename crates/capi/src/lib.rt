// The engine, with and without a table of tile counts, the explainer, the leaves and the boxes of blocks for programs in other languages: functions with
// C's calling convention over records by value and lent buffers.
// Nothing is decided here. An enum cannot cross, so every answer is a record that begins with its refusal, 0 or document 01's number,
// and a coordinate crosses with document 01's signed level. include/smyrilox.h says the same to a reader of C.
#![tactic(auto)]

pub mod boxing;
pub mod engine;
mod engine_records;
pub mod explaining;
pub mod leaf;
mod leaf_records;
pub mod records;
pub mod table;
