//! Tables by index that know nothing of tasks.
//!
//! Read `seeded` first: how a table of ids that a file chooses is hashed. Then `numbering`, a list of ids in
//! which the index of each is found without a walk, and `dense`, its slots for ids that lie close together;
//! `rows`, rows of ids in one array; and `slot`, an index or none in 32 bits.
#![tactic(auto)]

mod dense;
mod numbering;
mod rows;
mod seeded;
mod slot;

pub use numbering::Numbering;
pub use rows::{Rows, find_offsets};
pub use seeded::Seeded;
pub use slot::Slot;
