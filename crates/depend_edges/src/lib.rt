//! Which tasks must be finished before a task with dependences starts.
//!
//! `Edges` are those of a run (`in_run`), or of a trace with its tree (`build`), by the tasks' own order.
//! They return the predecessors of one task (`of`), or a greatest length for all at once (`latest`).
//! `misplaced_dependences` lists the records because of which a run has no edges. Read `edges` for what a
//! caller sees, then `placement` and `lists`, the steps of a build; `items` and
//! `predecessors`, the steps of `of`; `maxima` and `latest`, those of `latest`.
#![tactic(auto)]

mod edges;
mod items;
mod latest;
mod lists;
mod maxima;
mod placement;
mod predecessors;

pub use edges::{EdgeFault, Edges};
pub use placement::misplaced_dependences;
