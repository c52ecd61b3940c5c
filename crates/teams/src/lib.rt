//! The teams of a run in its tasks' own order: the members that meet at a barrier, the places at which each
//! begins barriers, and the first place in the file at which a record shows a team or a barrier that lacks
//! a member.
//!
//! Read `teams` first, what a caller sees, then the steps of a build: `tables` brings together `begins`
//! (the places at which tasks begin barriers), `members` (the team of each task) and `fewest` (the least
//! number of barriers in a team). These are used by `missed` (barriers that a member doesn't begin),
//! `rosters` (the members by their numbers), and `short`, the search for the first place at which a record
//! shows that a member is missing. `listing` finds all such places, from the members that `lacks` finds.
#![tactic(auto)]

mod begins;
mod fewest;
mod lacks;
mod listing;
mod members;
mod missed;
mod rosters;
mod short;
mod tables;
mod teams;

pub use begins::barrier_begun;
pub use listing::short_teams;
pub use missed::BarrierEnd;
pub use teams::Teams;
