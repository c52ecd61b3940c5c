//! The credit of tasks, and the ledger of finished tasks. A task's credit is halved when work is handed on
//! (F. Mattern, "Global quiescence detection based on credit distribution and recovery", Information
//! Processing Letters 30, 1989). Each entry of the ledger brings back a share of its root's credit, and one
//! of the credit of its parent's child tasks. So the ledger says at each of its lengths which tasks are
//! complete.
//!
//! Shares: read `share` first, then `share_laws` (what always holds of the shares of a credit) and `purse`,
//! which says when all of a share has come back; `tree` and `links` serve it alone.
//!
//! The ledger: read `Entry` and `Span` first, then `Ledger`; `SharedLedger` is the one that threads share,
//! and `laws` says which of its seats may have made all entries. The definitions are in
//! `specs/Entries.antt`, `specs/Histories.antt` and `specs/Seats.antt`.
//!
//! The ledger of a trace: `trace_laws` says that records without the causes 1 to 13 have right entries, in
//! file order and in the tasks' own order. With right entries, the ledger holds a task's credit if and only
//! if the task is finished, entries of two records do not overlap, and each trace has a ledger. The
//! definitions are in `specs/TraceEntries.antt` and `specs/TraceCredits.antt`. `trace_ledger` makes the
//! ledger of a run, with `trace_entries` (what one record brings back) and `makers` (which record makes each
//! entry).
#![tactic(auto)]

mod codes;
mod credit_fault;
mod entry;
mod fault;
pub mod laws;
mod ledger;
mod links;
mod makers;
mod overlap;
mod purse;
mod rule;
mod share;
pub mod share_laws;
mod shared;
mod trace_entries;
pub mod trace_laws;
mod trace_ledger;
mod tree;
mod view;

pub use credit_fault::CreditFault;
pub use entry::{Cover, Entry, Span};
pub use fault::LedgerFault;
pub use ledger::Ledger;
pub use purse::Purse;
pub use rule::Lock;
pub use share::{Half, Share};
pub use shared::{News, Receipt, Seat, SharedLedger};
pub use trace_ledger::ledger_of;
pub use view::{Call, Claim, Stage, Step, View};
