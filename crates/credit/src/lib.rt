//! The shares and the purse of `credit_ledger`, under the name of a crate of their own.
#![tactic(auto)]

pub use credit_ledger::{CreditFault, Half, Purse, Share};
