//! The types that a check returns.
ghost use Rattle.std.specs.Prelude.{◌≡◌, length, slice_get};
ghost use Rattle.std.specs.List.{range_with_len};

use ompt_events::Cause;
use std::marker::Model;
use thiserror::Error;

/// The records of a trace in some order, which contracts see as the list of their places.
#[derive(Debug, Drop)]
pub struct Order {
    places: Places,
}

/// Places of records, the earliest first.
#[derive(Debug, Drop)]
enum Places {
    /// All of this many records, in file order.
    InFile(usize),
    /// The records at these places.
    Listed(Vec<u32>),
}

impl Model for Order {
    ghost use Rattle.std.specs.Prelude.{List, ℕ};
    ghost use Rattle.checker.specs.Orders.{list_of};

    ghost Value = { List ℕ };

    ghost view = { λ order. list_of order.places };
}

impl Order {
    /// Returns the order of this many records as the file has them. Takes no memory.
    pub fn in_file(records: usize) -> Order
        ensures { result ≡ range_with_len 0 records }
    {
        Order {
            places: Places::InFile(records),
        }
    }

    /// Returns the order of these places. Takes no memory.
    pub fn from_vec(places: Vec<u32>) -> Order
        ensures { result ≡ places.items }
    {
        Order {
            places: Places::Listed(places),
        }
    }

    /// Returns how many records it has.
    pub fn len(&self) -> usize
        ensures { result ≡ length self.now }
    {
        match &self.places {
            Places::InFile(records) => *records,
            Places::Listed(list) => list.len(),
        }
    }

    /// Returns the place of the record with this position in the order, from 0. Returns none past the end.
    pub fn place_at(&self, before: usize) -> Option<usize>
        ensures { result ≡ slice_get self.now before }
    {
        match &self.places {
            Places::InFile(records) => {
                if before < *records {
                    Some(before)
                } else {
                    None
                }
            }
            Places::Listed(list) => {
                if before < list.len() {
                    Some(list[before] as usize)
                } else {
                    None
                }
            }
        }
    }
}

/// Why a record is a violation.
#[derive(Clone, Copy, Debug, PartialEq, Eq)]
pub enum Why {
    /// The wait that ends there covers this task, and the task is not finished.
    Unfinished(u64),
    /// This task is a predecessor of the task that starts there, or of the taskwait that is complete there,
    /// and it is not finished.
    Predecessor(u64),
}

/// What a trace shows. Records are named by their places in it, from 0.
#[derive(Debug, Drop)]
pub enum Verdict {
    /// Each wait ended only when it was allowed to, and each dependent task started in time, in every order
    /// that the records allow; `order` is one of them.
    Yes { order: Order },
    /// The first record at which a task that must be finished is not.
    No { at: usize, why: Why },
    /// No run within the model can produce these records, for this cause; `at` is the first record that
    /// shows it.
    Malformed { at: usize, cause: Cause },
}

/// Why there is no verdict.
#[derive(Clone, Copy, Debug, PartialEq, Eq, Error)]
pub enum CheckFault {
    /// Out of memory.
    #[error("out of memory")]
    Memory,
    /// No workers, or more than [`MAX_WORKERS`].
    #[error("the number of workers is not 1 to 256")]
    Workers,
    /// The gate refuses this worker.
    #[error("worker {0} was refused by the gate")]
    Gate(u32),
    /// A thread could not be started. No call of this crate fails so.
    #[error("no thread")]
    Thread,
}
