//! The tasks' own order, in which the records are by turn and then as in the file.
ghost use Rattle.std.specs.Prelude.{◌≡◌, ◌<◌, ◌^◌, IfOk, Some, length, map, slice_get, slice_index};
ghost use Rattle.std.specs.List.{range_with_len};
ghost use Rattle.ompt_events.specs.Turns.{own_places};
ghost use Rattle.task_tree.specs.TurnTable.{AreTurns};
ghost use Rattle.task_tree.specs.OwnOrder.{AreInverse, AreApartBelow, AreOrderNumbers};

use packed_trace::PackedTrace;
use std::alloc::{AllocError, Global};
use std::marker::Model;

/// An order of the records of a trace, in clauses the list of their places in the file. A record's number
/// is its place in that order.
#[derive(Debug, Drop)]
pub struct OwnOrder {
    order: Order,
}

/// An order of records.
#[derive(Debug, Drop)]
enum Order {
    /// This many records in file order.
    InFile(usize),
    /// By number the place in the file, and by place the number.
    Arranged(Vec<u32>, Vec<u32>),
}

impl Model for OwnOrder {
    ghost use Rattle.std.specs.Prelude.{List, ℕ};
    ghost use Rattle.task_tree.specs.OwnOrder.{order_places, IsOrder};

    ghost Value = { List ℕ };

    ghost view = { λ own. order_places own.order };

    ghost invariant = { λ own. IsOrder own.order };
}

impl OwnOrder {
    /// Returns file order for this many records. Takes no memory.
    pub fn in_file(records: usize) -> OwnOrder
        ensures { result ≡ range_with_len 0 records }
    {
        OwnOrder {
            order: Order::InFile(records),
        }
    }

    /// Returns the order of these places. Requires that the second list holds at each place its number.
    /// Takes no memory.
    pub fn arranged(places: Vec<u32>, numbers: Vec<u32>) -> OwnOrder
        requires { AreInverse places.items numbers.items }
        ensures { result ≡ places.items }
    {
        OwnOrder {
            order: Order::Arranged(places, numbers),
        }
    }

    /// Returns how many records there are.
    pub fn len(&self) -> usize
        ensures { result ≡ length self.now }
    {
        match &self.order {
            Order::InFile(records) => *records,
            Order::Arranged(places, _) => places.len(),
        }
    }

    /// Returns the place in the file of the record with this number.
    #[inline(always)]
    pub fn place(&self, number: usize) -> usize
        requires { number < length self.now }
        ensures { slice_get self.now number ≡ Some result }
    {
        match &self.order {
            Order::InFile(_) => number,
            Order::Arranged(places, _) => places[number] as usize,
        }
    }

    /// Returns the number of the record at a place in the file.
    #[inline(always)]
    pub fn number(&self, place: usize) -> usize
        requires { place < length self.now }
        ensures { slice_get self.now result ≡ Some place }
    {
        match &self.order {
            Order::InFile(_) => place,
            Order::Arranged(_, numbers) => numbers[place] as usize,
        }
    }
}

/// Returns the own order of the records, given the turn of each. Takes a sort and one pass. The records
/// need not be a trace.
pub fn arrange(alloc: Global, trace: &PackedTrace, turns: &[u32]) -> Result<OwnOrder, AllocError>
    requires few { length trace.now.records < 2 ^ 32 }
    requires turns { AreTurns trace.now.records turns.now }
    ensures { IfOk result (λ order. order ≡ own_places trace.now.records) }
{
    let mut keys = keys_of(alloc, turns)?;
    keys.sort_unstable();
    let places = places_of(alloc, &keys)?;
    let numbers = numbers_of(alloc, &places)?;
    Ok(OwnOrder::arranged(places, numbers))
}

/// Returns the turn and the place of each record, in file order.
fn keys_of(alloc: Global, turns: &[u32]) -> Result<Vec<(u32, u32)>, AllocError>
    requires few { length turns.now < 2 ^ 32 }
    ensures { IfOk result (λ keys. keys.items ≡ map (λ at. (slice_index turns.now at, at))
        (range_with_len 0 (length turns.now))) }
{
    let mut keys = Vec::with_capacity(alloc, turns.len())?;
    for at in 0..turns.len() {
        keys.push((turns[at], at as u32))?;
    }
    Ok(keys)
}

/// Returns the places of these keys.
fn places_of(alloc: Global, keys: &[(u32, u32)]) -> Result<Vec<u32>, AllocError>
    ensures { IfOk result (λ places. places.items ≡ map (λ key. key.1) keys.now) }
{
    let mut places = Vec::with_capacity(alloc, keys.len())?;
    for key in keys {
        places.push(key.1)?;
    }
    Ok(places)
}

/// Returns by place its number among the places.
fn numbers_of(alloc: Global, places: &[u32]) -> Result<Vec<u32>, AllocError>
    requires few { length places.now < 2 ^ 32 }
    requires apart { AreApartBelow places.now (length places.now) }
    ensures { IfOk result (λ numbers. AreOrderNumbers places.now (length places.now) numbers.items) }
{
    let mut numbers = vec![in alloc; 0; places.len()]?;
    for number in 0..places.len() {
        numbers[places[number] as usize] = number as u32;
    }
    Ok(numbers)
}
