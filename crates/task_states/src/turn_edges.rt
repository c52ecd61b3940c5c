//! Where tasks that moved begin and end their turns.
ghost use Rattle.std.specs.Prelude.{ℕ, ◌≡◌, ◌<◌, ◌^◌, Some, IfOk, OnOk, length, slice_get};
ghost use Rattle.std.specs.Option.{option_map_or};
ghost use Rattle.ompt_events.specs.declared.records.Record.{Record};
ghost use Rattle.ompt_events.specs.Records.{begun_turn};
ghost use Rattle.ompt_events.specs.Turns.{turns_in};
ghost use Rattle.task_states.specs.declared.turn_edges.Edge.TheVariants.{Begins, Ends};
ghost use Rattle.task_states.specs.Rows.{IsPlaceAdded};
ghost use Rattle.task_states.specs.TurnEdges.{moved_turn, AreEdges};

use crate::origins::Origins;
use crate::rows::reach;
use std::alloc::{AllocError, Global};
use task_tree::Run;

/// Which edge of a turn.
#[derive(Clone, Copy)]
pub(crate) enum Edge {
    Begins,
    Ends,
}

/// Returns the number of turns: one more than the greatest that begins.
pub(crate) fn turn_count(run: &Run) -> usize
    ensures { result ≡ turns_in run.now.records }
{
    let mut most = 0;
    for at in 0..run.len() {
        most = most.max(begun_turn(run, at));
    }
    most as usize + 1
}

/// Returns the turn that begins at the place, or 0 where none does.
fn begun_turn(run: &Run, at: usize) -> u32
    requires { at < length run.now.records }
    ensures { (r : Record) → slice_get run.now.records at ≡ Some r
        → result ≡ option_map_or (λ (b : ℕ × ℕ). b.1) (begun_turn r.body) 0 }
{
    run.next_turn(at).unwrap_or(0)
}

/// Returns by turn the places at which tasks that moved begin it, or end it, in file order.
pub(crate) fn find_edges(
    alloc: Global,
    origins: &Origins,
    edge: Edge,
    turns: usize,
) -> Result<Vec<Vec<u32>>, AllocError>
    ensures { IfOk result (λ rows.
        AreEdges edge origins.now.records (length origins.now.records) turns rows.items) }
{
    let mut rows: Vec<Vec<u32>> = Vec::new(alloc);
    for at in 0..origins.run().len() {
        if let Some(turn) = moved_turn(origins, edge, at) {
            if turn < turns {
                note_place(alloc, &mut rows, turn, at)?;
            }
        }
    }
    Ok(rows)
}

/// Adds the place to the row of this turn. Rows are made only up to the turn: most turns are those of roots,
/// which never move.
fn note_place(
    alloc: Global,
    rows: &mut Vec<Vec<u32>>,
    turn: usize,
    at: usize,
) -> Result<(), AllocError>
    requires { at < 2 ^ 32 }
    ensures { OnOk result (IsPlaceAdded rows.old.items rows.new.items turn at) }
{
    reach(alloc, rows, turn)?;
    rows[turn].push(at as u32)?;
    Ok(())
}

/// Returns the turn that a task which moved begins, or ends, at the place.
fn moved_turn(origins: &Origins, edge: Edge, at: usize) -> Option<usize>
    requires { at < length origins.now.records }
    ensures { result ≡ moved_turn edge origins.now.records at }
{
    match edge {
        Edge::Begins => begun_there(origins, at),
        Edge::Ends => ended_there(origins, at),
    }
}

/// Returns the turn that a task which moved begins there.
fn begun_there(origins: &Origins, at: usize) -> Option<usize>
    requires { at < length origins.now.records }
    ensures { result ≡ moved_turn Begins origins.now.records at }
{
    let index = origins.run().started(at)?;
    if !origins.has_moved(index) {
        return None;
    }
    let turn = origins.run().next_turn(at)?;
    Some(turn as usize)
}

/// Returns the turn that a task which moved ends there.
fn ended_there(origins: &Origins, at: usize) -> Option<usize>
    requires { at < length origins.now.records }
    ensures { result ≡ moved_turn Ends origins.now.records at }
{
    let event = origins.run().schedule(at)?;
    if !origins.has_moved(event.prior) {
        return None;
    }
    let turn = origins.run().ended_turn(at)?;
    Some(turn as usize)
}
