//! The shares of entries and children, in the regions where the ledger's purse keeps them.
ghost use Rattle.std.specs.Prelude.{◌≡◌, ◌≤◌, ◌<◌, ◌+◌, ◌*◌, ◌^◌, ◌++◌, ◌∷◌, [], length, map, IfOk, OnOk, Some};
ghost use Rattle.credit_ledger.specs.Shares.{start_share, finish_share};
ghost use Rattle.credit_ledger.specs.Entries.{part_halves, tree_share, parent_and_number};
ghost use Rattle.credit_ledger.specs.Codes.{region_code, tree_code as code_in_tree, second_code as code_besides, pool_runs};

use crate::Share;
use crate::entry::Entry;
use ompt_events::Part;
use std::alloc::{AllocError, Global};

/// A number divided by this is its upper half, and the remainder is its lower half.
const LOWER: u64 = 1 << 32;

/// Returns the share of the root's credit that an entry brings back. Fails only when out of memory.
pub(crate) fn tree_code(alloc: Global, entry: &Entry) -> Result<Share, AllocError>
    requires { length entry.now.path ≤ 1024 }
    ensures { IfOk result (λ share. share ≡ code_in_tree entry.now.root (tree_share entry.now)) }
{
    let mut runs = region_runs(alloc, 0, entry.root, entry.path.as_slice().len())?;
    push_path(&mut runs, entry.path.as_slice())?;
    close(runs, entry.kept, entry.part)
}

/// Returns the share of its parent's pool that an entry brings back, or for a root that of its credit
/// again. Fails only when out of memory.
pub(crate) fn second_code(alloc: Global, entry: &Entry) -> Result<Share, AllocError>
    requires { length entry.now.path ≤ 1024 }
    ensures { IfOk result (λ share.
        share ≡ code_besides entry.now.root (parent_and_number entry.now.path) entry.now.part (tree_share entry.now)) }
{
    match entry.path.as_slice().split_last() {
        Some((number, parent)) => pool_code(alloc, entry.root, parent, *number, entry.part),
        None => {
            let runs = region_runs(alloc, 2, entry.root, 0)?;
            close(runs, entry.kept, entry.part)
        }
    }
}

/// Returns the share of the root's credit with which a child starts. Fails only when out of memory.
pub(crate) fn child_code(
    alloc: Global,
    root: u64,
    parent: &[u32],
    number: u32,
) -> Result<Share, AllocError>
    requires { length parent.now ≤ 1024 }
    ensures { IfOk result (λ share. share ≡ code_in_tree root (start_share (parent.now ++ number ∷ []))) }
{
    let mut runs = region_runs(alloc, 0, root, parent.len() + 1)?;
    push_path(&mut runs, parent)?;
    runs.push(u64::from(number))?;
    close(runs, 0, Part::Whole)
}

/// Returns a share of a pool: the one with which the child starts, or one of its halves. Fails only when
/// out of memory.
pub(crate) fn pool_code(
    alloc: Global,
    root: u64,
    parent: &[u32],
    number: u32,
    part: Part,
) -> Result<Share, AllocError>
    requires { length parent.now ≤ 1024 }
    ensures { IfOk result (λ share. share ≡ start_share (pool_runs root parent.now number)
        ++ part_halves part) }
{
    let mut runs = region_runs(alloc, 1, root, parent.len() + 1)?;
    push_odd_path(&mut runs, parent)?;
    runs.push(2 * u64::from(number))?;
    close(runs, 0, part)
}

/// Returns the runs of a region, with memory for `more` further ones. Fails only when out of memory.
fn region_runs(alloc: Global, kind: u64, root: u64, more: usize) -> Result<Vec<u64>, AllocError>
    requires kind { kind < 3 }
    requires more { more ≤ 1025 }
    ensures runs { IfOk result (λ runs. runs.items ≡ region_code kind root) }
    ensures small { length (start_share (region_code kind root)) ≤ 2 ^ 35 }
{
    let mut runs = Vec::with_capacity(alloc, 2 + more)?;
    runs.push(3 * (root / LOWER) + kind)?;
    runs.push(root % LOWER)?;
    Ok(runs)
}

/// Adds the numbers of a path. Fails only when out of memory.
fn push_path(runs: &mut Vec<u64>, path: &[u32]) -> Result<(), AllocError>
    ensures runs { OnOk result (runs.new.items ≡ runs.old.items ++ path.now) }
    ensures small { OnOk result (length (start_share path.now) ≤ length path.now * 2 ^ 32) }
{
    'numbers: for number in path {
        runs.push(u64::from(*number))?;
    }
    Ok(())
}

/// Adds the odd numbers that encode those of a path. Fails only when out of memory.
fn push_odd_path(runs: &mut Vec<u64>, path: &[u32]) -> Result<(), AllocError>
    ensures runs { OnOk result (runs.new.items ≡ runs.old.items ++ map (λ n. 2 * n + 1) path.now) }
    ensures small { OnOk result (length (start_share (map
        (λ n. 2 * n + 1) path.now)) ≤ length path.now * 2 ^ 34) }
{
    'numbers: for number in path {
        runs.push(2 * u64::from(*number) + 1)?;
    }
    Ok(())
}

/// Returns the share of these runs, with `kept` Keep halves and then the halves of the part of a task.
/// Fails only when out of memory.
fn close(mut runs: Vec<u64>, kept: u32, part: Part) -> Result<Share, AllocError>
    requires { length (start_share runs.items) ≤ 2 ^ 45 }
    ensures { IfOk result (λ share. share ≡ finish_share runs.items kept ++ part_halves part) }
{
    match part {
        Part::Whole => Ok(Share::of_runs(runs, u64::from(kept))),
        Part::Body => Ok(Share::of_runs(runs, u64::from(kept) + 1)),
        Part::Event => {
            runs.push(u64::from(kept))?;
            Ok(Share::of_runs(runs, 0))
        }
    }
}
