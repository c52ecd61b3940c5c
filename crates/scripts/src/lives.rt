//! What has become of each task.
ghost use Rattle.std.specs.Prelude.{ℕ, ◌≡◌, OnOk, OnErr};
ghost use Rattle.std.specs.Ordering.{nat_cmp};
ghost use Rattle.std.specs.BTreeMap.{get};
ghost use Rattle.scripts.specs.Scripts.{life_after, is_made, may_be_named};
ghost use Rattle.scripts.specs.Keeping.{all_may_be_named};

use crate::calls::fate;
use ompt_events::Body;
use std::alloc::AllocError;
use std::collections::BTreeMap;

/// What has become of a task that was made.
#[derive(Clone, Copy, Debug, PartialEq, Eq)]
pub enum Life {
    /// No call ended it.
    Live,
    /// A call ended it.
    Over,
}

/// Returns what has become of the task, or none where no call made it.
fn life_of(lives: &BTreeMap<u64, Life>, task: u64) -> Option<Life>
    ensures { result ≡ get nat_cmp lives.now task }
{
    lives.get(&task).copied()
}

/// Returns whether a call that makes the task, or does not, may name it.
fn may_be_named(lives: &BTreeMap<u64, Life>, makes: bool, task: u64) -> bool
    ensures { result ≡ may_be_named makes (get nat_cmp lives.now task) }
{
    match life_of(lives, task) {
        None => makes,
        Some(Life::Live) => !makes,
        Some(Life::Over) => false,
    }
}

/// Returns whether this is the task that a call makes.
fn is_made(made: Option<u64>, task: u64) -> bool
    ensures { result ≡ is_made made task }
{
    match made {
        Some(child) => child == task,
        None => false,
    }
}

/// Returns whether a call that makes this task, or none, may name each of these tasks.
pub(crate) fn all_may_be_named(
    lives: &BTreeMap<u64, Life>,
    made: Option<u64>,
    tasks: &[u64],
) -> bool
    ensures { result ≡ all_may_be_named lives.now made tasks.now }
{
    for at in 0..tasks.len() {
        let task = tasks[at];
        if !may_be_named(lives, is_made(made, task), task) {
            return false;
        }
    }
    true
}

/// Records what becomes of a task by the call. Fails only when out of memory, and the table is as it was.
pub(crate) fn note(lives: &mut BTreeMap<u64, Life>, body: &Body) -> Result<(), AllocError>
    ensures noted { OnOk result ((task : ℕ) → get nat_cmp lives.new task
        ≡ life_after (get nat_cmp lives.old task) body.now task) }
    ensures unchanged { OnErr result ((task : ℕ) → get nat_cmp lives.new task ≡ get nat_cmp lives.old task) }
{
    if let Some((task, life)) = fate(body) {
        lives.insert(task, life)?;
    }
    Ok(())
}
