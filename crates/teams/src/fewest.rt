//! The least number of barriers that a member of a team begins.
ghost use Rattle.std.specs.Prelude.{◌≡◌, ◌^◌, IfOk, length, min, replicate};
ghost use Rattle.teams.specs.Fewest.{AreFewest, AreTeamsWithin, AreShort};

use index_tables::Slot;
use std::alloc::{AllocError, Global};
use task_states::row;

/// Returns by number of the team the least number of barriers that a member begins.
pub(crate) fn find_fewest(
    alloc: Global,
    teams: &[Slot],
    begins: &[Vec<u32>],
) -> Result<Vec<u32>, AllocError>
    requires within { AreTeamsWithin teams.now }
    requires few { AreShort begins.now (2 ^ 22) }
    ensures { IfOk result (λ fewest. AreFewest teams.now begins.now (length teams.now) fewest.items) }
{
    let mut fewest = no_counts(alloc, teams.len())?;
    for index in 0..teams.len() {
        if let Some(team) = teams[index].get() {
            let count = row(begins, index).len() as u32;
            fewest[team] = lesser(fewest[team], count);
        }
    }
    Ok(fewest)
}

/// Returns 2^32 - 1 for each task: no member is counted yet.
fn no_counts(alloc: Global, tasks: usize) -> Result<Vec<u32>, AllocError>
    ensures { IfOk result (λ fewest. fewest.items ≡ replicate tasks 4294967295) }
{
    vec![in alloc; u32::MAX; tasks]
}

/// Returns the lesser of two numbers of barriers.
fn lesser(least: u32, count: u32) -> u32
    ensures { result ≡ min least count }
{
    least.min(count)
}
