//! What is kept of teams, by their parallel regions. A team is taken out when all is done there.
ghost use Rattle.std.specs.Prelude.{◌≡◌, ◌<◌, IsTrue, IfOk, OnOk, nat_eq, ℕ, Some};
ghost use Rattle.std.specs.HashMap.{get};
ghost use Rattle.online.specs.declared.team.Team.{Team};
ghost use Rattle.online.specs.Teams.{ChangesTeam, ChangesTeamOf, JoinsTeam, LeavesTeam, HasLeft, IsCreatedIn, IsSettledIn, CountsBegin, EndsIn, HasBegunAll, IsTeamDone};

use crate::team::Team;
use std::alloc::{AllocError, Global};
use std::collections::HashMap;

/// What is kept of each team, by its parallel region.
pub type Teams = HashMap<u64, Team>;

/// Counts a member of the team, by which it has this size.
pub fn join(teams: &mut Teams, alloc: Global, parallel: u64, size: u32) -> Result<(), AllocError>
    ensures { OnOk result (JoinsTeam parallel size (get nat_eq teams.old) (get nat_eq teams.new)) }
{
    if let Some(team) = teams.get_mut(&parallel) {
        team.join(size);
        return Ok(());
    }
    let _ = teams.insert(parallel, Team::new(alloc, size))?;
    Ok(())
}

/// Counts a member of the team that has ended. Returns true only if all is done there.
fn count_end(teams: &mut Teams, parallel: u64) -> bool
    ensures changed { ChangesTeam HasLeft parallel (get nat_eq teams.old) (get nat_eq teams.new) }
    ensures over { IsTrue result → (team : Team) × (get nat_eq teams.new parallel ≡ Some team) × IsTeamDone team }
{
    match teams.get_mut(&parallel) {
        Some(team) => {
            team.leave();
            team.is_over()
        }
        None => false,
    }
}

/// Counts a member of the team, where there is a team, that has ended, and takes the team out if all is done there.
pub fn leave(teams: &mut Teams, parallel: Option<u64>)
    ensures { LeavesTeam parallel (get nat_eq teams.old) (get nat_eq teams.new) }
{
    if let Some(region) = parallel {
        if count_end(teams, region) {
            let _ = teams.remove(&region);
        }
    }
}

/// Counts a child that a member of the team, where there is a team, creates in the phase. Returns false if the phase
/// is over.
pub fn create_in(teams: &mut Teams, parallel: Option<u64>, number: u64) -> Result<bool, AllocError>
    ensures { IfOk result (λ counted. IsTrue counted
        → ChangesTeamOf (IsCreatedIn number) parallel (get nat_eq teams.old) (get nat_eq teams.new)) }
{
    let Some(region) = parallel else {
        return Ok(true);
    };
    match teams.get_mut(&region) {
        Some(team) => team.create(number),
        None => Ok(true),
    }
}

/// Counts such a child as settled from the length on.
pub fn settle_in(teams: &mut Teams, parallel: Option<u64>, number: u64, length: u64)
    ensures { ChangesTeamOf (IsSettledIn number length) parallel (get nat_eq teams.old) (get nat_eq teams.new) }
{
    if let Some(region) = parallel {
        if let Some(team) = teams.get_mut(&region) {
            team.settle(number, length);
        }
    }
}

/// Counts a member of the team, where there is a team, that begins the barrier behind the phase.
pub fn begin_in(teams: &mut Teams, parallel: Option<u64>, number: u64) -> Result<(), AllocError>
    ensures { OnOk result (ChangesTeamOf (CountsBegin number) parallel (get nat_eq teams.old) (get nat_eq teams.new)) }
{
    let Some(region) = parallel else {
        return Ok(());
    };
    match teams.get_mut(&region) {
        Some(team) => team.begin(number),
        None => Ok(()),
    }
}

/// Counts a member of the team that ends the barrier behind the phase. Returns true only if all children are settled
/// at the length that the team's members created in this phase or in one before it.
pub fn end_in(
    teams: &mut Teams,
    parallel: u64,
    number: u64,
    length: u64,
) -> Result<bool, AllocError>
    requires { number < u64.MAX }
    ensures { IfOk result (λ ended. IsTrue ended
        → EndsIn number length parallel (get nat_eq teams.old) (get nat_eq teams.new)) }
{
    match teams.get_mut(&parallel) {
        Some(team) => team.end(number, length),
        None => Ok(false),
    }
}

/// Returns whether of each team all members have begun the barrier behind each phase that is over.
pub fn have_begun_all(teams: &Teams) -> bool
    ensures { IsTrue result → (parallel : ℕ) (team : Team) → get nat_eq teams.now parallel ≡ Some team
        → HasBegunAll team }
{
    for (_, team) in teams {
        if !team.has_begun_all() {
            return false;
        }
    }
    true
}
