//! What is kept of a team for the ends of its barriers.
ghost use Rattle.std.specs.Prelude.{◌≡◌, ◌≤◌, ◌<◌, IsTrue, IfOk, OnOk};
ghost use Rattle.online.specs.Teams.{phase_in, PutsPhase, IsFirst, HasJoined, HasLeft, IsCreatedIn, IsSettledIn, CountsBegin};
ghost use Rattle.online.specs.Teams.{EndsPhase, EndsPhases, IsSettledAt, KeepsPhases, HasEnded, HasBegunAll, IsTeamDone};

use crate::phase::Phase;
use std::alloc::{AllocError, Global};
use std::collections::HashMap;

/// What is kept of the team of a parallel region. A phase is over when a member has ended the barrier behind it: then
/// no member may create a child in it any more.
#[derive(Drop)]
pub struct Team {
    /// How many members it has, as they say.
    pub actual: u64,
    /// How many members have begun.
    pub joined: u64,
    /// How many members have ended.
    pub ended: u64,
    /// How many phases are over: those with smaller numbers.
    pub over: u64,
    /// From this length on all children created in them are settled.
    pub greatest: u64,
    /// By their numbers the phases that are not over; and of those that are over the last one, and those whose barriers
    /// some member has to end.
    pub phases: HashMap<u64, Phase>,
}

impl Team {
    /// Returns what is kept of a team of this size with its first member.
    pub fn new(alloc: Global, actual: u32) -> Self
        ensures { IsFirst actual result }
    {
        Team {
            actual: actual as u64,
            joined: 1,
            ended: 0,
            over: 0,
            greatest: 0,
            phases: HashMap::new(alloc),
        }
    }

    /// Counts a further member, by which the team has this size.
    pub fn join(&mut self, actual: u32)
        ensures { HasJoined actual self.old self.new }
    {
        self.actual = self.actual.max(actual as u64);
        self.joined = self.joined.saturating_add(1);
    }

    /// Counts a member that has ended.
    pub fn leave(&mut self)
        ensures { HasLeft self.old self.new }
    {
        self.ended = self.ended.saturating_add(1);
    }

    /// Returns true only if all members have begun, each has ended, and all have begun the barrier behind each phase
    /// that is over: then no later record says anything of the team.
    pub fn is_over(&self) -> bool
        ensures { IsTrue result → IsTeamDone self.now }
    {
        let ended = self.ended;
        if ended < self.actual {
            return false;
        }
        if ended < self.joined {
            return false;
        }
        self.has_begun_all()
    }

    /// Counts a child that a member creates in the phase. Returns false if the phase is over.
    pub fn create(&mut self, number: u64) -> Result<bool, AllocError>
        ensures { IfOk result (λ counted. IsTrue counted → IsCreatedIn number self.old self.new) }
    {
        if number < self.over {
            return Ok(false);
        }
        let phase = self.phase(number).with_child();
        self.put(number, phase)?;
        Ok(true)
    }

    /// Counts a child that a member created in the phase as settled from the length on.
    pub fn settle(&mut self, number: u64, length: u64)
        ensures { IsSettledIn number length self.old self.new }
    {
        if number >= self.over {
            if let Some(phase) = self.phases.get_mut(&number) {
                *phase = phase.without_child(length);
            }
        }
    }

    /// Counts a member that begins the barrier behind the phase.
    pub fn begin(&mut self, number: u64) -> Result<(), AllocError>
        ensures { OnOk result (CountsBegin number self.old self.new) }
    {
        if let Some(phase) = self.phases.get_mut(&number) {
            *phase = phase.with_begin();
            return Ok(());
        }
        if self.over <= number {
            self.put(number, Phase::empty().with_begin())?;
        }
        Ok(())
    }

    /// Counts a member that ends the barrier behind the phase. Returns true only if all children are settled at the
    /// length that were created in this phase or in one before it.
    pub fn end(&mut self, number: u64, length: u64) -> Result<bool, AllocError>
        requires { number < u64.MAX }
        ensures { IfOk result (λ ended. IsTrue ended → HasEnded number length self.old self.new) }
    {
        if !self.end_phases(number)? {
            return Ok(false);
        }
        if !self.is_settled(number, length) {
            return Ok(false);
        }
        self.count_end(number);
        self.forget(number);
        Ok(true)
    }

    /// Returns whether all members have begun the barrier behind each phase that is over.
    pub fn has_begun_all(&self) -> bool
        ensures { IsTrue result → HasBegunAll self.now }
    {
        if self.over == 0 {
            return true;
        }
        match self.phases.get(&(self.over - 1)) {
            Some(phase) => phase.begun >= self.joined,
            None => false,
        }
    }

    /// Returns what is kept of the phase.
    fn phase(&self, number: u64) -> Phase
        ensures { result ≡ phase_in self.now number }
    {
        match self.phases.get(&number) {
            Some(phase) => *phase,
            None => Phase::empty(),
        }
    }

    /// Keeps this of the phase.
    fn put(&mut self, number: u64, phase: Phase) -> Result<(), AllocError>
        ensures { OnOk result (PutsPhase number phase self.old self.new) }
    {
        let _ = self.phases.insert(number, phase)?;
        Ok(())
    }

    /// Returns true only if the phase and all before it are over, in which no child is left.
    fn end_phases(&mut self, number: u64) -> Result<bool, AllocError>
        requires { number < u64.MAX }
        ensures { IfOk result (λ ended. IsTrue ended → EndsPhases number self.old self.new) }
    {
        while self.over <= number {
            if !self.end_phase()? {
                return Ok(false);
            }
            self.forget(self.over.saturating_sub(2));
        }
        Ok(true)
    }

    /// Returns true only if the next phase is over, in which no child is left.
    fn end_phase(&mut self) -> Result<bool, AllocError>
        requires { self.old.over < u64.MAX }
        ensures { IfOk result (λ ended. IsTrue ended → EndsPhase self.old self.new) }
    {
        let number = self.over;
        let phase = self.phase(number);
        if phase.scope.left > 0 {
            return Ok(false);
        }
        let greatest = self.greatest.max(phase.scope.greatest);
        self.put(number, phase.over_from(greatest))?;
        self.greatest = greatest;
        self.over = number + 1;
        Ok(true)
    }

    /// Returns true only if the phase is kept, and from this length on all is settled that is counted for it.
    fn is_settled(&self, number: u64, length: u64) -> bool
        ensures { IsTrue result → IsSettledAt number length self.now }
    {
        match self.phases.get(&number) {
            Some(phase) => phase.scope.greatest <= length,
            None => false,
        }
    }

    /// Counts a member that ends the barrier behind the phase.
    fn count_end(&mut self, number: u64)
        ensures { KeepsPhases self.old self.new }
    {
        if let Some(phase) = self.phases.get_mut(&number) {
            *phase = phase.with_end();
        }
    }

    /// Forgets the phase if all members have ended the barrier behind it, and a later phase is over.
    fn forget(&mut self, number: u64)
        ensures { KeepsPhases self.old self.new }
    {
        if self.over > 1 && number < self.over - 1 && self.phase(number).ended >= self.actual {
            let _ = self.phases.remove(&number);
        }
    }
}
