//! What is kept of a task that is not settled.
ghost use Rattle.std.specs.Prelude.{◌≡◌, ◌≤◌, ◌<◌, ◌≢◌, ◌↔◌, IsTrue, OnOk, OnErr, false, None, Some, length};
ghost use Rattle.online.specs.Waits.{with_task, without_task, raised, ChangesScope};
ghost use Rattle.online.specs.Waits.{CountsChild, CompletesChild, SettlesChild, Completes, BeginsGroup};
ghost use Rattle.online.specs.Waits.{EndsGroup, IsNew, StaysKin};
ghost use Rattle.online.specs.Teams.{IsTold, IsPlaceIn, CountsBarrier};

use crate::scope::Scope;
use std::alloc::{AllocError, Global};

/// What is kept of a task that is not settled: of it or of one of its descendants it is not known that it is
/// complete.
#[derive(Drop)]
pub struct Kin {
    /// Whether the task itself is complete; of a root, whether it has ended.
    pub done: bool,
    /// The task that created it; a root has none.
    pub parent: Option<u64>,
    /// The parallel region of whose team it is a member.
    pub team: Option<u64>,
    /// The parallel region of whose team its parent is a member.
    pub parent_team: Option<u64>,
    /// How many barriers its parent had begun when it was created.
    pub phase: u64,
    /// How many barriers it has begun.
    pub barriers: u64,
    /// How many taskgroups of its parent were open when it was created.
    pub group: usize,
    /// Its children that are not settled. From `greatest` on the task too is complete, where it is done.
    pub family: Scope,
    /// Its children that are not complete.
    pub children: Scope,
    /// Of each open taskgroup of the task, the innermost last: the children created in it and in no open
    /// taskgroup inside it that are not settled.
    pub groups: Vec<Scope>,
}

/// Where a child stands that a task creates.
#[derive(Clone, Copy)]
pub struct Place {
    /// The parallel region of whose team the task is a member.
    pub team: Option<u64>,
    /// How many barriers it has begun.
    pub barriers: u64,
    /// How many taskgroups it has open.
    pub group: usize,
}

/// Counts one more task in the scope with this number, from 1; 0 is the number of none.
fn enter(groups: &mut Vec<Scope>, number: usize)
    ensures { ChangesScope with_task number groups.old.items groups.new.items }
{
    if number > 0 && number <= groups.len() {
        groups[number - 1] = groups[number - 1].with_task();
    }
}

/// Counts one task less in the scope with this number, from 1: it is over from the length on.
fn leave(groups: &mut Vec<Scope>, number: usize, length: u64)
    ensures { ChangesScope (without_task length) number groups.old.items groups.new.items }
{
    if number > 0 && number <= groups.len() {
        groups[number - 1] = groups[number - 1].without_task(length);
    }
}

/// Counts more tasks in the scope with this number, from 1: they are over from the length on.
fn raise(groups: &mut Vec<Scope>, number: usize, length: u64)
    ensures { ChangesScope (raised length) number groups.old.items groups.new.items }
{
    if number > 0 && number <= groups.len() {
        groups[number - 1] = groups[number - 1].raised(length);
    }
}

impl Kin {
    /// Returns what is kept of a root that begins, as a member of a team or as an initial task.
    pub fn of_root(alloc: Global, team: Option<u64>) -> Self
        ensures new { IsNew None 0 result }
        ensures told { IsTold team None 0 result }
    {
        Kin {
            done: false,
            parent: None,
            team,
            parent_team: None,
            phase: 0,
            barriers: 0,
            group: 0,
            family: Scope::empty(),
            children: Scope::empty(),
            groups: Vec::new(alloc),
        }
    }

    /// Returns what is kept of a child that the parent creates.
    pub fn of_child(alloc: Global, parent: u64, place: Place) -> Self
        ensures new { IsNew (Some parent) place.group result }
        ensures told { IsTold None place.team place.barriers result }
    {
        Kin {
            done: false,
            parent: Some(parent),
            team: None,
            parent_team: place.team,
            phase: place.barriers,
            barriers: 0,
            group: place.group,
            family: Scope::empty(),
            children: Scope::empty(),
            groups: Vec::new(alloc),
        }
    }

    /// Returns where a child stands that the task creates now.
    pub fn place(&self) -> Place
        ensures { IsPlaceIn self.now result }
    {
        Place {
            team: self.team,
            barriers: self.barriers,
            group: self.groups.len(),
        }
    }

    /// Returns whether the task is an initial one, and all its children are settled at the length.
    pub fn is_over_alone(&self, length: u64) -> bool
        ensures { IsTrue result → (self.now.parent ≡ None) × (self.now.team ≡ None)
            × (self.now.family.left ≡ 0) × (self.now.family.greatest ≤ length) }
    {
        if self.parent.is_some() {
            return false;
        }
        if self.team.is_some() {
            return false;
        }
        self.family.is_over(length)
    }

    /// Counts a barrier that the task begins.
    pub fn begin_barrier(&mut self)
        ensures { CountsBarrier self.old self.new }
    {
        self.barriers = self.barriers.saturating_add(1);
    }

    /// Counts a child that the task creates.
    pub fn count_child(&mut self)
        ensures { CountsChild self.old self.new }
    {
        self.family = self.family.with_task();
        self.children = self.children.with_task();
        let number = self.groups.len();
        enter(&mut self.groups, number);
    }

    /// Counts a child of the task as complete from the length on.
    pub fn complete_child(&mut self, length: u64)
        ensures { CompletesChild length self.old self.new }
    {
        self.children = self.children.without_task(length);
    }

    /// Counts a child of the task, which was created in the taskgroup with this number, as settled from the
    /// length on.
    pub fn settle_child(&mut self, number: usize, length: u64)
        ensures { SettlesChild number length self.old self.new }
    {
        self.family = self.family.without_task(length);
        leave(&mut self.groups, number, length);
    }

    /// Says that the task itself is complete from the length on.
    pub fn complete(&mut self, length: u64)
        ensures { Completes length self.old self.new }
    {
        self.done = true;
        self.family = self.family.raised(length);
    }

    /// Begins a taskgroup of the task.
    pub fn begin_group(&mut self) -> Result<(), AllocError>
        ensures begun { OnOk result (BeginsGroup self.old self.new) }
        ensures err { OnErr result (StaysKin self.old self.new) }
    {
        self.groups.push(Scope::empty())?;
        Ok(())
    }

    /// Ends the innermost taskgroup of the task and returns `true`, if the task has one and all that is counted
    /// in it is over at the length.
    pub fn end_group(&mut self, length: u64) -> bool
        ensures ended { IsTrue result → EndsGroup length self.old self.new }
        ensures kept { result ≡ false → self.new ≡ self.old }
    {
        let Some(inner) = self.groups.last().copied() else {
            return false;
        };
        if !inner.is_over(length) {
            return false;
        }
        let _ = self.groups.pop();
        let number = self.groups.len();
        raise(&mut self.groups, number, inner.greatest);
        true
    }
}
