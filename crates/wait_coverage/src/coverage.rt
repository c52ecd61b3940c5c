//! The ends of waits in a trace, the credit that each waits for, and the task that is unfinished at each.
ghost use Rattle.std.specs.Prelude.{ℕ, ◌≡◌, ◌<◌, ◌≤◌, ◌∷◌, [], List, Some, All, IfOk, IfErr, IsTrue, MatchOption, Contains, Option, length, slice_get, take};
ghost use Rattle.ompt_events.specs.declared.records.Record.{Record};
ghost use Rattle.ompt_events.specs.declared.cause.Cause.TheVariants.{TeamShort};
ghost use Rattle.ompt_events.specs.declared.fault.Fault.TheVariants.{Memory};
ghost use Rattle.ompt_events.specs.Faults.{IsShownFault};
ghost use Rattle.ompt_events.specs.Tree.{HasPath};
ghost use Rattle.ompt_events.specs.Turns.{in_own_order};
ghost use Rattle.task_tree.specs.Families.{IsOwnOf};
ghost use Rattle.task_tree.specs.Paths.{IsTreeOf};
ghost use Rattle.teams.specs.Teams.{own_of};
ghost use Rattle.credit_ledger.specs.declared.entry.Span.{Span};
ghost use Rattle.credit_ledger.specs.declared.entry.Cover.{Cover};
ghost use Rattle.credit_ledger.specs.Entries.{IsSpanHeld};
ghost use Rattle.credit_ledger.specs.TraceEntries.{IsLedgerOf, HasRightEntries};
ghost use Rattle.wait_coverage.specs.declared.waits.Wait.TheVariants.{Barrier};
ghost use Rattle.wait_coverage.specs.Spans.{AreSpans, AreMemberSpans, IsSpan, IsCoverComplete};
ghost use Rattle.wait_coverage.specs.Waits.{IsWaitAt, cover_of};
ghost use Rattle.wait_coverage.specs.Coverage.{IsCoverage, AreAllHeld, AreShallow, AreWaitEnds, AreWaits, IsEndNumber, IsFirstUnfinishedAnswer, AreFirstUnfinished, IsCoverAt, IsOnly, HasBegun, HaveBegun, IsMemberSpan, AreRosterSpans};

use crate::numbers::find_numbers;
use crate::unfinished::{Known, unfinished_at};
use crate::waits::{Wait, wait_at};
use credit_ledger::{Cover, Ledger, Span};
use index_tables::Slot;
use ompt_events::{Fault, Path, Trace};
use std::alloc::{AllocError, Global};
use std::marker::Model;
use task_states::States;
use task_tree::Tree;
use teams::Teams;

/// The fault of a call on the coverage of waits.
pub type CoverFault = Fault;

/// What each wait of a trace waits for.
#[derive(Debug, Drop)]
pub struct Coverage<'a> {
    tree: &'a Tree,
    teams: Teams<'a>,
    /// By record, in the tasks' own order, how many children its task had created before it.
    numbers: Vec<u32>,
    ends: Vec<usize>,
    waits: Vec<Wait>,
}

impl<'a> Model for Coverage<'a> {
    ghost use Rattle.wait_coverage.specs.Coverage.{CoverageView, IsCoverage};

    ghost Value = { CoverageView };

    ghost view = { λ coverage. record {
      tree = coverage.tree.now;
      teams = coverage.teams;
      numbers = coverage.numbers.items;
      ends = coverage.ends.items;
      waits = coverage.waits.items;
    } };

    ghost invariant = { λ coverage. IsCoverage (record {
      tree = coverage.tree.now;
      teams = coverage.teams;
      numbers = coverage.numbers.items;
      ends = coverage.ends.items;
      waits = coverage.waits.items;
    }) };
}

impl<'a> Coverage<'a> {
    /// Returns what each wait of the trace waits for. Fails with TeamShort if a team or a barrier lacks a
    /// member (OpenMP 5.2, 10.1 and 15.3), at its first record in the file, or when out of memory. Requires
    /// that the tree and the states are those of the trace. The task, region and team of a record are read
    /// in the tasks' own order; ends and creations are returned in file order.
    pub fn build(
        alloc: Global,
        trace: &'a Trace,
        tree: &'a Tree,
        states: &'a States<'a>,
    ) -> Result<Coverage<'a>, CoverFault>
        requires tree { IsTreeOf trace.now.records tree.now }
        requires records { states.now.run.records ≡ trace.now.records }
        ensures coverage { IfOk result (λ coverage. IsOwnOf trace.now.records (own_of coverage.teams)) }
        ensures fault { IfErr result (IsShownFault trace.now.records (TeamShort ∷ [])) }
    {
        let teams = Teams::in_own(alloc, states.regions())?;
        let numbers = find_numbers(alloc, teams.run())?;
        let (ends, waits) = find_ends(alloc, &teams)?;
        Ok(Coverage {
            tree,
            teams,
            numbers,
            ends,
            waits,
        })
    }

    /// Returns the places in the file of the records that end a wait, in file order.
    pub fn ends(&self) -> &[usize]
        ensures value { result.now ≡ self.now.ends }
        ensures ends { AreWaitEnds (own_of self.now.teams) (length self.now.teams.run.records) result.now }
    {
        self.ends.as_slice()
    }

    /// Returns whether the end with this index among the ends waits for children alone or for all
    /// descendants.
    pub fn cover(&self, index: usize) -> Cover
        requires { index < length self.now.ends }
        ensures { (end : ℕ) → IsEndNumber self.now index end
            → IsCoverAt self.now.teams.run.records end result }
    {
        self.wait(index).cover()
    }

    /// Returns the credit that the end with this index among the ends waits for: the spans of children
    /// whose start shares must have come back. Fails only when out of memory.
    pub fn spans(&self, index: usize) -> Result<Vec<Span>, CoverFault>
        requires { index < length self.now.ends }
        ensures fault { IfErr result (λ fault. fault ≡ Memory) }
        ensures spans { IfOk result (λ spans. (end : ℕ) → IsEndNumber self.now index end
            → (cover : Cover) × IsCoverAt self.now.teams.run.records end cover
            × AreSpans self.now.teams.run.records end cover spans.items) }
    {
        let _end = self.end(index);
        Ok(self.spans_of(self.wait(index))?)
    }

    /// Returns, of the tasks that the end with this index among the ends covers and that the entries of the
    /// ledger below the length that the end names don't finish, the one created first in the file. Returns
    /// none if these entries hold the credit that the end waits for (F. Mattern, 1989). The contract
    /// guarantees this if the ledger is that of the trace and its records have right entries, as those
    /// without the causes 1 to 13 have. Fails only when out of memory.
    pub fn first_unfinished(&self, index: usize, ledger: &Ledger) -> Result<Option<u64>, CoverFault>
        requires { index < length self.now.ends }
        ensures fault { IfErr result (λ fault. fault ≡ Memory) }
        ensures first { IsLedgerOf self.now.teams.run.records ledger.now
            → HasRightEntries self.now.teams.run.records
            → IfOk result (λ found. (end : ℕ) → IsEndNumber self.now index end
            → IsFirstUnfinishedAnswer self.now end found) }
    {
        if self.is_end_held(index, ledger)? {
            return Ok(None);
        }
        let alloc = *self.ends.allocator();
        let known = Known::of_ledger(alloc, self.teams(), ledger)?;
        let _done = known.done();
        Ok(unfinished_at(alloc, &known, self.end(index))?)
    }

    /// Returns for each of several ends what `first_unfinished` returns for it. Goes over the ledger's
    /// entries once for all of them. Takes a few steps for each end in time, and a few for each record for an
    /// end with an unfinished task.
    pub fn first_unfinished_all(
        &self,
        of: &[usize],
        ledger: &Ledger,
    ) -> Result<Vec<Option<u64>>, CoverFault>
        requires { All (λ index. index < length self.now.ends) of.now }
        ensures fault { IfErr result (λ fault. fault ≡ Memory) }
        ensures first { IsLedgerOf self.now.teams.run.records ledger.now
            → HasRightEntries self.now.teams.run.records
            → IfOk result (λ found. AreFirstUnfinished self.now of.now (length of.now) found.items) }
    {
        let alloc = *self.ends.allocator();
        let known = Known::of_ledger(alloc, self.teams(), ledger)?;
        let _done = known.done();
        let mut found = Vec::with_capacity(alloc, of.len())?;
        for asked in 0..of.len() {
            found.push(unfinished_at(alloc, &known, self.end(of[asked]))?)?;
        }
        Ok(found)
    }

    /// Returns the number in the tasks' own order of the end with this index among the ends.
    fn end(&self, index: usize) -> usize
        requires { index < length self.now.ends }
        ensures value { IsEndNumber self.now index result }
        ensures within { result < length self.now.teams.run.records }
    {
        self.teams.own().number(self.ends[index])
    }

    /// Returns what the end with this index waits for.
    fn wait(&self, index: usize) -> &Wait
        requires { index < length self.now.ends }
        ensures { (end : ℕ) → IsEndNumber self.now index end → IsWaitAt
            self.now.teams.run.records self.now.teams.run.family.tasks end result.now }
    {
        &self.waits[index]
    }

    /// Returns the teams of the run.
    fn teams(&self) -> &Teams<'a>
        ensures value { result.now ≡ self.now.teams }
        ensures is_coverage { IsCoverage self.now }
    {
        &self.teams
    }

    /// Returns true only if the entries of the ledger below the length that the end with this index names
    /// hold the credit that it waits for.
    fn is_end_held(&self, index: usize, ledger: &Ledger) -> Result<bool, CoverFault>
        requires { index < length self.now.ends }
        ensures fault { IfErr result (λ fault. fault ≡ Memory) }
        ensures held { IsLedgerOf self.now.teams.run.records ledger.now
            → HasRightEntries self.now.teams.run.records
            → IfOk result (λ held. IsTrue held → (end : ℕ) → IsEndNumber self.now index end
            → IsCoverComplete self.now.teams.run.records end) }
    {
        let seen = self.teams().run().seen(self.end(index));
        let wait = self.wait(index);
        let spans = self.spans_of(wait)?;
        are_held(ledger, seen, spans.as_slice(), wait.cover())
    }

    /// Returns the credit that is waited for: one span, or for a barrier one for each member of the team.
    fn spans_of(&self, wait: &Wait) -> Result<Vec<Span>, AllocError>
        requires { (end : ℕ)
            × IsWaitAt self.now.teams.run.records self.now.teams.run.family.tasks end wait.now }
        ensures { IfOk result (λ spans. (end : ℕ)
            → IsWaitAt self.now.teams.run.records self.now.teams.run.family.tasks end wait.now
            → AreSpans self.now.teams.run.records end (cover_of wait.now) spans.items) }
    {
        match *wait {
            Wait::Taskwait { task, begin } => self.only_span(task, 0, self.numbers[begin]),
            Wait::Taskgroup { task, begin, end } => {
                let from = self.numbers[begin];
                self.only_span(task, from, self.numbers[end])
            }
            Wait::Barrier { task, number } => self.member_spans(task, number),
        }
    }

    /// Returns one span: that of the children of the task at the index with these numbers.
    fn only_span(&self, task: usize, from: u32, to: u32) -> Result<Vec<Span>, AllocError>
        requires { task < length self.now.teams.run.family.tasks }
        ensures { IfOk result (λ spans. (id : ℕ) → slice_get self.now.teams.run.family.tasks task ≡ Some id
            → IsOnly self.now.teams.run.records id from to spans.items) }
    {
        let mut spans = Vec::new(*self.ends.allocator());
        spans.push(self.span(task, from, to)?)?;
        Ok(spans)
    }

    /// Returns the span of the children of the task at the index with these numbers.
    fn span(&self, task: usize, from: u32, to: u32) -> Result<Span, AllocError>
        requires { task < length self.now.teams.run.family.tasks }
        ensures { IfOk result (λ span. (id : ℕ) → slice_get self.now.teams.run.family.tasks task ≡ Some id
            → IsSpan self.now.teams.run.records id from to span) }
    {
        let id = self.teams.run().task(task);
        let (root, path) = stands_at(*self.ends.allocator(), self.tree, id)?;
        Ok(Span {
            from,
            to,
            root,
            path,
        })
    }

    /// Returns, for each member of the team of the task at the index, by its number in the team, the span
    /// of the children that it created before its barrier with this number began.
    fn member_spans(&self, task: usize, number: usize) -> Result<Vec<Span>, AllocError>
        requires { (end : ℕ)
            × IsWaitAt self.now.teams.run.records self.now.teams.run.family.tasks end (Barrier task number) }
        ensures { IfOk result (λ spans. (id : ℕ) → slice_get self.now.teams.run.family.tasks task ≡ Some id
            → AreMemberSpans self.now.teams.run.records id number spans.items) }
    {
        match self.teams.team(task) {
            Some(team) => self.roster_spans(self.teams.roster(team), number),
            None => Ok(Vec::new(*self.ends.allocator())),
        }
    }

    /// Returns, for each task at the indices of a roster, the span of the children that it created before its
    /// barrier with this number began.
    fn roster_spans(&self, roster: &[Slot], number: usize) -> Result<Vec<Span>, AllocError>
        requires { HaveBegun self.now.teams.begins number roster.now }
        ensures { IfOk result (λ spans. AreRosterSpans self.now.teams.run.records
            self.now.teams.run.family.tasks number roster.now (length roster.now) spans.items) }
    {
        let mut spans = Vec::with_capacity(*self.ends.allocator(), roster.len())?;
        for index in 0..roster.len() {
            let member = roster[index].get().unwrap();
            spans.push(self.member_span(member, number)?)?;
        }
        Ok(spans)
    }

    /// Returns the span of the children that the task at the index created before its barrier with this
    /// number began.
    fn member_span(&self, member: usize, number: usize) -> Result<Span, AllocError>
        requires { HasBegun self.now.teams.begins number member }
        ensures { IfOk result (λ span. (id : ℕ) → slice_get self.now.teams.run.family.tasks member ≡ Some id
            → IsMemberSpan self.now.teams.run.records id number span) }
    {
        let start = self.teams.begins(member)[number] as usize;
        self.span(member, 0, self.numbers[start])
    }
}

/// Returns the root and the path of a task.
fn stands_at(alloc: Global, tree: &Tree, task: u64) -> Result<(u64, Path), AllocError>
    ensures { IfOk result (λ place. (records : List Record) (root : ℕ) (path : List ℕ)
        → IsTreeOf records tree.now → HasPath (in_own_order records) root task path
        → HasPath (in_own_order records) place.0 task place.1) }
{
    let root = tree.root(task).unwrap_or(0);
    let mut numbers = Vec::new(alloc);
    if let Some(path) = tree.path(task) {
        numbers.extend_from_slice(path)?;
    }
    Ok((root, Path::from_vec(numbers)))
}

/// Returns whether the first entries of the ledger, as many as were seen, hold all the spans. No credit
/// comes back from deeper than 1,024 steps below a root.
fn are_held(ledger: &Ledger, seen: u32, spans: &[Span], cover: Cover) -> Result<bool, CoverFault>
    ensures fault { IfErr result (λ fault. fault ≡ Memory) }
    ensures held { IfOk result (λ held. IsTrue held → AreAllHeld ledger.now seen cover spans.now) }
    ensures all { AreShallow spans.now
        → IfOk result (λ held. AreAllHeld ledger.now seen cover spans.now → IsTrue held) }
{
    for index in 0..spans.len() {
        if !is_held(ledger, seen, &spans[index], cover)? {
            return Ok(false);
        }
    }
    Ok(true)
}

/// Returns whether the first entries of the ledger, as many as were seen, hold the span. No credit comes
/// back from deeper than 1,024 steps below a root.
fn is_held(ledger: &Ledger, seen: u32, span: &Span, cover: Cover) -> Result<bool, CoverFault>
    ensures fault { IfErr result (λ fault. fault ≡ Memory) }
    ensures held { IfOk result (λ held. IsTrue held → IsSpanHeld (take seen ledger.now) span.now cover) }
    ensures all { length span.now.path ≤ 1024
        → IfOk result (λ held. IsSpanHeld (take seen ledger.now) span.now cover → IsTrue held) }
{
    if span.path.as_slice().len() > 1024 {
        return Ok(false);
    }
    match ledger.holds(seen, span, cover) {
        Ok(held) => Ok(held),
        Err(_) => Err(Fault::Memory),
    }
}

/// Returns the places in the file of the records that end a wait, and what each waits for.
fn find_ends(alloc: Global, teams: &Teams) -> Result<(Vec<usize>, Vec<Wait>), AllocError>
    ensures ends { IfOk result (λ found.
        AreWaitEnds (own_of teams.now) (length teams.now.run.records) found.0.items) }
    ensures waits { IfOk result (λ found. AreWaits (own_of teams.now) found.0.items found.1.items) }
{
    let mut ends = Vec::new(alloc);
    let mut waits = Vec::new(alloc);
    for place in 0..teams.run().len() {
        if let Some(wait) = wait_at(teams, teams.own().number(place)) {
            ends.push(place)?;
            waits.push(wait)?;
        }
    }
    Ok((ends, waits))
}
