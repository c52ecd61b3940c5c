//! Which record makes each entry of the ledger.
ghost use Rattle.std.specs.Prelude.{ℕ, ◌≡◌, ◌∷◌, [], ◌<◌, ◌+◌, ◌==◌, ◌||◌, ◌↔◌, IfOk, IfErr, OnOk, IsTrue, false, length, slice_set};
ghost use Rattle.ompt_events.specs.declared.cause.Cause.TheVariants.{EntryTwice, LengthAhead};
ghost use Rattle.ompt_events.specs.Causes.{RepeatsEntry, entries_in, IsAhead, IsFreeOf};
ghost use Rattle.ompt_events.specs.Faults.{IsFault};
ghost use Rattle.ompt_events.specs.Shown.{AreAllWith};
ghost use Rattle.checker.specs.Entries.{AreEntryPlaces, IsLedger};
ghost use Rattle.checker.specs.Makers.{is_named, AreEntriesNamed};
ghost use Rattle.checker.specs.Schedule.{EachAwaitsOne};

use crate::suspensions::Suspensions;
use ompt_events::{Cause, Fault, Shown, exclude};
use std::alloc::{AllocError, Global};
use std::collections::BTreeSet;
use std::marker::Model;
use task_tree::Run;

/// The ledger of a run: by entry the record that makes it, and where the run's tasks are suspended. No
/// entry is made twice, and no record names a greater length than the ledger ever has.
#[derive(Drop)]
pub(crate) struct Makers<'a> {
    run: Run<'a>,
    places: Vec<u32>,
    suspensions: Suspensions,
}

impl<'a> Model for Makers<'a> {
    ghost use Rattle.checker.specs.Entries.{MakersView, IsLedger};

    ghost Value = { MakersView };

    ghost view = { λ makers. record {
      run = makers.run;
      places = makers.places.items;
      suspensions = makers.suspensions;
    } };

    ghost invariant = { λ makers. IsLedger (record {
      run = makers.run;
      places = makers.places.items;
      suspensions = makers.suspensions;
    }) };
}

impl<'a> Makers<'a> {
    /// Returns the ledger of the run. Fails with EntryTwice at the first finishing record that names the
    /// entry of an earlier one, else with LengthAhead at the first record that names more than the ledger
    /// ever has.
    pub(crate) fn in_run(alloc: Global, run: &Run<'a>) -> Result<Makers<'a>, Fault>
        requires { EachAwaitsOne run.now.records }
        ensures run { IfOk result (λ makers. makers.run ≡ run.now) }
        ensures fault { IfErr result (IsFault run.now.records (EntryTwice ∷ LengthAhead ∷ [])) }
    {
        let Entries {
            makers: places,
            repeats,
        } = find_makers(alloc, run)?;
        exclude(Cause::EntryTwice, repeats.first())?;
        exclude(
            Cause::LengthAhead,
            find_ahead(alloc, run, places.len())?.first(),
        )?;
        let suspensions = Suspensions::of(alloc, run)?;
        Ok(Makers {
            run: run.again(),
            places,
            suspensions,
        })
    }

    /// Returns the run.
    pub(crate) fn run(&self) -> &Run<'a>
        ensures value { result.now ≡ self.now.run }
        ensures is_ledger { IsLedger self.now }
    {
        &self.run
    }

    /// Returns by entry the place of the record that makes it.
    pub(crate) fn places(&self) -> &[u32]
        ensures { result.now ≡ self.now.places }
    {
        self.places.as_slice()
    }

    /// Returns where the tasks are suspended.
    pub(crate) fn suspensions(&self) -> &Suspensions
        ensures value { result.now ≡ self.now.suspensions }
        ensures is_ledger { IsLedger self.now }
    {
        &self.suspensions
    }
}

/// The entries that are named so far.
#[derive(Drop)]
struct Named {
    /// By entry the place of the record that makes it, or the number of records. It has as many entries as
    /// there are finishing records.
    makers: Vec<u32>,
    /// The named entries beyond those.
    beyond: BTreeSet<u32>,
}

/// Returns how many entries the records make.
fn entry_count(run: &Run) -> usize
    ensures { result ≡ entries_in run.now.records }
{
    let mut count = 0;
    for at in 0..run.len() {
        if run.is_finishing(at) {
            count += 1;
        }
    }
    count
}

/// The records that make the entries of the ledger.
#[derive(Drop)]
struct Entries {
    /// By entry the place of a record that makes it, or the number of records.
    makers: Vec<u32>,
    /// The finishing records that name the entry of an earlier one.
    repeats: Shown,
}

/// Returns by entry of the ledger the record that makes it, and the finishing records that name the entry of
/// an earlier one.
fn find_makers(alloc: Global, run: &Run) -> Result<Entries, AllocError>
    ensures repeats { IfOk result (λ entries. AreAllWith run.now.records EntryTwice entries.repeats) }
    ensures makers { IfOk result (λ entries. IsFreeOf run.now.records EntryTwice
        → AreEntryPlaces run.now.records (length run.now.records) entries.makers.items) }
    ensures entries { IfOk result (λ entries. length entries.makers.items ≡ entries_in run.now.records) }
{
    let mut named = Named {
        makers: vec![in alloc; run.len() as u32; entry_count(run)]?,
        beyond: BTreeSet::new(alloc),
    };
    let mut repeats = Shown::none(alloc);
    for at in 0..run.len() {
        let again = repeats_entry(run, &mut named, at)?;
        repeats.note(at, again)?;
    }
    let Named { makers, .. } = named;
    Ok(Entries { makers, repeats })
}

/// Returns whether the record at a place names the entry of an earlier one. Marks its own entry as named.
fn repeats_entry(run: &Run, named: &mut Named, at: usize) -> Result<bool, AllocError>
    requires within { at < length run.now.records }
    requires named { AreEntriesNamed run.now.records at named.old }
    ensures repeats { IfOk result (λ repeats. IsTrue repeats ↔ RepeatsEntry run.now.records at) }
    ensures named { OnOk result (AreEntriesNamed run.now.records (at + 1) named.new) }
    ensures long { OnOk result (length named.new.makers.items ≡ length named.old.makers.items) }
    ensures makers { IfOk result (λ repeats. repeats ≡ false
        → AreEntryPlaces run.now.records at named.old.makers.items
        → AreEntryPlaces run.now.records (at + 1) named.new.makers.items) }
{
    if run.is_finishing(at) {
        name_entry(named, run, run.seen(at), at)
    } else {
        Ok(false)
    }
}

/// Returns whether the entry was named already, and marks it as named by the record at a place.
fn name_entry(named: &mut Named, run: &Run, entry: u32, at: usize) -> Result<bool, AllocError>
    requires { at < length run.now.records }
    ensures known { IfOk result (λ known. known ≡ is_named (length run.now.records) named.old entry) }
    ensures more { OnOk result ((e : ℕ) → is_named (length run.now.records) named.new e
        ≡ ((e == entry) || is_named (length run.now.records) named.old e)) }
    ensures makers { OnOk result (named.new.makers.items ≡ slice_set named.old.makers.items entry at) }
{
    let index = entry as usize;
    if index < named.makers.len() {
        let known = (named.makers[index] as usize) < run.len();
        named.makers[index] = at as u32;
        Ok(known)
    } else {
        Ok(!named.beyond.insert(entry)?)
    }
}

/// Returns the records that name an entry past the ledger's end, or a greater length than the ledger ever
/// has.
fn find_ahead(alloc: Global, run: &Run, entries: usize) -> Result<Shown, AllocError>
    requires { entries ≡ entries_in run.now.records }
    ensures { IfOk result (AreAllWith run.now.records LengthAhead) }
{
    let mut shown = Shown::none(alloc);
    for at in 0..run.len() {
        shown.note(at, is_ahead(run, entries, at))?;
    }
    Ok(shown)
}

/// Returns whether the record at a place does so.
fn is_ahead(run: &Run, entries: usize, at: usize) -> bool
    requires within { at < length run.now.records }
    requires entries { entries ≡ entries_in run.now.records }
    ensures { IsTrue result ↔ IsAhead run.now.records at }
{
    let seen = run.seen(at) as usize;
    seen > entries || (seen == entries && run.is_finishing(at))
}

/// Returns all finishing records that name the entry of an earlier one. Fails only when out of memory.
pub(crate) fn repeated_entries(alloc: Global, run: &Run) -> Result<Shown, AllocError>
    ensures { IfOk result (AreAllWith run.now.records EntryTwice) }
{
    let Entries { repeats, .. } = find_makers(alloc, run)?;
    Ok(repeats)
}

/// Returns all records that name an entry past the ledger's end, or a greater length than the ledger ever
/// has. Fails only when out of memory.
pub(crate) fn lengths_ahead(alloc: Global, run: &Run) -> Result<Shown, AllocError>
    ensures { IfOk result (AreAllWith run.now.records LengthAhead) }
{
    find_ahead(alloc, run, entry_count(run))
}
