//! The trace of the lines so far.
ghost use Rattle.std.specs.Prelude.{◌≡◌, ◌≤◌, ◌+◌, ◌++◌, ◌∷◌, [], Ok, Err, All, OnOk, length};
ghost use Rattle.std.specs.Result.{result_map_both};
ghost use Rattle.ompt_events.specs.Traces.{IsKnown, IsTraceOf, FitsIn, TraceView};
ghost use Rattle.lines.specs.RecordLines.{IsSaid};
ghost use Rattle.certificate.specs.Files.{no_trace, with_record};
ghost use Rattle.certificate.specs.Keeping.{KeepsFirst};

use lines::ReadCause;
use ompt_events::{MAX_RECORDS, MAX_TASKS, Record};
use std::alloc::AllocError;
use std::marker::Model;

/// The records of a trace that is read: a list in file order, to which records are added.
pub(crate) trait RecordList: Drop {
    /// The version of the file, and the records.
    ghost listed: { Self → TraceView };

    /// Removes all records, and begins a list of this version.
    fn begin(&mut self, version: u32)
        requires { IsKnown version }
        ensures { listed self.new ≡ record { version = version; records = [] } };

    /// Returns the version of the file.
    fn version(&self) -> u32
        ensures { result ≡ (listed self.now).version };

    /// Adds a record behind the others. Requires that the list is a trace then. Fails only when out of memory;
    /// then it is not defined which records are left.
    fn push(&mut self, event: Record) -> Result<(), AllocError>
        requires { IsTraceOf (listed self.old).version ((listed self.old).records ++ event ∷ []) }
        ensures { OnOk result (listed self.new ≡ record {
          version = (listed self.old).version;
          records = (listed self.old).records ++ event ∷ [];
        }) };
}

/// Records in file order, within the limits of a trace of the version.
#[derive(Drop)]
pub(crate) struct Kept<L: RecordList> {
    list: L,
    // How many records there are, and how many of them make a task.
    count: usize,
    tasks: usize,
}

impl<L: RecordList> Model for Kept<L> {
    ghost use Rattle.ompt_events.specs.Traces.{TraceView};
    ghost use Rattle.certificate.specs.Keeping.{IsTraceKept};

    ghost Value = { TraceView };

    ghost view = { λ kept. L.listed kept.list };

    ghost invariant = { λ kept. IsTraceKept (L.listed kept.list) kept.count kept.tasks };
}

impl<L: RecordList> Kept<L> {
    /// Returns a trace without records, kept in this list. Removes what the list has.
    pub(crate) fn new(list: L) -> Kept<L>
        ensures { result ≡ no_trace }
    {
        let mut list = list;
        list.begin(1);
        Kept {
            list,
            count: 0,
            tasks: 0,
        }
    }

    /// Begins a trace of this version.
    pub(crate) fn begin(&mut self, version: u32)
        requires { IsKnown version }
        ensures { self.new ≡ record { version = version; records = [] } }
    {
        self.list.begin(version);
        self.count = 0;
        self.tasks = 0;
    }

    /// Returns the version of the trace.
    pub(crate) fn version(&self) -> u32
        ensures { result ≡ self.now.version }
    {
        self.list.version()
    }

    /// Adds the record. Fails with `Limit` if the trace is full, or out of memory.
    #[inline(always)]
    pub(crate) fn keep(&mut self, event: Record) -> Result<(), ReadCause>
        requires { FitsIn self.old.version event }
        ensures { IsSaid (result_map_both (λ _. self.new) (λ e. e) result)
            (with_record self.old (Ok event)) }
    {
        if self.count >= MAX_RECORDS {
            return Err(ReadCause::Limit);
        }
        event.read_numbers();
        let makes = event.body.made().is_some();
        if makes && self.tasks >= MAX_TASKS {
            return Err(ReadCause::Limit);
        }
        if self.list.push(event).is_err() {
            self.list.begin(1);
            self.count = 0;
            self.tasks = 0;
            return Err(ReadCause::Memory);
        }
        self.count += 1;
        if makes {
            self.tasks += 1;
        }
        Ok(())
    }

    /// Adds the first of these records, as many as the limits allow. Returns how many were added, and why no
    /// more.
    pub(crate) fn keep_all(&mut self, records: Vec<Record>) -> (usize, Option<ReadCause>)
        requires { All (FitsIn self.old.version) records.items }
        ensures first { KeepsFirst self.old records.items result.0 result.1 self.new }
        ensures few { length self.old.records ≤ MAX_RECORDS
            → length self.old.records + result.0 ≤ MAX_RECORDS }
    {
        let mut count = 0;
        let mut rest = records.into_iter();
        'records: while let Some(event) = rest.next() {
            if let Err(cause) = self.keep(event) {
                return (count, Some(cause));
            }
            count += 1;
        }
        (count, None)
    }

    /// Returns the list.
    pub(crate) fn into_list(self) -> L
        ensures { L.listed result ≡ self }
    {
        self.list
    }
}
