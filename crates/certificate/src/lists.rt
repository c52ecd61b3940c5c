//! What a trace file is read into: the records themselves, or columns of few bytes.
ghost use Rattle.std.specs.Prelude.{◌≡◌, []};

use crate::kept::RecordList;
use ompt_events::{Record, Trace};
use packed_trace::PackedTrace;
use std::alloc::{AllocError, Global};
use std::marker::Model;

/// Records that become a [`Trace`].
#[derive(Drop)]
pub(crate) struct Records {
    version: u32,
    records: Vec<Record>,
}

impl Model for Records {
    ghost use Rattle.ompt_events.specs.Traces.{TraceView, IsTraceOf};

    ghost Value = { TraceView };

    ghost view = { λ list. record { version = list.version; records = list.records.items } };

    ghost invariant = { λ list. IsTraceOf list.version list.records.items };
}

impl Records {
    /// Returns no records.
    pub(crate) fn new(alloc: Global) -> Records
        ensures { result ≡ record { version = 1; records = [] } }
    {
        Records {
            version: 1,
            records: Vec::new(alloc),
        }
    }

    /// Returns the trace of these records. Takes no memory.
    pub(crate) fn into_trace(self) -> Trace
        ensures { result ≡ self }
    {
        Trace::from_parts(self.version, self.records)
    }
}

impl RecordList for Records {
    ghost listed = { λ list. list };

    fn begin(&mut self, version: u32) {
        self.records.clear();
        self.version = version;
    }

    fn version(&self) -> u32 {
        self.version
    }

    fn push(&mut self, event: Record) -> Result<(), AllocError> {
        self.records.push(event)?;
        Ok(())
    }
}

impl RecordList for PackedTrace {
    ghost listed = { λ trace. trace };

    fn begin(&mut self, version: u32) {
        PackedTrace::begin(self, version);
    }

    fn version(&self) -> u32 {
        PackedTrace::version(self)
    }

    fn push(&mut self, event: Record) -> Result<(), AllocError> {
        PackedTrace::push(self, event)
    }
}
