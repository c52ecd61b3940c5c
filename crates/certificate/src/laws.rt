//! What follows from the definitions of a file alone, whichever versions are read. The functions do nothing:
//! their contracts are the laws.
ghost use Rattle.std.specs.Prelude.{◌≡◌, ◌≤◌, ◌↔◌, ℕ, List, length, Ok, Err};
ghost use Rattle.ompt_events.specs.declared.records.Record.{Record};
ghost use Rattle.ompt_events.specs.Limits.{max_records, max_tasks};
ghost use Rattle.ompt_events.specs.Traces.{TraceView, IsTraceOf, FitsIn, tasks_in};
ghost use Rattle.certificate.specs.declared.faults.ReadFault.{ReadFault};
ghost use Rattle.lines.specs.RecordLines.{line_says};
ghost use Rattle.certificate.specs.TraceTexts.{trace_text};
ghost use Rattle.certificate.specs.Files.{file_says, file_says_to, long_file_says, long_traces};
ghost use Rattle.certificate.specs.Files.{StandsFor, IsFirstFault};
ghost use Rattle.certificate.specs.Reading.{IsLineReached};

/// A file stands for at most one trace.
pub fn one_trace()
    ensures { (newest : ℕ) (bytes : List ℕ) (a b : TraceView)
        → StandsFor newest bytes a → StandsFor newest bytes b → a ≡ b }
{}

/// A file with a fault stands for no trace.
pub fn faulty_is_none()
    ensures { (newest : ℕ) (bytes : List ℕ) (fault : ReadFault) (trace : TraceView)
        → IsFirstFault newest bytes fault → StandsFor newest bytes trace → ⊥ }
{}

/// The lines, one after another, give the trace if and only if no line has a fault.
pub fn stands_line_by_line()
    ensures { (newest : ℕ) (bytes : List ℕ) (trace : TraceView)
        → (file_says_to newest bytes ≡ Ok trace) ↔ StandsFor newest bytes trace }
{}

/// The fault of a file is that of its first line with a fault, and of no other line.
pub fn first_fault_is_said()
    ensures { (newest : ℕ) (bytes : List ℕ) (fault : ReadFault)
        → (file_says_to newest bytes ≡ Err fault) ↔ IsFirstFault newest bytes fault }
{}

/// The record of a line of a file may be in a trace of the file's version.
pub fn lines_are_sound()
    ensures { (version : ℕ) (line : List ℕ) (event : Record)
        → line_says version line ≡ Ok event → FitsIn version event }
{}

/// The text of a trace of any version is a file that stands for this trace and no other, if its version
/// is read.
pub fn text_stands_for_its_trace()
    ensures { (newest : ℕ) (trace : TraceView) → trace.version ≤ newest
        → IsTraceOf trace.version trace.records
        → StandsFor newest (trace_text trace) trace
        × ((other : TraceView) → StandsFor newest (trace_text trace) other → other ≡ trace) }
{}

/// A file stands for a trace if and only if these are the records of the file where it may have any length,
/// and they and their tasks are not too many for a trace.
pub fn limits_alone_differ()
    ensures { (bytes : List ℕ) (trace : TraceView) → (file_says bytes ≡ Ok trace)
        ↔ ((long_file_says bytes ≡ Ok trace) × (length trace.records ≤ max_records)
        × (tasks_in trace.records ≤ max_tasks)) }
{}

/// A fault of a file of any length is in no line before one that was reached.
pub fn reached_line_is_faultless()
    ensures { (n : ℕ) (bytes : List ℕ) (fault : ReadFault) → IsLineReached long_traces n bytes
        → long_file_says bytes ≡ Err fault → n ≤ fault.line }
{}
