//! The recording of a script.
ghost use Rattle.std.specs.Prelude.{◌≡◌, IfErr, OnOk};
ghost use Rattle.taskaudit.specs.Devices.{TellsDevices};
ghost use Rattle.taskaudit.specs.Recordings.{IsScriptReadRightly, LeavesRecording, Records, fault_of_run};

use crate::work::AuditFault;
use certificate::{Sink, Source, read_script, write};
use checker::CheckFault;
use scripts::{RunFault, run};
use std::alloc::Global;
use std::sync::Wait;
use std::thread::Threads;

/// Reads a script to its end, runs it, each of its threads on a thread of its own, and writes the trace that
/// its recorders gather.
pub fn record<R: Threads + Wait + Sync, I: Source, O: Sink>(
    rt: &R,
    alloc: Global,
    source: &mut I,
    sink: &mut O,
) -> Result<(), AuditFault>
    ensures records { OnOk result
        (Records (I.remaining source.old) (O.contents sink.old) (O.contents sink.new)) }
    ensures leaves { IfErr result
        (LeavesRecording (I.remaining source.old) (O.contents sink.old) (O.contents sink.new)) }
    ensures unreadable { IfErr result
        (IsScriptReadRightly (I.remaining source.old) (I.remaining source.new)) }

    // A fault of the source or of the sink is told exactly where it occurs.
    ensures devices { TellsDevices result
        (record { turns = I.agains source.old; breaks = I.breaks source.old })
        (record { turns = I.agains source.new; breaks = I.breaks source.new })
        (record { turns = O.stalls sink.old; breaks = O.breaks sink.old })
        (record { turns = O.stalls sink.new; breaks = O.breaks sink.new }) }
{
    let script = read_script(alloc, source).map_err(AuditFault::Read)?;
    let trace = match run(rt, alloc, script) {
        Ok(trace) => trace,
        Err((_, fault)) => return Err(of_run(fault)),
    };
    match write(alloc, &trace, sink) {
        Ok(()) => Ok(()),
        Err(fault) => Err(AuditFault::Write(fault)),
    }
}

/// The fault that tells why a run has no trace.
fn of_run(fault: RunFault) -> AuditFault
    ensures { result ≡ fault_of_run fault }
{
    match fault {
        RunFault::Memory => AuditFault::Memory,
        RunFault::Thread => AuditFault::Check(CheckFault::Thread),
        RunFault::Call { line, fault } => AuditFault::Call { line, fault },
    }
}
