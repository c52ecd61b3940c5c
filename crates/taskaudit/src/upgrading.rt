//! The upgrade of a trace file.
ghost use Rattle.std.specs.Prelude.{◌≡◌, ◌≤◌, length, IfErr, OnOk};
ghost use Rattle.ompt_events.specs.Limits.{max_records};
ghost use Rattle.certificate.specs.Upgrading.{IsRefusal};
ghost use Rattle.taskaudit.specs.Audits.{IsReadRightly};
ghost use Rattle.taskaudit.specs.Devices.{TellsDevices};
ghost use Rattle.taskaudit.specs.Upgradings.{LeavesUpgrade, Upgrades, fault_of_upgrade, version_to};

use crate::work::AuditFault;
use certificate::{Sink, Source, UpgradeFault, read, upgrade_to, write};
use ompt_events::Record;
use std::alloc::Global;

/// The version that an upgrade writes where none is given.
const DEFAULT_VERSION: u32 = 2;

/// Returns the version that an upgrade writes at least.
pub fn version_to(given: Option<u32>) -> u32
    ensures { result ≡ version_to given }
{
    given.unwrap_or(DEFAULT_VERSION)
}

/// Reads a trace file to its end and writes its trace in this version, 2 or 3. A trace of this version, or of a
/// newer one, is written as it was read.
pub fn upgrade<I: Source, O: Sink>(
    alloc: Global,
    version: u32,
    source: &mut I,
    sink: &mut O,
) -> Result<(), AuditFault>
    requires { (2 ≤ version) × (version ≤ 3) }
    ensures upgrades { OnOk result
        (Upgrades version (I.remaining source.old) (O.contents sink.old) (O.contents sink.new)) }
    ensures leaves { IfErr result
        (LeavesUpgrade version (I.remaining source.old) (O.contents sink.old) (O.contents sink.new)) }
    ensures unreadable { IfErr result (IsReadRightly (I.remaining source.old) (I.remaining source.new)) }

    // A fault of the source or of the sink is told exactly where it occurs.
    ensures devices { TellsDevices result
        (record { turns = I.agains source.old; breaks = I.breaks source.old })
        (record { turns = I.agains source.new; breaks = I.breaks source.new })
        (record { turns = O.stalls sink.old; breaks = O.breaks sink.old })
        (record { turns = O.stalls sink.new; breaks = O.breaks sink.new }) }
{
    let trace = read(alloc, source).map_err(AuditFault::Read)?;
    let upgraded = match upgrade_to(alloc, version, trace) {
        Ok(upgraded) => upgraded,
        Err(refusal) => {
            let (refused, fault) = refusal;
            return Err(of_upgrade(refused.records(), fault));
        }
    };
    match write(alloc, &upgraded, sink) {
        Ok(()) => Ok(()),
        Err(fault) => Err(AuditFault::Write(fault)),
    }
}

/// The fault that tells why the records are not upgraded. The file's line 1 is the header.
fn of_upgrade(records: &[Record], fault: UpgradeFault) -> AuditFault
    requires few { length records.now ≤ max_records }
    requires refused { IsRefusal records.now fault }
    ensures { result ≡ fault_of_upgrade fault }
{
    match fault {
        UpgradeFault::Memory => AuditFault::Memory,
        UpgradeFault::Moved(at) => AuditFault::Upgrade {
            line: at as u32 + 2,
            fault,
        },
    }
}
