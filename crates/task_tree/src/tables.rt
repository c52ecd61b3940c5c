//! The tables of a family, before it is known whether the records name only tasks with roots.
ghost use Rattle.std.specs.Prelude.{◌∷◌, [], IfOk, IfErr};
ghost use Rattle.ompt_events.specs.declared.cause.Cause.TheVariants.{CreatedTwice};
ghost use Rattle.ompt_events.specs.Faults.{IsFault};
ghost use Rattle.task_tree.specs.Tables.{AreTablesOf};

use crate::link_slot::LinkSlot;
use crate::links::Linked;
use crate::makers::{Made, find_made};
use crate::roots::find_roots;
use crate::rows::find_rows;
use crate::standing_slot::StandingSlot;
use crate::subjects::{Lookup, Subjects, find_subjects};
use index_tables::{Numbering, Rows};
use ompt_events::Fault;
use packed_trace::PackedTrace;
use std::alloc::Global;

/// The tasks and the parallel regions that the records make; by index of the task the place of the record
/// that makes it, the row of its children, its link to its parent and its root; and the tasks that each
/// record names.
#[derive(Drop)]
pub(crate) struct Tables {
    pub(crate) tasks: Numbering,
    pub(crate) places: Vec<u32>,
    pub(crate) regions: Numbering,
    pub(crate) named: Subjects,
    pub(crate) rows: Rows,
    pub(crate) links: Vec<LinkSlot>,
    pub(crate) roots: Vec<StandingSlot>,
}

/// Returns the tables of the trace's tasks. Fails with CreatedTwice if a task or a parallel region is made
/// twice, or when out of memory.
pub(crate) fn find_tables(alloc: Global, trace: &PackedTrace) -> Result<Tables, Fault>
    ensures tables { IfOk result (AreTablesOf trace.now.records) }
    ensures fault { IfErr result (IsFault trace.now.records (CreatedTwice ∷ [])) }
{
    let Made {
        tasks,
        places,
        regions,
    } = find_made(alloc, trace)?;
    let Lookup { named, linked } = find_subjects(alloc, trace, &tasks, &regions)?;
    let Linked { counts, links } = linked;
    let rows = find_rows(alloc, tasks.as_slice(), counts.as_slice(), links.as_slice())?;
    drop(counts);
    let roots = find_roots(alloc, trace, &tasks, &places, &links, &rows)?;
    Ok(Tables {
        tasks,
        places,
        regions,
        named,
        rows,
        links,
        roots,
    })
}
