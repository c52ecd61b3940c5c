//! Which causes the trace of a run does not have. These are laws about the definitions alone, proved for every
//! script. The functions do nothing.
ghost use Rattle.std.specs.Prelude.{◌≡◌, ℕ};
ghost use Rattle.ompt_events.specs.Traces.{TraceView};
ghost use Rattle.ompt_events.specs.declared.cause.Cause.TheVariants.{NotCurrent, TurnGap, StatusOrder, RegionOrder, ShareWrong};
ghost use Rattle.ompt_events.specs.Causes.{ShowsNowhere};
ghost use Rattle.scripts.specs.Scripts.{ScriptView, IsScript};
ghost use Rattle.scripts.specs.Runs.{IsRunOf};

/// The trace of a run shows none of these causes, whatever the timing of its threads. Each record of a task is
/// made by the thread that runs the task (`current`). A task begins each of its turns once, one after another,
/// and records give the turns that their tasks are in (`gapless`). Each task moves as its states allow
/// (`ordered`). A region ends only where the innermost open one of its task is of its kind, and no explicit task
/// has a barrier (`closed`). A record that finishes a task claims the task's path below its root, and as many
/// children as the task has created (`claimed`).
pub fn runs_show_no_cause_of_tasks()
    ensures current { (script : ScriptView) (trace : TraceView) → IsScript script.steps → IsRunOf script trace
        → ShowsNowhere trace.records NotCurrent }
    ensures gapless { (script : ScriptView) (trace : TraceView) → IsScript script.steps → IsRunOf script trace
        → ShowsNowhere trace.records TurnGap }
    ensures ordered { (script : ScriptView) (trace : TraceView) → IsScript script.steps → IsRunOf script trace
        → ShowsNowhere trace.records StatusOrder }
    ensures closed { (script : ScriptView) (trace : TraceView) → IsScript script.steps → IsRunOf script trace
        → ShowsNowhere trace.records RegionOrder }
    ensures claimed { (script : ScriptView) (trace : TraceView) → IsScript script.steps → IsRunOf script trace
        → ShowsNowhere trace.records ShareWrong }
{}
