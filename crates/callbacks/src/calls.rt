//! The calls that do not use the ledger: none of them waits for another thread.
//!
//! Each call appends one record, or fails and changes nothing. It fails with `WrongState` if it may not
//! come here, with `Full` if the thread has 2^22 records, and with `Memory` when out of memory.
ghost use Rattle.std.specs.Prelude.{◌≡◌, ◌∷◌, [], None, Some, true, false, length, nat_lt, IfOk, IfErr, OnOk, OnErr, IsErr, IsSome, IfSome};
ghost use Rattle.ompt_events.specs.declared.records.Body.TheVariants.{ThreadBegin, ThreadEnd, ParallelBegin, ParallelEnd, ImplicitTask, TaskCreate, Dependences, Cancel};
ghost use Rattle.ompt_events.specs.declared.names.Endpoint.TheVariants.{Begin};
ghost use Rattle.ompt_events.specs.Flags.{task_flags, are_named};
ghost use Rattle.ompt_events.specs.Records.{dependences, finish};
ghost use Rattle.ompt_events.specs.Traces.{IsSoundIn};
ghost use Rattle.credit_ledger.specs.Credits.{shared_halves, whole_credit};
ghost use Rattle.callbacks.specs.Tasks.{is_root_on, end_of_root, is_deep, is_crowded, root_of, child_of, with_child, credit_of, may_create};
ghost use Rattle.callbacks.specs.Calls.{call_fault, may_cancel};
ghost use Rattle.callbacks.specs.Recorders.{recorded_alone, uses_ledger, may_fork, refusal_at};

use crate::fault::CallFault;
use crate::recording::Recorder;
use crate::task::{TaskData, TeamPlace};
use bitflags::Flags;
use ompt_events::{Body, CancelFlags, Dep, Deps, Endpoint, MAX_DEPENDENCES, TaskFlags, ThreadKind};

impl Recorder {
    /// Records that a thread begins (OpenMP 5.2, 19.5.2.1).
    pub fn ompt_callback_thread_begin(&mut self, kind: ThreadKind) -> Result<(), CallFault>
        ensures made { OnOk result (self.new ≡ recorded_alone self.old (ThreadBegin kind)) }
        ensures unchanged { OnErr result (self.new ≡ self.old) }
        ensures refused { IsSome (refusal_at self.old true false false (ThreadBegin kind)) → IsErr result }
        ensures fault { IfErr result (λ fault. fault
            ≡ call_fault (refusal_at self.old true false false (ThreadBegin kind))) }
    {
        self.record(true, Body::ThreadBegin { kind })
    }

    /// Records that a thread ends (19.5.2.2).
    pub fn ompt_callback_thread_end(&mut self) -> Result<(), CallFault>
        ensures made { OnOk result (self.new ≡ recorded_alone self.old ThreadEnd) }
        ensures unchanged { OnErr result (self.new ≡ self.old) }
        ensures refused { IsSome (refusal_at self.old true false false ThreadEnd) → IsErr result }
        ensures fault { IfErr result (λ fault. fault
            ≡ call_fault (refusal_at self.old true false false ThreadEnd)) }
    {
        self.record(true, Body::ThreadEnd)
    }

    /// Records that the task begins a parallel region, for which it requests this many threads (19.5.2.3).
    /// The task must run; in a trace of version 2 it must also be the thread's initial task.
    pub fn ompt_callback_parallel_begin(
        &mut self,
        task: &TaskData,
        parallel: u64,
        requested: u32,
    ) -> Result<(), CallFault>
        ensures made { OnOk result (self.new ≡ recorded_alone self.old
            (ParallelBegin requested task.now.id parallel)) }
        ensures unchanged { OnErr result (self.new ≡ self.old) }
        ensures refused { IsSome (refusal_at self.old (may_fork self.old task.now) false false
            (ParallelBegin requested task.now.id parallel)) → IsErr result }
        ensures fault { IfErr result (λ fault. fault
            ≡ call_fault (refusal_at self.old (may_fork self.old task.now) false false
            (ParallelBegin requested task.now.id parallel))) }
    {
        let body = Body::ParallelBegin {
            requested,
            task: task.id(),
            parallel,
        };
        let may = self.may_fork(task);
        self.record(may, body)
    }

    /// Records that the task, which must run, ends a parallel region (19.5.2.4).
    pub fn ompt_callback_parallel_end(
        &mut self,
        task: &TaskData,
        parallel: u64,
    ) -> Result<(), CallFault>
        ensures made { OnOk result (self.new ≡ recorded_alone self.old (ParallelEnd task.now.id parallel)) }
        ensures unchanged { OnErr result (self.new ≡ self.old) }
        ensures refused { IsSome (refusal_at self.old true false false (ParallelEnd task.now.id parallel))
            → IsErr result }
        ensures fault { IfErr result (λ fault. fault ≡ call_fault (refusal_at self.old true false false
            (ParallelEnd task.now.id parallel))) }
    {
        let body = Body::ParallelEnd {
            task: task.id(),
            parallel,
        };
        self.record(true, body)
    }

    /// Records that an initial or implicit task begins, and runs (19.5.2.11), and returns its value. With
    /// the flag `initial` it is an initial task, a team of one. Without that flag it is the member `index`
    /// of the team of `parallel`, which has `actual` members.
    pub fn ompt_callback_implicit_task_begin(
        &mut self,
        parallel: u64,
        id: u64,
        actual: u32,
        index: u32,
        flags: TaskFlags,
    ) -> Result<TaskData, CallFault>
        ensures made { OnOk result (self.new ≡ recorded_alone self.old
            (ImplicitTask Begin actual index flags parallel id)) }
        ensures task { IfOk result (λ task. task
            ≡ root_of id (record { home = self.old.thread; actual = actual; index = index }) flags) }
        ensures credit { IfOk result (λ task. credit_of task ≡ whole_credit id) }
        ensures unchanged { OnErr result (self.new ≡ self.old) }
        ensures refused { IsSome (refusal_at self.old (are_named task_flags flags.0) false false
            (ImplicitTask Begin actual index flags parallel id)) → IsErr result }
        ensures fault { IfErr result (λ fault. fault
            ≡ call_fault (refusal_at self.old (are_named task_flags flags.0) false false
            (ImplicitTask Begin actual index flags parallel id))) }
    {
        let body = Body::ImplicitTask {
            endpoint: Endpoint::Begin,
            actual,
            index,
            flags,
            parallel,
            task: id,
        };
        let place = TeamPlace {
            home: self.thread(),
            actual,
            index,
        };
        self.record(flags.are_named(), body)?;
        Ok(TaskData::root(self.allocator(), id, place, flags))
    }

    /// Records that an initial or implicit task ends (19.5.2.11). It must be the innermost open one of its
    /// thread, and run. The record has the flags and the place in the team with which it began. If the call
    /// fails, it returns the task.
    pub fn ompt_callback_implicit_task_end(
        &mut self,
        task: TaskData,
        parallel: u64,
    ) -> Result<(), (TaskData, CallFault)>
        ensures made { OnOk result (self.new ≡ recorded_alone self.old (end_of_root task parallel)) }
        ensures unchanged { OnErr result (self.new ≡ self.old) }
        ensures returned { IfErr result (λ refused. refused.0 ≡ task) }
        ensures refused { IsSome (refusal_at self.old (is_root_on self.old.thread task) false false
            (end_of_root task parallel)) → IsErr result }
        ensures fault { IfErr result (λ refused. refused.1 ≡ call_fault (refusal_at self.old
            (is_root_on self.old.thread task) false false (end_of_root task parallel))) }
    {
        let may = task.is_root_on(self.thread());
        match self.record(may, task.end_of_root(parallel)) {
            Ok(()) => Ok(()),
            Err(fault) => Err((task, fault)),
        }
    }

    /// Records that the task, which must run also by its value, creates an explicit task (19.5.2.7), and
    /// returns the child's value. With `deps` the child's dependences must be the next record. The creator keeps one half of
    /// its credit, and the child starts with the other. Also fails with `TooDeep` if the task's path has
    /// 1,024 numbers, and with `Full` if it has 2^32 - 1 children.
    pub fn ompt_callback_task_create(
        &mut self,
        task: &mut TaskData,
        id: u64,
        flags: TaskFlags,
        deps: bool,
    ) -> Result<TaskData, CallFault>
        ensures made { OnOk result (self.new ≡ recorded_alone self.old (TaskCreate deps flags task.old.id id)) }
        ensures child { IfOk result (λ child. child ≡ child_of task.old id flags) }
        ensures task { OnOk result (task.new ≡ with_child task.old) }
        ensures credit { IfOk result (λ child.
            shared_halves id (credit_of task.old) ≡ credit_of task.new ∷ credit_of child ∷ []) }
        ensures unchanged { OnErr result (self.new ≡ self.old) }
        ensures same_task { OnErr result (task.new ≡ task.old) }
        ensures refused { IsSome (refusal_at self.old (may_create task.old flags) (is_deep task.old)
            (is_crowded task.old) (TaskCreate deps flags task.old.id id)) → IsErr result }
        ensures fault { IfErr result (λ fault. fault
            ≡ call_fault (refusal_at self.old (may_create task.old flags)
            (is_deep task.old) (is_crowded task.old) (TaskCreate deps flags task.old.id id))) }
    {
        let body = Body::TaskCreate {
            deps,
            flags,
            task: task.id(),
            child: id,
        };
        let may = flags.are_named() && task.is_running();
        self.test(may, task.is_deep(), task.is_crowded(), &body)?;
        let Ok(child) = task.child(id, flags) else {
            return Err(CallFault::Memory);
        };
        let Ok(()) = self.append(body) else {
            return Err(CallFault::Memory);
        };
        task.count_child();
        Ok(child)
    }

    /// Records the dependences of the task that was created last (19.5.2.8). Fails with `Full` for more
    /// than 64. If the call fails, it returns them, and they are still awaited.
    pub fn ompt_callback_dependences(
        &mut self,
        task: &TaskData,
        list: Vec<Dep>,
    ) -> Result<(), (Vec<Dep>, CallFault)>
        ensures made { OnOk result (self.new ≡ recorded_alone self.old (Dependences task.now.id list.items)) }
        ensures unchanged { OnErr result (self.new ≡ self.old) }
        ensures returned { IfErr result (λ refused. refused.0.items ≡ list.items) }
        ensures refused { IsSome (refusal_at self.old true false (nat_lt 64 (length list.items))
            (Dependences task.now.id list.items)) → IsErr result }
        ensures fault { IfErr result (λ refused. refused.1 ≡ call_fault (refusal_at self.old true false
            (nat_lt 64 (length list.items)) (Dependences task.now.id list.items))) }
    {
        let is_long = list.len() > MAX_DEPENDENCES;
        let body = Body::Dependences {
            task: task.id(),
            list: Deps::from_vec(list),
        };
        if let Err(fault) = self.test(true, false, is_long, &body) {
            return Err((list_of(body), fault));
        }
        match self.append(body) {
            Ok(()) => Ok(()),
            Err(body) => Err((list_of(body), CallFault::Memory)),
        }
    }

    /// Records that the task, which must run, cancels a region or sees one cancelled (19.5.2.18). A
    /// discarded task is recorded by [`Recorder::ompt_callback_cancel_discarded`].
    pub fn ompt_callback_cancel(
        &mut self,
        task: &TaskData,
        flags: CancelFlags,
    ) -> Result<(), CallFault>
        ensures made { OnOk result (self.new ≡ recorded_alone self.old (Cancel flags task.now.id None)) }
        ensures unchanged { OnErr result (self.new ≡ self.old) }
        ensures refused { IsSome (refusal_at self.old (may_cancel flags.0) false false
            (Cancel flags task.now.id None))
            → IsErr result }
        ensures fault { IfErr result (λ fault. fault
            ≡ call_fault (refusal_at self.old (may_cancel flags.0) false false
            (Cancel flags task.now.id None))) }
    {
        let body = Body::Cancel {
            flags,
            task: task.id(),
            claim: None,
        };
        self.record(may_cancel(flags), body)
    }
}

impl Recorder {
    /// Adds a record of a call that does not use the ledger. `may` is whether the call's tasks and flags
    /// allow it.
    fn record(&mut self, may: bool, body: Body) -> Result<(), CallFault>
        requires sound { may ≡ true → IsSoundIn 2 body }
        requires unfinished { may ≡ true → finish body ≡ None }
        requires alone { uses_ledger body ≡ false }
        ensures may { OnOk result (may ≡ true) }
        ensures made { OnOk result (self.new ≡ recorded_alone self.old body) }
        ensures unchanged { OnErr result (self.new ≡ self.old) }
        ensures refused { IsSome (refusal_at self.old may false false body) → IsErr result }
        ensures fault { IfErr result (λ fault. fault ≡ call_fault (refusal_at self.old may false false body)) }
    {
        self.test(may, false, false, &body)?;
        match self.append(body) {
            Ok(()) => Ok(()),
            Err(_) => Err(CallFault::Memory),
        }
    }
}

/// Returns whether each bit of a cancellation's flags has a name, and none is that of a discarded task.
fn may_cancel(flags: CancelFlags) -> bool
    ensures { result ≡ may_cancel flags.0 }
{
    flags.are_named() && !flags.contains(CancelFlags::DISCARDED_TASK)
}

/// Returns the dependences that the record lists.
fn list_of(body: Body) -> Vec<Dep>
    requires { IsSome (dependences body) }
    ensures { IfSome (dependences body) (λ d. result.items ≡ d.1) }
{
    match body {
        Body::Dependences { list, .. } => list.into_vec(),
        _ => unreachable!(),
    }
}
