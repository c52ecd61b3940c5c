//! Random programs of tasks that threads run side by side, each with a recorder of its own. A task that was
//! created, suspended or detached lies in a pool with a note until a thread takes it up, be it the same or
//! another one.
ghost use Rattle.std.specs.Prelude.{◌≡◌, ◌<◌, All, IfOk};
ghost use Rattle.std.specs.Thread.{IsSync};
ghost use Rattle.credit_ledger.specs.Places.{ledger_id, seat_id};

use crate::recorders::pool::{Job, Phase, Pool, Room};
use crate::recorders::session::print_trace;
use anyhow::{Result, bail};
use bitflags::Flags;
use callbacks::{Recorder, TaskData, close_all};
use credit_ledger::{Seat, SharedLedger};
use ompt_events::{Status, SyncKind, TaskFlags};
use rand_core::utils::NextWord;
use rand_pcg::Pcg32;
use std::alloc::Global;
use std::marker::{Brand, PhantomData};
use std::sync::{Mutex, Wait};
use std::thread::{Threads, join, yield_now};

/// Some of the threads of a program: those with the numbers from `first` to below `end`.
#[derive(Clone, Copy)]
struct Plan {
    first: u8,
    end: u8,
    /// How many tasks the program has at most, the initial ones among them.
    tasks: usize,
    seed: u64,
    /// Whether a taskwait waits.
    waits: bool,
}

/// Runs a random program of at most so many tasks on so many threads, and prints the trace that their
/// recorders gather. Each taskwait waits, unless the program is hasty.
pub fn run<R: Threads + Wait + Sync + Print + AllocGlobal>(
    rt: &R,
    tasks: usize,
    threads: u8,
    seed: u64,
    is_hasty: bool,
) -> Result<()> {
    let (ledger, seat) = SharedLedger::new(rt.alloc())?;
    let plan = Plan {
        first: 0,
        end: threads,
        tasks,
        seed,
        waits: !is_hasty,
    };
    let recorders = recorded::<Brand, R>(rt, rt.alloc(), &ledger, seat, plan)?;
    match close_all(rt.alloc(), ledger, rt, recorders) {
        Ok(closed) => print_trace(rt, false, closed),
        Err((_ledger, _recorders, fault)) => bail!("{fault:?}"),
    }
}

/// The recorders after the program was run.
fn recorded<L: Room + Send + Sync, R: Threads + Wait + Sync>(
    rt: &R,
    alloc: Global,
    ledger: &SharedLedger,
    seat: Seat,
    plan: Plan,
) -> Result<Vec<Recorder>>
    requires seat { seat_id seat ≡ ledger_id ledger.now }
    requires room { L.ledger ≡ ledger_id ledger.now }
    ensures { IfOk result (λ recorders. All (λ r. r.ledger ≡ ledger_id ledger.now) recorders.items) }
{
    let pool: Mutex<Pool<L>> = Mutex::new(Pool::new(alloc, plan.end as usize, plan.waits)?);
    let shared = Shared {
        ledger,
        pool: &pool,
    };
    let mut done = all(rt, alloc, &shared, seat, plan)?;
    let mut recorders = Vec::new(alloc);
    'done: while let Some(Done { recorder, .. }) = done.pop() {
        recorders.push(recorder)?;
    }
    Ok(recorders)
}

/// What the threads share.
#[derive(Drop)]
struct Shared<'a, L: Room> {
    ledger: &'a SharedLedger,
    pool: &'a Mutex<Pool<L>>,
}

/// The recorders of these threads. Half of the threads are started by another one.
fn all<L: Room + Send + Sync, R: Threads + Wait + Sync>(
    rt: &R,
    alloc: Global,
    shared: &Shared<L>,
    seat: Seat,
    plan: Plan,
) -> Result<Vec<Done<L>>>
    requires seat { seat_id seat ≡ ledger_id shared.now.ledger.now }
    requires room { L.ledger ≡ ledger_id shared.now.ledger.now }
{
    let count = plan.end.saturating_sub(plan.first);
    if count <= 1 {
        let done = Worker::new(alloc, shared, seat, plan)?.work(rt, plan.tasks)?;
        return Ok(vec![in alloc; done]?);
    }
    let mut seat = seat;
    let other = shared.ledger.split(&mut seat);
    let middle = plan.first + count / 2;
    let first = Plan {
        end: middle,
        ..plan
    };
    let rest = Plan {
        first: middle,
        ..plan
    };
    let (low, high) = join(
        rt,
        || -> Result<Vec<Done<L>>>
            requires sync { IsSync R.row }
            requires seat { seat_id other ≡ ledger_id shared.now.ledger.now }
            requires room { L.ledger ≡ ledger_id shared.now.ledger.now }
        { all(rt, alloc, shared, other, first) },
        || -> Result<Vec<Done<L>>>
            requires sync { IsSync R.row }
            requires seat { seat_id seat ≡ ledger_id shared.now.ledger.now }
            requires room { L.ledger ≡ ledger_id shared.now.ledger.now }
        { all(rt, alloc, shared, seat, rest) },
    );
    let mut recorders = low?;
    recorders.append(&mut high?)?;
    Ok(recorders)
}

/// A recorder of the room's ledger, whose thread is done.
#[derive(Drop)]
struct Done<L: Room> {
    recorder: Recorder,
    of: PhantomData<L>,
    ghost of_the_room: { recorder.ledger ≡ L.ledger },
}

/// What a thread has to itself: its recorder, its initial task, which waits in a taskgroup for all that it
/// creates, and the numbers by which it chooses.
#[derive(Drop)]
struct Worker<'a, L: Room> {
    shared: &'a Shared<'a, L>,
    recorder: Recorder,
    root: TaskData,
    chance: Pcg32,
    ghost seated: { recorder.ledger ≡ ledger_id shared.now.ledger.now },
    ghost in_room: { recorder.ledger ≡ L.ledger },
}

impl<'a, L: Room> Worker<'a, L> {
    /// The worker of the first thread of the plan; its initial task begins.
    fn new(
        alloc: Global,
        shared: &'a Shared<'a, L>,
        seat: Seat,
        plan: Plan,
    ) -> Result<Worker<'a, L>>
        requires seat { seat_id seat ≡ ledger_id shared.now.ledger.now }
        requires room { L.ledger ≡ ledger_id shared.now.ledger.now }
    {
        let mut recorder = Recorder::new(alloc, plan.first, seat);
        let root = recorder.ompt_callback_implicit_task_begin(
            0,
            u64::from(plan.first),
            1,
            0,
            TaskFlags::INITIAL,
        )?;
        Ok(Worker {
            shared,
            recorder,
            root,
            chance: Pcg32::new(plan.seed, u64::from(plan.first)),
        })
    }

    /// Creates tasks in a taskgroup, and takes up tasks until all are complete. The recorder is left.
    fn work<R: Wait>(mut self, rt: &R, tasks: usize) -> Result<Done<L>> {
        self.begin(rt, tasks)?;
        self.take_up_all(rt, tasks)?;
        let Worker {
            shared,
            mut recorder,
            mut root,
            ..
        } = self;
        recorder.ompt_callback_sync_region_end(
            shared.ledger,
            rt,
            &mut root,
            SyncKind::Taskgroup,
            None,
        )?;
        match recorder.ompt_callback_implicit_task_end(root, 0) {
            Ok(()) => Ok(Done {
                recorder,
                of: PhantomData,
            }),
            Err((_root, fault)) => bail!("{fault:?}"),
        }
    }

    /// The initial task begins its taskgroup, and creates up to three tasks.
    fn begin<R: Wait>(&mut self, rt: &R, tasks: usize) -> Result<()> {
        self.recorder
            .ompt_callback_sync_region_begin(&mut self.root, SyncKind::Taskgroup, None)?;
        'children: for _ in 0..1 + self.choice(3) {
            let added = self.shared.pool.lock(rt).add(self.root.id(), tasks)?;
            if let Some(id) = added {
                let child = self
                    .recorder
                    .ompt_callback_task_create(&mut self.root, id, child_flags(), false)?;
                let left = self.choice(8);
                self.put(rt, child, Phase::Runs(left))?;
            }
        }
        Ok(())
    }

    /// Takes up tasks until all are complete.
    fn take_up_all<R: Wait>(&mut self, rt: &R, tasks: usize) -> Result<()> {
        'rounds: for _ in rt.forever() {
            let chosen = self.choice(u32::MAX);
            let taken = self.shared.pool.lock(rt).take(chosen);
            match taken {
                Some(job) => self.take_up(rt, job, tasks)?,
                None if self.shared.pool.lock(rt).is_over() => return Ok(()),
                None => yield_now(),
            }
        }
        Ok(())
    }

    /// Meets the note of a task, and goes on with the task.
    fn take_up<R: Wait>(&mut self, rt: &R, job: Job<L>, tasks: usize) -> Result<()> {
        let Job {
            mut task,
            note,
            phase,
            ..
        } = job;
        self.recorder.meet(self.shared.ledger, rt, note);
        match phase {
            Phase::Detached => self.fulfil(rt, task),
            Phase::Runs(left) => {
                self.start(rt, &mut task)?;
                self.go_on(rt, task, left, tasks)
            }
            Phase::Waits(left) => {
                self.start(rt, &mut task)?;
                self.end_wait(rt, &mut task)?;
                self.go_on(rt, task, left, tasks)
            }
        }
    }

    /// The initial task switches to the task.
    fn start<R: Wait>(&mut self, rt: &R, task: &mut TaskData) -> Result<()> {
        self.recorder.switch_to(self.shared.ledger, rt, &mut self.root, task, Status::Switch)?;
        Ok(())
    }

    /// The taskwait of the task ends.
    fn end_wait<R: Wait>(&mut self, rt: &R, task: &mut TaskData) -> Result<()> {
        self.recorder
            .ompt_callback_sync_region_end(self.shared.ledger, rt, task, SyncKind::Taskwait, None)?;
        Ok(())
    }

    /// The task runs so many steps at most: it creates tasks, yields, waits for them, or does nothing.
    fn go_on<R: Wait>(&mut self, rt: &R, task: TaskData, left: u32, tasks: usize) -> Result<()> {
        let mut task = task;
        'steps: for step in 0..left {
            let rest = left - step - 1;
            match self.choice(8) {
                0 => return self.pause(rt, task, Phase::Runs(rest), Status::Yield),
                1 => {
                    self.recorder
                        .ompt_callback_sync_region_begin(&mut task, SyncKind::Taskwait, None)?;
                    return self.pause(rt, task, Phase::Waits(rest), Status::Switch);
                }
                2..=4 => self.create(rt, &mut task, tasks)?,
                _ => {}
            }
        }
        self.finish(rt, task)
    }

    /// The task creates another one, unless there are so many already.
    fn create<R: Wait>(&mut self, rt: &R, task: &mut TaskData, tasks: usize) -> Result<()> {
        let added = self.shared.pool.lock(rt).add(task.id(), tasks)?;
        let Some(id) = added else {
            return Ok(());
        };
        let child = self
            .recorder
            .ompt_callback_task_create(task, id, child_flags(), false)?;
        let left = self.choice(8);
        self.put(rt, child, Phase::Runs(left))
    }

    /// The task is suspended for the initial one, and goes into the pool.
    fn pause<R: Wait>(
        &mut self,
        rt: &R,
        task: TaskData,
        phase: Phase,
        status: Status,
    ) -> Result<()> {
        let mut task = task;
        self.recorder
            .switch_to(self.shared.ledger, rt, &mut task, &mut self.root, status)?;
        self.put(rt, task, phase)
    }

    /// The body of the task is over: the task is complete, or waits for its event in the pool.
    fn finish<R: Wait>(&mut self, rt: &R, task: TaskData) -> Result<()> {
        let parent = task.parent();
        let status = match self.choice(4) {
            0 => Status::Detach,
            _ => Status::Complete,
        };
        match self
            .recorder
            .ompt_callback_task_schedule(
                self.shared.ledger,
                rt,
                task,
                status,
                Some(&mut self.root),
            ) {
            Ok(Some(event)) => self.put(rt, event, Phase::Detached),
            Ok(None) => self.end(rt, parent),
            Err((_task, fault)) => bail!("{fault:?}"),
        }
    }

    /// The event of a detached task is fulfilled, and the task is complete.
    fn fulfil<R: Wait>(&mut self, rt: &R, task: TaskData) -> Result<()> {
        let parent = task.parent();
        match self
            .recorder
            .ompt_callback_task_schedule(self.shared.ledger, rt, task, Status::LateFulfill, None)
        {
            Ok(_none) => self.end(rt, parent),
            Err((_task, fault)) => bail!("{fault:?}"),
        }
    }

    /// A task that this one created is complete.
    fn end<R: Wait>(&mut self, rt: &R, parent: Option<u64>) -> Result<()> {
        if let Some(parent) = parent {
            self.shared.pool.lock(rt).end(parent);
        }
        Ok(())
    }

    /// Puts a task into the pool, with a note.
    fn put<R: Wait>(&mut self, rt: &R, task: TaskData, phase: Phase) -> Result<()> {
        let note = self.recorder.note(self.shared.ledger);
        self.shared.pool.lock(rt).put(Job {
            task,
            note,
            phase,
            of: PhantomData,
        })
    }

    /// One of the numbers below the bound.
    fn choice(&mut self, bound: u32) -> u32
        requires { 0 < bound }
        ensures { result < bound }
    {
        let word: u32 = self.chance.next_word();
        word % bound
    }
}

/// The flags of a task that may go on on another thread.
fn child_flags() -> TaskFlags {
    TaskFlags::EXPLICIT.union(TaskFlags::UNTIED)
}
