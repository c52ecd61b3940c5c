//! A script and its steps.
ghost use Rattle.std.specs.Prelude.{◌≡◌, ◌+◌, ◌++◌, ◌∷◌, [], false, true, IfErr, IfSome, IsErr, OnOk, OnErr, is_some};
ghost use Rattle.ompt_events.specs.Limits.{max_records};
ghost use Rattle.scripts.specs.Scripts.{empty_script, may_follow, may_name, is_full, step_fault, step_of, IsScript, IsShortScript};

use crate::calls::{has_twice, is_call};
use crate::fault::ScriptFault;
use crate::lives::{Life, all_may_be_named, note};
use crate::tally::Tally;
use ompt_events::{Body, MAX_RECORDS, MAX_TASKS};
use std::alloc::Global;
use std::collections::BTreeMap;
use std::marker::Model;

/// One call of a script.
#[derive(Debug, Drop)]
pub struct Step {
    /// The line of the call; the header is line 1.
    pub line: u32,
    /// The thread that makes the call.
    pub thread: u8,
    /// A step that is taken before this one: its thread, and how many steps that thread has before it.
    pub after: Option<(u8, u32)>,
    /// The call, which has no claim and no turns.
    pub body: Body,
}

/// Calls in the order of their lines, each of which may follow those before it.
#[derive(Drop)]
pub struct Script {
    /// Whether regions may lie inside others in the trace of its run.
    nests: bool,
    steps: Vec<Step>,
    lives: BTreeMap<u64, Life>,
    tally: Tally,
}

impl Model for Script {
    ghost use Rattle.ompt_events.specs.Limits.{max_records};
    ghost use Rattle.scripts.specs.Scripts.{ScriptView};
    ghost use Rattle.scripts.specs.Keeping.{IsScriptKept};

    ghost Value = { ScriptView };

    ghost view = { λ script. record { nests = script.nests; capacity = max_records; steps = script.steps.items } };

    ghost invariant = { λ script. IsScriptKept script.steps.items script.lives script.tally };
}

impl Script {
    /// Returns a script without a step, whose run has a trace of version 2. Takes no memory.
    pub fn new(alloc: Global) -> Script
        ensures { result ≡ empty_script }
    {
        Script {
            nests: false,
            steps: Vec::new(alloc),
            lives: BTreeMap::new(alloc),
            tally: Tally::new(),
        }
    }

    /// Sets whether regions may lie inside others in the trace of its run, which is then of version 3. Takes no
    /// memory.
    pub fn set_nests(&mut self, nests: bool)
        ensures { self.new ≡ record self.old { nests = nests } }
    {
        self.nests = nests;
    }

    /// Returns whether regions may lie inside others in the trace of its run, which is then of version 3. Takes
    /// no memory.
    pub fn nests(&self) -> bool
        ensures { result ≡ self.now.nests }
    {
        self.nests
    }

    /// Returns the steps. Takes no memory.
    pub fn steps(&self) -> &[Step]
        ensures value { result.now ≡ self.now.steps }
        ensures is_script { IsScript result.now }
        ensures short { IsShortScript result.now }
        ensures capacity { self.now.capacity ≡ max_records }
    {
        self.steps.as_slice()
    }

    /// Returns whether a call may follow the steps. Takes no memory.
    pub fn may_follow(&self, after: Option<(u64, u64)>, body: &Body) -> bool
        ensures { result ≡ may_follow self.now.steps after body.now }
    {
        self.place_of(after, body).is_some()
    }

    /// Adds a call of the thread, on the next line. Fails with the call and the cause if the call may not
    /// follow the steps, the script is full, or out of memory; the script is then as it was.
    pub fn add(
        &mut self,
        thread: u8,
        after: Option<(u64, u64)>,
        body: Body,
    ) -> Result<(), (Body, ScriptFault)>
        ensures added { OnOk result (self.new ≡ record self.old {
          steps = self.old.steps ++ step_of self.old.steps thread after body ∷ [];
        }) }
        ensures unchanged { OnErr result (self.new ≡ self.old) }
        ensures returned { IfErr result (λ refusal. refusal.0 ≡ body) }
        ensures misplaced { may_follow self.old.steps after body ≡ false → IsErr result }
        ensures full { is_full self.old.steps body ≡ true → IsErr result }
        ensures fault { IfErr result (λ refusal. refusal.1 ≡ step_fault self.old.steps after body) }
    {
        let Some(after) = self.place_of(after, &body) else {
            return Err((body, ScriptFault::Misplaced));
        };
        if self.is_full(&body) {
            return Err((body, ScriptFault::Full));
        }
        if self.steps.reserve(1).is_err() || note(&mut self.lives, &body).is_err() {
            return Err((body, ScriptFault::Memory));
        }
        let step = Step {
            line: self.steps.len() as u32 + 2,
            thread,
            after,
            body,
        };
        self.tally.count(&step);
        self.steps.push_reserved(step);
        Ok(())
    }

    /// Returns the step that is taken before a call, or that none is named, if the call may follow the
    /// steps.
    fn place_of(&self, after: Option<(u64, u64)>, body: &Body) -> Option<Option<(u8, u32)>>
        ensures may { is_some result ≡ may_follow self.now.steps after body.now }
        ensures same { IfSome result (λ found. found ≡ after) }
    {
        if self.may_name(body) {
            self.tally.find(after)
        } else {
            None
        }
    }

    /// Returns whether a call has no claim and no turns, names no task twice, and may name each after the
    /// steps.
    fn may_name(&self, body: &Body) -> bool
        ensures { result ≡ may_name self.now.steps body.now }
    {
        let named = body.named();
        let tasks = named.as_slice();
        is_call(body) && !has_twice(tasks) && all_may_be_named(&self.lives, body.made(), tasks)
    }

    /// Returns whether the script has as many steps as it may, or the call makes a task and the script makes
    /// as many as it may.
    fn is_full(&self, body: &Body) -> bool
        ensures { result ≡ is_full self.now.steps body.now }
    {
        if self.steps.len() >= MAX_RECORDS {
            return true;
        }
        body.made().is_some() && self.tally.tasks() as usize >= MAX_TASKS
    }
}
