//! Gates for tests, which count how often each worker comes to them.
ghost use Rattle.std.specs.Prelude.{⊤};

use anyhow::{Result, bail};
use checker::Gate;
use std::alloc::Global;
use std::sync::atomic::{AtomicU64, Ordering};
use std::thread::sleep;
use std::time::{Clock, Duration};

/// For how many turns a worker is held at most, each of them a sleep of one millisecond.
const TURNS: u32 = 10_000;

/// Which workers a gate lets pass.
#[derive(Drop)]
enum Rule {
    /// Each worker.
    Open,
    /// The workers 0 and 1, each of them once the other one has come. After too many turns it refuses.
    Both,
    /// All but these.
    Refuse(Vec<u32>),
}

/// A gate, with how often each worker came to it.
#[derive(Drop)]
pub struct CountingGate<'a, C: Clock> {
    clock: &'a C,
    rule: Rule,
    passes: Vec<AtomicU64>,
}

impl<'a, C: Clock> CountingGate<'a, C> {
    /// Returns the gate of this name for so many workers: `open`, `both`, or `refuse` with the numbers of
    /// workers, between which commas stand. Fails where there is no such gate.
    pub fn new(
        alloc: Global,
        clock: &'a C,
        workers: u32,
        name: &str,
        refused: &str,
    ) -> Result<CountingGate<'a, C>> {
        let rule = match name {
            "open" => Rule::Open,
            "both" => Rule::Both,
            "refuse" => Rule::Refuse(numbers(alloc, refused)?),
            _ => bail!("the gate must be open, both or refuse"),
        };
        let mut passes = Vec::new(alloc);
        for _ in 0..workers {
            passes.push(AtomicU64::new(0))?;
        }
        Ok(CountingGate {
            clock,
            rule,
            passes,
        })
    }

    /// Returns how often the worker with this number came; 0 where there is none.
    pub fn passes_of(&self, worker: u32) -> u64 {
        match self.passes.get(worker as usize) {
            Some(passes) => passes.load(Ordering::SeqCst),
            None => 0,
        }
    }

    /// Waits until this worker has come; says whether it did.
    fn wait_for(&self, worker: u32) -> bool {
        for _ in 0..TURNS {
            if self.passes_of(worker) > 0 {
                return true;
            }
            sleep(self.clock, Duration::from_millis(1));
        }
        false
    }
}

impl<C: Clock> Gate for CountingGate<'_, C> {
    ghost may_refuse = { λ gate worker. ⊤ };

    ghost passed = { λ gate worker. ⊤ };

    fn pass(&self, worker: u32) -> bool {
        if let Some(passes) = self.passes.get(worker as usize) {
            passes.fetch_add(1, Ordering::SeqCst);
        }
        match &self.rule {
            Rule::Open => true,
            Rule::Both => worker > 1 || self.wait_for(1 - worker),
            Rule::Refuse(refused) => !refused.contains(&worker),
        }
    }
}

/// Returns the numbers between which commas stand.
fn numbers(alloc: Global, text: &str) -> Result<Vec<u32>> {
    let mut numbers = Vec::new(alloc);
    for word in text.split(',') {
        numbers.push(word.parse()?)?;
    }
    Ok(numbers)
}
