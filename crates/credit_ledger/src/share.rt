//! A share of a credit, as the list of halves that leads to it from the whole.
ghost use Rattle.std.specs.Prelude.{◌≡◌, ◌≤◌, ◌<◌, ◌*◌, ◌^◌, [], length, IfOk, IfErr, IsErr, IsTrue, IsOkUnless, if◌then◌else◌, reverse};
ghost use Rattle.credit_ledger.specs.Paths.{path_of};
ghost use Rattle.credit_ledger.specs.Shares.{begins_with, overlaps, is_too_deep, keep_half, give_half, start_share, finish_share};

use crate::credit_fault::CreditFault;
use std::alloc::{AllocError, Global};
use std::marker::Model;

/// One half of a share that was halved.
#[derive(Clone, Copy, Debug, PartialEq, Eq)]
pub enum Half {
    /// The half that the owner of the share keeps.
    Keep,
    /// The half that is given away.
    Give,
}

/// The most Give halves of a share.
const MOST_GIVES: usize = 1025;

/// The most halves of a share.
const MOST_HALVES: u64 = 1 << 48;

/// A share of a credit: the list of the halves taken, each of the one before, from the whole on (F.
/// Mattern, 1989).
///
/// The halves are stored as the lengths of runs of Keep halves. So each call takes as many steps as the
/// share has Give halves, however many Keep halves are between them.
#[derive(Debug, Drop)]
pub struct Share {
    /// How many Keep halves are before each Give half.
    runs: Vec<u64>,
    /// How many Keep halves are behind the last Give half.
    last: u64,
    /// How many halves there are in all.
    halves: u64,
}

impl Model for Share {
    ghost use Rattle.std.specs.Prelude.{◌≡◌, ◌≤◌, ◌^◌, List, length};
    ghost use Rattle.credit_ledger.specs.declared.share.Half.{Half};

    ghost Value = { List Half };

    ghost use Rattle.credit_ledger.specs.Shares.{finish_share};

    ghost view = { λ share. finish_share share.runs.items share.last };

    ghost invariant = { λ share.
        (length (finish_share share.runs.items share.last) ≡ share.halves) × (share.halves ≤ 2 ^ 48) };
}

impl Share {
    /// Returns the whole credit: the share with no halves. Allocates nothing.
    pub fn whole(alloc: Global) -> Share
        ensures { result ≡ [] }
    {
        Share {
            runs: Vec::new(alloc),
            last: 0,
            halves: 0,
        }
    }

    /// Returns the share that a task enters when it finishes, if it was never detached: for each number of
    /// `path` that many Keep halves and then a Give half, and at the end `kept` Keep halves. `path` is,
    /// from the root down, the number of each task among its parent's children, counted from 0; `kept` is
    /// how many children the task created. Requires that the path has at most 1,024 numbers. Fails only
    /// with `Memory`.
    pub fn of(alloc: Global, path: &[u32], kept: u32) -> Result<Share, CreditFault>
        requires { length path.now ≤ 1024 }
        ensures value { IfOk result (λ share. share ≡ finish_share path.now kept) }
        ensures memory_alone { IsOkUnless result CreditFault.Memory }
    {
        let runs = runs_of(alloc, path).map_err(|_| CreditFault::Memory)?;
        Ok(Share {
            runs,
            last: u64::from(kept),
            halves: count_halves(path) + u64::from(kept),
        })
    }

    /// Returns the share with these runs: for each of them that many Keep halves and then a Give half, and
    /// at the end `last` Keep halves. Requires at most 2^48 halves in all. Allocates nothing.
    pub fn of_runs(runs: Vec<u64>, last: u64) -> Share
        requires { length (finish_share runs.items last) ≤ 2 ^ 48 }
        ensures { result ≡ finish_share runs.items last }
    {
        let halves = count_run_halves(runs.as_slice()) + last;
        Share { runs, last, halves }
    }

    /// Returns whether the share begins with the other one. Each share begins with itself. Allocates
    /// nothing.
    pub fn starts_with(&self, other: &Share) -> bool
        ensures { result ≡ begins_with self.now other.now }
    {
        let run = self
            .runs
            .get(other.runs.len())
            .copied()
            .unwrap_or(self.last);
        self.runs.starts_with(other.runs.as_slice()) && other.last <= run
    }

    /// Returns the two halves of the share, first the one to keep and then the one to give away. Fails
    /// with `TooDeep` if the share has 1,025 Give halves or 2^48 halves in all, and otherwise only with
    /// `Memory`. If it fails, it returns the share.
    pub fn halve(self) -> Result<(Share, Share), (Share, CreditFault)>
        ensures halves { IfOk result (λ halves. (halves.0 ≡ keep_half self) × (halves.1 ≡ give_half self)) }
        ensures too_deep { IsTrue (is_too_deep self) → IsErr result }
        ensures returned { IfErr result (λ refusal. refusal.0 ≡ self) }
        ensures fault { IfErr result (λ refusal.
            refusal.1 ≡ (if is_too_deep self then CreditFault.TooDeep else CreditFault.Memory)) }
    {
        if self.is_too_deep() {
            return Err((self, CreditFault::TooDeep));
        }
        match self.given() {
            Ok(given) => Ok((self.into_kept(), given)),
            Err(_) => Err((self, CreditFault::Memory)),
        }
    }

    /// Returns whether one of the two shares begins with the other.
    pub(crate) fn overlaps(&self, other: &Share) -> bool
        ensures { result ≡ overlaps self.now other.now }
    {
        self.starts_with(other) || other.starts_with(self)
    }

    /// Returns how many Keep halves are before each Give half.
    pub(crate) fn runs(&self) -> &[u64]
        ensures path { reverse result.now ≡ (path_of self.now).0 }
        ensures small { length (start_share result.now) ≤ 2 ^ 48 }
    {
        self.runs.as_slice()
    }

    /// Returns how many Keep halves are behind the last Give half.
    pub(crate) fn last(&self) -> u64
        ensures { result ≡ (path_of self.now).1 }
    {
        self.last
    }

    /// Returns whether the share has too many halves to be halved again.
    fn is_too_deep(&self) -> bool
        ensures { result ≡ is_too_deep self.now }
    {
        self.runs.len() >= MOST_GIVES || self.halves >= MOST_HALVES
    }

    /// Returns the half of the share that is kept.
    fn into_kept(mut self) -> Share
        requires { length self < 2 ^ 48 }
        ensures { result ≡ keep_half self }
    {
        self.last += 1;
        self.halves += 1;
        self
    }

    /// Returns the half of the share that is given away. Fails only when out of memory.
    fn given(&self) -> Result<Share, AllocError>
        requires { length self.now < 2 ^ 48 }
        ensures { IfOk result (λ given. given ≡ give_half self.now) }
    {
        let mut runs = Vec::from_slice(*self.runs.allocator(), self.runs.as_slice())?;
        runs.push(self.last)?;
        Ok(Share {
            runs,
            last: 0,
            halves: self.halves + 1,
        })
    }
}

/// Returns the numbers of a path as the runs of a share. Fails only when out of memory.
fn runs_of(alloc: Global, path: &[u32]) -> Result<Vec<u64>, AllocError>
    ensures { IfOk result (λ runs. runs.items ≡ path.now) }
{
    let mut runs = Vec::new(alloc);
    for number in path {
        runs.push(u64::from(*number))?;
    }
    Ok(runs)
}

/// Returns how many halves the share with which a task with this path starts has. Requires at most 1,024
/// numbers.
fn count_halves(path: &[u32]) -> u64
    requires { length path.now ≤ 1024 }
    ensures count { result ≡ length (start_share path.now) }
    ensures bound { result ≤ length path.now * 2 ^ 32 }
{
    let mut halves = 0;
    for number in path {
        halves += u64::from(*number) + 1;
    }
    halves
}

/// Returns how many halves these runs have, each with its Give half. Requires at most 2^48.
fn count_run_halves(runs: &[u64]) -> u64
    requires { length (start_share runs.now) ≤ 2 ^ 48 }
    ensures { result ≡ length (start_share runs.now) }
{
    let mut halves = 0;
    for run in runs {
        halves += *run + 1;
    }
    halves
}
