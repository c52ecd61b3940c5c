//! The path of a claimed task below its root. Contracts see it as a list of numbers.
ghost use Rattle.std.specs.Prelude.{◌≡◌, ◌<◌, ◌^◌, ◌++◌, ◌∷◌, [], All, IfOk, IfSome, OnOk, Some, length, slice_get};

use crate::path::Path;
use arrayvec::ArrayVec;
use std::alloc::{AllocError, Global};
use std::marker::Model;

/// The path of a claimed task below its root: the numbers of the children, from the root down. Up to 23
/// numbers below 256 are kept in place, so that most claims need no list of their own.
#[derive(Debug, Drop)]
pub struct ClaimPath {
    numbers: Numbers,
}

/// Where the numbers are kept.
#[derive(Debug, Drop)]
enum Numbers {
    /// In place: few numbers, each of them small.
    Few(ArrayVec<u8, 23>),
    /// In a list of their own.
    Many(Vec<u32>),
}

impl Model for ClaimPath {
    ghost use Rattle.std.specs.Prelude.{List, ℕ, ◌<◌, ◌^◌, All};

    ghost Value = { List ℕ };

    ghost use Rattle.ompt_events.specs.ClaimPath.{numbers_kept};

    ghost view = { λ path. numbers_kept path.numbers };

    ghost invariant = { λ path. All (λ n. n < 2 ^ 32) (numbers_kept path.numbers) };
}

impl PartialEq for ClaimPath {
    ghost use Rattle.std.specs.Cmp.Lexicographic.{nat_list_eq_equiv, pointwise};
    ghost use Rattle.std.specs.Cmp as Cmp;
    ghost use Rattle.std.specs.Prelude.{nat_eq};

    ghost eq = { pointwise nat_eq };

    ghost laws = { Cmp.partial_equiv_from_equiv nat_list_eq_equiv };

    fn eq(&self, other: &Self) -> bool {
        if self.len() != other.len() {
            return false;
        }
        'numbers: for at in 0..self.len() {
            if self.number(at) != other.number(at) {
                return false;
            }
        }
        true
    }
}

impl ClaimPath {
    /// Returns the path of a root, which has no numbers. Takes no memory.
    pub fn new() -> ClaimPath
        ensures { result ≡ [] }
    {
        ClaimPath {
            numbers: Numbers::Few(ArrayVec::new()),
        }
    }

    /// Appends the number of a child. Takes memory where the number is not small, or where the path has no
    /// room in place; fails only when out of memory.
    #[inline]
    pub fn push(&mut self, alloc: Global, number: u32) -> Result<(), AllocError>
        ensures { OnOk result (self.new ≡ self.old ++ number ∷ []) }
    {
        match &mut self.numbers {
            Numbers::Few(few) => match small(number) {
                Some(byte) if !few.is_full() => few.push(byte),
                _ => self.numbers = Numbers::Many(listed(alloc, few.as_slice(), number)?),
            },
            Numbers::Many(many) => many.push(number)?,
        }
        Ok(())
    }

    /// Returns how many numbers the path has: how deep below its root the task is.
    #[inline]
    pub fn len(&self) -> usize
        ensures { result ≡ length self.now }
    {
        match &self.numbers {
            Numbers::Few(few) => few.len(),
            Numbers::Many(many) => many.len(),
        }
    }

    /// Returns the number at this place, counted from the root down.
    #[inline]
    pub fn number(&self, at: usize) -> u32
        requires { at < length self.now }
        ensures { slice_get self.now at ≡ Some result }
    {
        match &self.numbers {
            Numbers::Few(few) => u32::from(few.as_slice()[at]),
            Numbers::Many(many) => many.as_slice()[at],
        }
    }

    /// Returns the path as a list. Fails only when out of memory.
    pub fn to_path(&self, alloc: Global) -> Result<Path, AllocError>
        ensures { IfOk result (λ path. path ≡ self.now) }
    {
        let mut numbers = Vec::with_capacity(alloc, self.len())?;
        'numbers: for at in 0..self.len() {
            numbers.push(self.number(at))?;
        }
        Ok(Path::from_vec(numbers))
    }

    /// Returns a copy of the path. Fails only when out of memory.
    pub fn copied(&self, alloc: Global) -> Result<ClaimPath, AllocError>
        ensures { IfOk result (λ copy. copy ≡ self.now) }
    {
        self.with_room(alloc, 0)
    }

    /// Returns the path of a child, from its number and the path of its parent. Fails only when out of
    /// memory.
    pub fn child(&self, alloc: Global, number: u32) -> Result<ClaimPath, AllocError>
        ensures { IfOk result (λ path. path ≡ self.now ++ number ∷ []) }
    {
        let mut path = self.with_room(alloc, 1)?;
        path.push(alloc, number)?;
        Ok(path)
    }

    /// Ensures that each is a number of 32 bits. Compiles to nothing.
    pub(crate) fn read_numbers(&self)
        ensures { All (λ n. n < 2 ^ 32) self.now }
    {
        let _numbers = &self.numbers;
    }

    /// Returns a copy of the path. If it has a list of its own, that has room for so many numbers more.
    fn with_room(&self, alloc: Global, more: usize) -> Result<ClaimPath, AllocError>
        ensures { IfOk result (λ copy. copy ≡ self.now) }
    {
        let numbers = match &self.numbers {
            Numbers::Few(few) => Numbers::Few(same_few(few)),
            Numbers::Many(many) => Numbers::Many(same_many(alloc, many.as_slice(), more)?),
        };
        Ok(ClaimPath { numbers })
    }
}

/// Returns the number as one below 256, if it is one.
#[inline]
fn small(number: u32) -> Option<u8>
    ensures { IfSome result (λ byte. byte ≡ number) }
{
    u8::try_from(number).ok()
}

/// Returns the list of these small numbers and then this one.
#[inline(never)]
fn listed(alloc: Global, few: &[u8], number: u32) -> Result<Vec<u32>, AllocError>
    ensures { IfOk result (λ many. many.items ≡ few.now ++ number ∷ []) }
{
    let mut many = Vec::with_capacity(alloc, few.len().saturating_add(1))?;
    'few: for byte in few {
        many.push(u32::from(*byte))?;
    }
    many.push(number)?;
    Ok(many)
}

/// Returns a copy of the numbers that are kept in place.
fn same_few(few: &ArrayVec<u8, 23>) -> ArrayVec<u8, 23>
    ensures { result ≡ few.now }
{
    let mut copy = ArrayVec::new();
    match copy.try_extend_from_slice(few.as_slice()) {
        Ok(()) => copy,
        Err(_) => unreachable!(),
    }
}

/// Returns a copy of the list, with room for so many numbers more.
fn same_many(alloc: Global, many: &[u32], more: usize) -> Result<Vec<u32>, AllocError>
    ensures { IfOk result (λ copy. copy.items ≡ many.now) }
{
    let mut copy = Vec::with_capacity(alloc, many.len().saturating_add(more))?;
    copy.extend_from_slice(many)?;
    Ok(copy)
}
