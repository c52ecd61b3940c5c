//! The ledger of one thread.
ghost use Rattle.std.specs.Prelude.{◌≡◌, ◌≤◌, ◌<◌, ◌^◌, ◌++◌, ◌∷◌, [], ℕ, length, take, slice_get, IsTrue, ◌↔◌, IfOk, IfErr, OnOk, OnErr, IsErr, IsOkUnless};
ghost use Rattle.std.specs.List.{list_any};
ghost use Rattle.std.specs.Option.{option_copied};
ghost use Rattle.credit_ledger.specs.Trees.{is_by};
ghost use Rattle.credit_ledger.specs.Entries.{is_overlap, is_ledger_full, entry_fault, IsChildHeld, IsSpanHeld};
ghost use Rattle.credit_ledger.specs.Codes.{all_codes, start_code};

use crate::codes::{child_code, pool_code, second_code, tree_code};
use crate::entry::{Cover, Entry, Span};
use crate::fault::LedgerFault;
use crate::overlap::do_overlap;
use crate::{Purse, Share};
use ompt_events::Part;
use std::alloc::{AllocError, Global};
use std::marker::Model;

/// The most entries of a ledger.
const MOST_ENTRIES: usize = 1 << 22;

/// The entries of finished tasks, in the order in which they were entered.
///
/// One purse keeps two shares of each entry, those of each root and each pool apart from all others
/// (`specs/Codes.antt`). So the least count of shares at which the purse holds a share gives the least ledger
/// length at which it is held.
#[derive(Debug, Drop)]
pub struct Ledger {
    entries: Vec<Entry>,
    purse: Purse,
}

impl Model for Ledger {
    ghost use Rattle.std.specs.Prelude.{◌≡◌, ◌≤◌, ◌^◌, List, length};
    ghost use Rattle.credit_ledger.specs.declared.entry.Entry.{Entry};

    ghost Value = { List Entry };

    ghost use Rattle.credit_ledger.specs.Codes.{all_codes};

    ghost view = { λ ledger. ledger.entries.items };

    ghost invariant = { λ ledger.
        (ledger.purse ≡ all_codes ledger.entries.items) × (length ledger.entries.items ≤ 2 ^ 22) };
}

impl Ledger {
    /// Returns a ledger with no entry. Allocates nothing.
    pub fn new(alloc: Global) -> Ledger
        ensures { result ≡ [] }
    {
        Ledger {
            entries: Vec::new(alloc),
            purse: Purse::new(alloc),
        }
    }

    /// Returns how many entries there are, at most 2^22.
    pub fn len(&self) -> u32
        ensures { result ≡ length self.now }
    {
        self.entries.len() as u32
    }

    /// Returns the entry with this index, or `None` if there is none.
    pub fn entry(&self, index: u32) -> Option<&Entry>
        ensures { option_copied result ≡ slice_get self.now index }
    {
        self.entries.get(index as usize)
    }

    /// Adds an entry, and returns its index. Requires that the entry's path has at most 1,024 numbers.
    /// Fails with `Full` if the ledger has 2^22 entries; else with `Overlap` if a share of the entry
    /// overlaps one of another entry, of the same root's credit or of the pool of the same parent, with
    /// the least index of such an entry; and otherwise only with `Memory`. If it fails, it returns the
    /// entry, and the ledger is unchanged.
    pub fn enter(&mut self, entry: Entry) -> Result<u32, (Entry, LedgerFault)>
        requires { length entry.path ≤ 1024 }
        ensures index { IfOk result (λ index. index ≡ length self.old) }
        ensures entered { OnOk result (self.new ≡ self.old ++ entry ∷ []) }
        ensures unchanged { OnErr result (self.new ≡ self.old) }
        ensures full { IsTrue (is_ledger_full self.old) → IsErr result }
        ensures overlaps { IsTrue (list_any (is_overlap entry) self.old) → IsErr result }
        ensures returned { IfErr result (λ refusal. refusal.0 ≡ entry) }
        ensures fault { IfErr result (λ refusal. refusal.1 ≡ entry_fault self.old entry) }
    {
        if self.entries.len() >= MOST_ENTRIES {
            return Err((entry, LedgerFault::Full));
        }
        let index = self.entries.len() as u32;
        match add(&mut self.entries, &mut self.purse, entry) {
            Ok(()) => Ok(index),
            Err(entry) => {
                let fault = refusal(self.entries.as_slice(), &entry);
                Err((entry, fault))
            }
        }
    }

    /// Returns whether the first `upto` entries (all, if there are fewer) of the span's root hold each
    /// child of the span: in the tree for `Descendants`, in its parent's pool for `Children`. An empty
    /// span is held. Requires that the span's path has at most 1,024 numbers. Fails only with `Memory`. It
    /// stops at the first child that is not held.
    pub fn holds(&self, upto: u32, span: &Span, cover: Cover) -> Result<bool, LedgerFault>
        requires { length span.now.path ≤ 1024 }
        ensures held { IfOk result (λ held. IsTrue held ↔ IsSpanHeld (take upto self.now) span.now cover) }
        ensures memory_alone { IsOkUnless result LedgerFault.Memory }
    {
        'children: for number in span.from..span.to {
            let from = self.held_from(span.root, span.path.as_slice(), number, cover)?;
            if !is_held_by(from, upto) {
                return Ok(false);
            }
        }
        Ok(true)
    }

    /// Returns the least ledger length at which a child of a task is held, in the tree for `Descendants` and
    /// in its parent's pool for `Children`, or `None` if the entries do not hold it. Requires that the
    /// parent's path has at most 1,024 numbers. Fails only with `Memory`.
    pub fn held_from(
        &self,
        root: u64,
        parent: &[u32],
        number: u32,
        cover: Cover,
    ) -> Result<Option<u32>, LedgerFault>
        requires { length parent.now ≤ 1024 }
        ensures from { IfOk result (λ from.
            (upto : ℕ) → IsTrue (is_by from upto) ↔ IsChildHeld (take upto self.now) root parent.now number cover) }
        ensures memory_alone { IsOkUnless result LedgerFault.Memory }
    {
        let alloc = *self.entries.allocator();
        let Ok(code) = start_code(alloc, root, parent, number, cover) else {
            return Err(LedgerFault::Memory);
        };
        match self.purse.held_since(&code) {
            Some(shares) => Ok(Some(((shares + 1) / 2) as u32)),
            None => Ok(None),
        }
    }
}

/// Returns whether what is held at the least length `from`, if at any, is held at `upto`.
fn is_held_by(from: Option<u32>, upto: u32) -> bool
    ensures { result ≡ is_by from upto }
{
    from.is_some_and(|from| from <= upto)
}

/// Returns the share with which a child starts. Fails only when out of memory.
fn start_code(
    alloc: Global,
    root: u64,
    parent: &[u32],
    number: u32,
    cover: Cover,
) -> Result<Share, AllocError>
    requires { length parent.now ≤ 1024 }
    ensures { IfOk result (λ share. share ≡ start_code root parent.now number cover) }
{
    match cover {
        Cover::Children => pool_code(alloc, root, parent, number, Part::Whole),
        Cover::Descendants => child_code(alloc, root, parent, number),
    }
}

/// Returns why an entry was refused by a ledger that is not full.
fn refusal(entries: &[Entry], entry: &Entry) -> LedgerFault
    requires { length entries.now < 2 ^ 22 }
    ensures { result ≡ entry_fault entries.now entry.now }
{
    'entries: for index in 0..entries.len() {
        if do_overlap(entry, &entries[index]) {
            return LedgerFault::Overlap(index as u32);
        }
    }
    LedgerFault::Memory
}

/// Adds an entry with its shares, or returns it if that fails.
fn add(entries: &mut Vec<Entry>, purse: &mut Purse, entry: Entry) -> Result<(), Entry>
    requires depth { length entry.path ≤ 1024 }
    requires shares { purse.old ≡ all_codes entries.old.items }
    ensures shares { purse.new ≡ all_codes entries.new.items }
    ensures entered { OnOk result (entries.new.items ≡ entries.old.items ++ entry ∷ []) }
    ensures unchanged { OnErr result (entries.new.items ≡ entries.old.items) }
    ensures returned { IfErr result (λ back. back ≡ entry) }
    ensures overlaps { IsTrue (list_any (is_overlap entry) entries.old.items) → IsErr result }
{
    let alloc = *entries.allocator();
    let Ok(first) = tree_code(alloc, &entry) else {
        return Err(entry);
    };
    let Ok(second) = second_code(alloc, &entry) else {
        return Err(entry);
    };
    let Ok(()) = entries.reserve(1) else {
        return Err(entry);
    };
    let Ok(()) = purse.enter_both(first, second) else {
        return Err(entry);
    };
    let _ = entries.push(entry);
    Ok(())
}
