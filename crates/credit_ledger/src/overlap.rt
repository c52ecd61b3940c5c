//! Whether two entries overlap, decided without allocation.
ghost use Rattle.std.specs.Prelude.{◌≡◌, length, slice_get};
ghost use Rattle.credit_ledger.specs.Shares.{begins_with, overlaps};
ghost use Rattle.credit_ledger.specs.Entries.{part_halves, tree_share, parent_and_number, overlaps_in_pool, is_overlap};
ghost use Rattle.credit_ledger.specs.Codes.{tree_runs, tree_last};

use crate::entry::Entry;
use ompt_events::Part;

/// Returns whether a share of one entry overlaps one of the other entry, of the same credit.
pub(crate) fn do_overlap(entry: &Entry, other: &Entry) -> bool
    ensures { result ≡ is_overlap entry.now other.now }
{
    entry.root == other.root
        && (do_overlap_in_tree(entry, other) || do_overlap_in_pool(entry, other))
}

/// Returns, for entries of one root, whether their shares of its credit overlap.
fn do_overlap_in_tree(entry: &Entry, other: &Entry) -> bool
    ensures { result ≡ overlaps (tree_share entry.now) (tree_share other.now) }
{
    begins(entry, other) || begins(other, entry)
}

/// Returns, for entries of one root, whether they are of the same task and its shares of its parent's pool
/// overlap.
fn do_overlap_in_pool(entry: &Entry, other: &Entry) -> bool
    ensures { result ≡ overlaps_in_pool (parent_and_number entry.now.path) entry.now.part
        (parent_and_number other.now.path) other.now.part }
{
    if entry.path.as_slice().is_empty() {
        return false;
    }
    let is_same = entry.path == other.path;
    if !is_same {
        return false;
    }
    do_parts_overlap(entry.part, other.part)
}

/// Returns whether the parts of a task have a half in common.
fn do_parts_overlap(part: Part, other: Part) -> bool
    ensures { result ≡ overlaps (part_halves part) (part_halves other) }
{
    match (part, other) {
        (Part::Body, Part::Event) => false,
        (Part::Event, Part::Body) => false,
        _ => true,
    }
}

/// Returns, for entries of one root, whether the first one's share of its credit begins with the other
/// one's.
fn begins(entry: &Entry, other: &Entry) -> bool
    ensures { result ≡ begins_with (tree_share entry.now) (tree_share other.now) }
{
    let count = count_runs(other);
    'runs: for index in 0..count {
        if run(entry, index) != run(other, index) {
            return false;
        }
    }
    last(other) <= run(entry, count).unwrap_or(last(entry))
}

/// Returns how many Give halves the entry's share of the root's credit has.
fn count_runs(entry: &Entry) -> usize
    ensures { result ≡ length (tree_runs entry.now.path entry.now.kept entry.now.part) }
{
    let depth = entry.path.as_slice().len();
    match entry.part {
        Part::Event => depth + 1,
        _ => depth,
    }
}

/// Returns how many Keep halves are before the Give half with this index, or `None` if there is no such
/// half.
fn run(entry: &Entry, index: usize) -> Option<u64>
    ensures { result ≡ slice_get (tree_runs entry.now.path entry.now.kept entry.now.part) index }
{
    let path = entry.path.as_slice();
    if let Some(number) = path.get(index) {
        return Some(u64::from(*number));
    }
    if index == path.len() && entry.part == Part::Event {
        return Some(u64::from(entry.kept));
    }
    None
}

/// Returns how many Keep halves are behind the last Give half.
fn last(entry: &Entry) -> u64
    ensures { result ≡ tree_last entry.now.kept entry.now.part }
{
    match entry.part {
        Part::Whole => u64::from(entry.kept),
        Part::Body => u64::from(entry.kept) + 1,
        Part::Event => 0,
    }
}
