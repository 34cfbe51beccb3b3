//! The trait `Join`, and values that implement it: a set of texts, and a map of such values.
#![tactic(auto)]

mod join_map;
pub mod laws;
pub mod prefix;
mod text_set;
mod walk;

ghost use Rattle.std.specs.Prelude.{◌≡◌, ◌++◌, OnOk, OnErr, IfOk, IfSome, IsTrue, ◌↔◌, is_some, length, not};
ghost use Rattle.cadf_join.specs.Sets as set;
ghost use Rattle.cadf_join.specs.Contents.{Contents, IsBetween, IsLeastWith};
ghost use Rattle.cadf_join.specs.Prefixes.{all_texts, chain_texts, continued, saturated};

pub use join_map::JoinMap;
use std::alloc::AllocError;
pub use text_set::TextSet;
pub use walk::{Visitor, Walk};

/// The error of a failed allocation.
pub type Memory = AllocError;

/// A grow-only set of lists of texts, a join-semilattice: `join` is commutative, associative and idempotent.
///
/// A call returns `Memory` if an allocation failed. The value is then between its old contents and those after an `Ok`,
/// and the same call may succeed later.
pub trait Join: Drop {
    /// The lists that a value holds.
    ghost contents: { Self → Contents };

    /// Which sets are the contents of a value.
    ghost is_contents: { Contents → Type 0 };

    /// Adds all lists of `other`. After an `Err` some of them may have been added.
    fn join(&mut self, other: &Self) -> Result<(), Memory>
        ensures ok { OnOk result (contents self.new ≡ set.union (contents self.old) (contents other.now)) }
        ensures err { OnErr result (IsBetween (contents self.old) (contents self.new) (set.union (contents self.old) (contents other.now))) };

    /// Returns the least value that has the lists that `other` lacks. `None` if and only if `other` lacks nothing.
    fn missing_from(&self, other: &Self) -> Result<Option<Self>, Memory>
        ensures some { IfOk result (λ part. is_some part ≡ not (set.is_subset (contents self.now) (contents other.now))) }
        ensures least { IfOk result (λ part. IfSome part (λ v. IsLeastWith is_contents
            (set.difference (contents self.now) (contents other.now)) (contents v))) };

    /// Copies the value.
    fn copy(&self) -> Result<Self, Memory>
        ensures { IfOk result (λ v. contents v ≡ contents self.now) };

    /// Returns whether both have the same contents.
    fn same(&self, other: &Self) -> bool
        ensures { IsTrue result ↔ (contents self.now ≡ contents other.now) };

    /// Returns whether there are no lists.
    fn is_empty(&self) -> bool
        ensures { IsTrue result ↔ (contents self.now ≡ set.empty) };

    /// Counts the lists, at most `u64::MAX`.
    fn list_count(&self) -> u64
        ensures { result ≡ saturated (length (set.rising (contents self.now))) };

    /// Appends to `lists` each list, after the prefix, in order.
    fn append_lists(&self, prefix: &[String], lists: &mut Vec<Vec<String>>) -> Result<(), Memory>
        ensures { OnOk result (all_texts lists.new.items
            ≡ all_texts lists.old.items ++ continued (chain_texts prefix.now) (set.rising (contents self.now))) };

    /// The contents of each value are of that kind.
    ghost contents_are: { (x : Self) → is_contents (contents x) };
}
