//! Copies some of the lists that a cursor visits: those that another set lacks, the carriers, and those chosen.
ghost use Rattle.std.specs.Prelude.{◌≡◌, ◌≤◌, ◌++◌, [], ◌∷◌, OnOk, IfOk, cond, length, take, List};
ghost use Rattle.cadf_join.specs.Prefixes.{texts_at};
ghost use Rattle.cadf_pathset.specs.Lists.{chosen_of, is_above_last, last_of};
ghost use Rattle.cadf_pathset.specs.Walks.{Advances, Place, Steps};
ghost use Rattle.cadf_join.specs.Contents.{Texts, texts_cmp};
ghost use Rattle.cadf_pathset.specs.Nodes.{Agree};
ghost use Rattle.cadf_pathset.specs.Merge.{sorted_without};
ghost use Rattle.std.specs.List.Sorted.{IsStrictlySortedBy};
ghost use Rattle.std.specs.declared.cmp.Ordering.TheVariants.{Less, Greater};
ghost use Rattle.cadf_join.specs.Sets as set;
ghost use Rattle.cadf_pathset.specs.Carriers.{carriers_in, with_carriers_by};

use crate::Memory;
use crate::cursor::Cursor;
use crate::path_vec::PathVec;
use std::alloc::Global;
use std::cmp::Ordering;
use std::marker::Model;
use std::mem::replace;

/// A cursor, and copies of some of the lists that it has visited. Texts that a list shares with the last copy are not
/// compared again.
#[derive(Drop)]
pub(crate) struct Copier<'a> {
    cursor: Cursor<'a>,
    copies: PathVec,
    /// The cursor's list is known to share this many first texts with the last copy.
    shared: usize,
}

impl<'a> Model for Copier<'a> {
    ghost Value = { Place × List Texts };

    ghost view = { λ c. (c.cursor, c.copies) };

    ghost invariant = { λ c. Agree c.shared (last_of [] c.copies) c.cursor.0 };
}

impl<'a> Copier<'a> {
    /// Starts without copies. Allocates nothing.
    pub fn new(alloc: Global, cursor: Cursor<'a>) -> Copier<'a>
        ensures place { result.0 ≡ cursor.entry }
        ensures none { result.1 ≡ [] }
    {
        Copier {
            cursor,
            copies: PathVec::new(alloc),
            shared: 0,
        }
    }

    /// Returns the list at the cursor.
    pub fn path(&self) -> &[&'a str]
        ensures { texts_at result.now ≡ self.now.0.0 }
    {
        self.cursor.path()
    }

    /// Moves to the next list. Returns how many first texts it shares with the list before, or with the empty list.
    /// `None` if there is no next list.
    pub fn advance(&mut self) -> Result<Option<usize>, Memory>
        ensures place { IfOk result (λ found. Advances found self.old.0 self.new.0) }
        ensures same { self.new.1 ≡ self.old.1 }
    {
        let known = replace(&mut self.shared, 0);
        let found = self.cursor.advance()?;
        self.shared = match found {
            Some(shared) => known.min(shared),
            None => known,
        };
        Ok(found)
    }

    /// Copies the list at the cursor.
    pub fn copy(&mut self) -> Result<(), Memory>
        ensures place { self.new.0 ≡ self.old.0 }
        ensures more { OnOk result (self.new.1 ≡ self.old.1 ++ self.old.0.0 ∷ []) }
    {
        let path = self.cursor.path();
        self.copies.push_after(path, self.shared)?;
        self.shared = path.len();
        Ok(())
    }

    /// Copies the first `count` texts of the list at the cursor, if they are above the last copy.
    pub fn copy_if_above(&mut self, count: usize) -> Result<(), Memory>
        requires { count ≤ length self.old.0.0 }
        ensures place { self.new.0 ≡ self.old.0 }
        ensures more { OnOk result (self.new.1 ≡ cond (is_above_last self.old.1 (take count self.old.0.0))
            (self.old.1 ++ take count self.old.0.0 ∷ []) self.old.1) }
    {
        let (front, _) = self.cursor.path().split_at(count);
        let shared = self.shared.min(count);
        if self.copies.is_above_last(front, shared) {
            self.copies.push_after(front, shared)?;
            self.shared = count;
        }
        Ok(())
    }

    /// Returns the copies.
    pub fn into_copies(self) -> PathVec
        ensures { result ≡ self.entry.1 }
    {
        self.copies
    }
}

/// Copies the lists ahead of the cursor whose flags are set. Flags and lists are in the same order.
fn copy_chosen(copier: &mut Copier<'_>, flags: &[bool]) -> Result<(), Memory>
    ensures { OnOk result (copier.new.1 ≡ copier.old.1 ++ chosen_of flags.now copier.old.0.1) }
{
    for flag in flags {
        if copier.advance()?.is_none() {
            return Ok(());
        }
        if *flag {
            copier.copy()?;
        }
    }
    Ok(())
}

/// Returns the lists whose flags are set. Flags and lists are in the same order.
pub(crate) fn chosen(rows: &PathVec, flags: &[bool]) -> Result<PathVec, Memory>
    ensures { IfOk result (λ some. some ≡ chosen_of flags.now rows.now) }
{
    let mut copier = Copier::new(rows.alloc(), rows.cursor());
    copy_chosen(&mut copier, flags).and(Ok(copier.into_copies()))
}

/// Returns whether there is a next list, of a cursor that has moved to it. If the list before shared its first `agreed`
/// texts with another list, `agreed` becomes the number that the next one is known to share with it.
fn stepped(common: Option<usize>, agreed: &mut usize) -> bool
    ensures { (old new : Place) → Advances common old new → Steps result old new agreed.old agreed.new }
{
    match common {
        Some(shared) => {
            *agreed = (*agreed).min(shared);
            true
        }
        None => false,
    }
}

/// Copies the lists ahead of the first cursor that are not ahead of the second.
fn copy_lacking(ours: &mut Copier<'_>, theirs: &mut Cursor<'_>) -> Result<(), Memory>
    ensures { OnOk result (ours.new.1 ≡ ours.old.1 ++ sorted_without texts_cmp ours.old.0.1 theirs.old.1) }
{
    let mut agreed: usize = 0;
    let mut more = stepped(ours.advance()?, &mut agreed);
    let mut others = stepped(theirs.advance()?, &mut agreed);
    while more && others {
        let (order, both) = theirs.cmp(ours.path(), agreed);
        agreed = both;
        match order {
            Ordering::Less => others = stepped(theirs.advance()?, &mut agreed),
            Ordering::Equal => {
                more = stepped(ours.advance()?, &mut agreed);
                others = stepped(theirs.advance()?, &mut agreed);
            }
            Ordering::Greater => {
                ours.copy()?;
                more = stepped(ours.advance()?, &mut agreed);
            }
        }
    }
    while more {
        ours.copy()?;
        more = stepped(ours.advance()?, &mut agreed);
    }
    Ok(())
}

/// Returns the lists of the first set that the second lacks.
pub(crate) fn without(a: &PathVec, b: &PathVec) -> Result<PathVec, Memory>
    ensures { IfOk result (λ left. left ≡ sorted_without texts_cmp a.now b.now) }
{
    let mut ours = Copier::new(a.alloc(), a.cursor());
    let mut theirs = b.cursor();
    copy_lacking(&mut ours, &mut theirs).and(Ok(ours.into_copies()))
}

/// Determines the carrier of each list: a prefix of the list, or the whole list.
pub trait Carrier {
    /// The carrier of a list.
    ghost carrier: { Texts → Texts };

    /// Counts the texts of the list's carrier.
    fn length(list: &[&str]) -> usize
        ensures within { result ≤ length list.now }
        ensures first { take result (texts_at list.now) ≡ carrier (texts_at list.now) };

    /// The carriers of ascending lists don't descend.
    ghost in_order: { (x y : Texts) → texts_cmp x y ≡ Less → texts_cmp (carrier x) (carrier y) ≡ Greater → ⊥ };
}

/// Copies the carriers of the lists ahead of the cursor, without each that isn't above the last copy.
fn copy_carriers<C: Carrier>(copier: &mut Copier<'_>) -> Result<(), Memory>
    ensures { OnOk result (copier.new.1 ≡ carriers_in C.carrier copier.old.1 copier.old.0.1) }
{
    while let Some(_) = copier.advance()? {
        copier.copy_if_above(C::length(copier.path()))?;
    }
    Ok(())
}

/// Returns the carriers of the lists, without each that isn't above the one before.
fn carriers_of<C: Carrier>(lists: &PathVec) -> Result<PathVec, Memory>
    ensures { IfOk result (λ found. found ≡ carriers_in C.carrier [] lists.now) }
{
    let mut copier = Copier::new(lists.alloc(), lists.cursor());
    copy_carriers::<C>(&mut copier).and(Ok(copier.into_copies()))
}

/// Returns the lists, which are strictly ascending, with their carriers, in order.
pub(crate) fn with_carriers<C: Carrier>(mut lists: PathVec) -> Result<PathVec, Memory>
    requires { IsStrictlySortedBy texts_cmp lists }
    ensures rising { IfOk result (λ all. IsStrictlySortedBy texts_cmp all) }
    ensures set { IfOk result (λ all. set.from_list {R = texts_cmp} all ≡ with_carriers_by C.carrier (set.from_list lists)) }
{
    let carriers = carriers_of::<C>(&lists)?;
    lists.join(&carriers).and(Ok(lists))
}
