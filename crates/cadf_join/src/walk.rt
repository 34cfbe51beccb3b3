//! A walk over a value's lists in order: each is passed to a visitor without a copy.
ghost use Rattle.std.specs.Prelude.{◌≡◌, ◌≤◌, ◌++◌, ◌∷◌, [], ℕ, List, OnOk, IfErr, length, take};
ghost use Rattle.std.specs.declared.alloc.AllocError.{AllocError};
ghost use Rattle.cadf_join.specs.Contents.{Texts};
ghost use Rattle.cadf_join.specs.Prefixes.{rising_behind, texts_at};

use crate::{Join, Memory};

/// A visitor of lists.
pub trait Visitor {
    /// Why the visitor stops: a reason of its own, or `Memory`.
    type Fault: From<Memory>;

    /// Visiting these lists leads from the first state to the second.
    ghost takes: { Self → List Texts → Self → Type 0 };

    /// Stopping for that reason, while these lists were to be visited, leads from the first state to the second.
    ghost stops: { Self → List Texts → Self.Fault → Self → Type 0 };

    /// What the visitor keeps of the previous list is valid for the first texts of this list, as many as `shared`
    /// counts.
    ghost keeps: { Self → ℕ → Texts → Type 0 };

    /// Visits the list, whose first `shared` texts are those of the previous list; 0 for the first list of a walk.
    fn visit(&mut self, list: &[&str], shared: usize) -> Result<(), Self::Fault>
        requires within { shared ≤ length list.now }
        requires keeps { keeps self.old shared (texts_at list.now) }
        ensures ok { OnOk result (takes self.old (texts_at list.now ∷ []) self.new) }
        ensures err { IfErr result (λ f. stops self.old (texts_at list.now ∷ []) f self.new) }
        ensures keeps { OnOk result (keeps self.new (length list.now) (texts_at list.now)) };

    /// Nothing kept has to be valid for a list that shares no texts.
    ghost keeps_none: { (v : Self) (list : Texts) → keeps v 0 list };

    /// What is valid for a list is valid for the first texts that another list shares with it.
    ghost keeps_shared: { (v : Self) (before list : Texts) (n : ℕ) → keeps v (length before) before → n ≤ length before → n ≤ length list
        → take n before ≡ take n list → keeps v n list };

    /// If no list is visited, the state stays the same.
    ghost takes_none: { (v : Self) → takes v [] v };

    /// Visiting two runs of lists, one after the other, is visiting all of them.
    ghost takes_more: { (u v w : Self) (xs ys : List Texts) → takes u xs v → takes v ys w → takes u (xs ++ ys) w };

    /// Any visit may be refused with `Memory`.
    ghost stops_at_once: { (v : Self) (xs : List Texts) (m : AllocError) (f : Self.Fault) → Self.Fault.from_gives m f → stops v xs f v };

    /// Stopping in the second of two runs of lists is stopping in both together.
    ghost stops_later: { (u v w : Self) (xs ys : List Texts) (f : Self.Fault) → takes u xs v → stops v ys f w → stops u (xs ++ ys) f w };

    /// Stopping in the first of two runs of lists is stopping in both together.
    ghost stops_before: { (u v : Self) (xs ys : List Texts) (f : Self.Fault) → stops u xs f v → stops u (xs ++ ys) f v };
}

/// A value of `Join` whose lists can be walked.
pub trait Walk: Join {
    /// Passes each list, after the path, in order to the visitor, with the number of texts that it shares with the
    /// previous list. Stops at the visitor's first fault. Copies no text.
    fn walk<'a, S: Visitor>(
        &'a self,
        path: &mut Vec<&'a str>,
        visitor: &mut S,
    ) -> Result<(), S::Fault>
        ensures path { OnOk result (path.new.items ≡ path.old.items) }
        ensures shown { OnOk result (S.takes visitor.old (rising_behind (texts_at path.old.items) (Self.contents self.now)) visitor.new) }
        ensures stopped { IfErr result (λ f. S.stops visitor.old (rising_behind (texts_at path.old.items) (Self.contents self.now)) f visitor.new) };
}
