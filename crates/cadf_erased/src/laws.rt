//! Laws of what a list of what was erased leaves. Each function's contract is a theorem, and its body is empty.

ghost use Rattle.std.specs.Prelude.{◌≡◌, ◌↔◌, Bool, true, false};
ghost use Rattle.cadf_join.specs.Sets as set;
ghost use Rattle.cadf_join.specs.Contents.{Texts, Contents, Has, IsWithin};
ghost use Rattle.cadf_line.specs.Atoms.{IsGrounded};
ghost use Rattle.cadf_line.specs.Missing.{missing};
ghost use Rattle.cadf_atom.specs.AtomSets.{IsReplicaSet};
ghost use Rattle.cadf_key.specs.Keys.{is_ruling, key_digest};
ghost use Rattle.cadf_erased.specs.Left.{is_omitted, left};
ghost use Rattle.cadf_listed.specs.ListFile.{Names, key_name};

/// States that what is left are the atoms that the list doesn't omit; that nothing of a key is left that it has; and that
/// of any other key all is left but rulings.
pub fn left_is_what_is_not_omitted()
    ensures atoms { (names : Names) (s : Contents) (q : Texts) → Has (left names s) q ↔ (Has s q × (is_omitted names q ≡ false)) }
    ensures keys { (names : Names) (s : Contents) (q : Texts) → set.contains names (key_name (key_digest q)) ≡ true → Has (left names s) q → ⊥ }
    ensures others { (names : Names) (s : Contents) (q : Texts) → set.contains names (key_name (key_digest q)) ≡ false → is_ruling q ≡ false
        → Has s q → Has (left names s) q }
{}

/// States that what is left of a replica's set is one: with an event's body go all its parts.
pub fn left_is_a_replica()
    ensures grounded { (names : Names) (s : Contents) → IsGrounded s → IsGrounded (left names s) }
    ensures replica { (names : Names) (s : Contents) → IsReplicaSet s → IsReplicaSet (left names s) }
{}

/// States that what is left of a union is the union of what is left, also where one set came as a delta.
pub fn left_of_union()
    ensures union { (names : Names) (s t : Contents) → left names (set.union s t) ≡ set.union (left names s) (left names t) }
    ensures delta { (names : Names) (a b earlier : Contents) → IsGrounded a → IsWithin earlier b
        → left names (set.union b (missing a earlier)) ≡ set.union (left names b) (left names a) }
{}

/// States that leaving out twice is leaving out once, and that one list after another leaves what their union leaves.
pub fn left_by_lists()
    ensures again { (names : Names) (s : Contents) → left names (left names s) ≡ left names s }
    ensures both { (m n : Names) (s : Contents) → left m (left n s) ≡ left (set.union m n) s }
{}

/// States that what is left of a part of a set, as of one window, is the part of what is left.
pub fn left_of_part()
    ensures { (names : Names) (p : Texts → Bool) (s : Contents) → left names (set.retain s p) ≡ set.retain (left names s) p }
{}
