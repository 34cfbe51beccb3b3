//! Laws over the definitions alone. Each function's contract is a theorem, and its body is empty.
ghost use Rattle.std.specs.Prelude.{◌≡◌, ◌↔◌, ◌⊎◌, IsTrue, map, ℤ};
ghost use Rattle.std.specs.Int.Signed.{◌<ℤ◌};
ghost use Rattle.std.specs.declared.cmp.Ordering.TheVariants.{Less};
ghost use Rattle.cadf_join.specs.Sets as set;
ghost use Rattle.cadf_join.specs.Sets.{Listed};
ghost use Rattle.cadf_join.specs.Contents.{Text, Texts, Contents, Has, text_cmp};
ghost use Rattle.cadf_line.specs.Atoms.{IsGrounded};
ghost use Rattle.cadf_line.specs.Missing.{missing, missing_by, Digests, digests_of, NoCollision};
ghost use Rattle.cadf_atom.specs.AtomSets.{IsReplicaSet};
ghost use Rattle.cadf_atom.specs.Contributions.{union_all};
ghost use Rattle.cadf_set.specs.Ruled.{is_conflicted};
ghost use Rattle.cadf_event.specs.Known.{IsBodyText};
ghost use Rattle.cadf_scan.specs.Instants.{body_instant};
ghost use Rattle.cadf_split.specs.declared.unit.Unit.{Unit};
ghost use Rattle.cadf_split.specs.Parts.{IsInTwoParts};
ghost use Rattle.cadf_split.specs.Windows.{key, part, part_keys, day_number, IsShownDay, window, name};

/// States that each atom of a set is in exactly one part, that the parts with an atom are the set together, and that
/// each part of a replica's set is one.
pub fn parts_are_the_set()
    ensures disjoint { (unit : Unit) (k l : Text) (s : Contents) (q : Texts) → Has (part unit k s) q → Has (part unit l s) q → k ≡ l }
    ensures together { (unit : Unit) (s : Contents) → union_all (map (λ k. part unit k s) (part_keys unit s)) ≡ s }
    ensures not_empty { (unit : Unit) (k : Text) (s : Contents) → Listed k (part_keys unit s) ↔ ((q : Texts) × Has (part unit k s) q) }
    ensures grounded { (unit : Unit) (k : Text) (s : Contents) → IsGrounded s → IsGrounded (part unit k s) }
    ensures replica { (unit : Unit) (k : Text) (s : Contents) → IsReplicaSet s → IsReplicaSet (part unit k s) }
{}

/// States that a part of a union is the union of the parts.
pub fn part_of_union()
    ensures { (unit : Unit) (k : Text) (s t : Contents) → part unit k (set.union s t) ≡ set.union (part unit k s) (part unit k t) }
{}

/// States that the delta is made of the deltas of the parts.
pub fn missing_of_parts()
    ensures part { (unit : Unit) (k : Text) (a b : Contents) → part unit k (missing a b) ≡ missing (part unit k a) (part unit k b) }
    ensures whole { (unit : Unit) (a b : Contents) → IsGrounded a
        → union_all (map (λ k. missing (part unit k a) (part unit k b)) (part_keys unit a)) ≡ missing a b }
{}

/// States that the delta for an inventory is made of the parts' deltas for that inventory. If no two atoms share a
/// digest, it is also made of their deltas for the inventories of the other set's parts.
pub fn missing_by_of_parts()
    ensures part { (unit : Unit) (digest : Texts → Text) (k : Text) (a : Contents) (known : Digests)
        → part unit k (missing_by digest a known) ≡ missing_by digest (part unit k a) known }
    ensures whole { (unit : Unit) (digest : Texts → Text) (a : Contents) (known : Digests) → IsGrounded a
        → union_all (map (λ k. missing_by digest (part unit k a) known) (part_keys unit a)) ≡ missing_by digest a known }
    ensures own_part { (unit : Unit) (digest : Texts → Text) (k : Text) (a b : Contents) → NoCollision digest (set.union a b)
        → missing_by digest (part unit k a) (digests_of digest (part unit k b)) ≡ part unit k (missing_by digest a (digests_of digest b)) }
    ensures own_whole { (unit : Unit) (digest : Texts → Text) (a b : Contents) → IsGrounded a → NoCollision digest (set.union a b)
        → union_all (map (λ k. missing_by digest (part unit k a) (digests_of digest (part unit k b))) (part_keys unit a))
        ≡ missing_by digest a (digests_of digest b) }
{}

/// States that a key is conflicted if and only if it is conflicted in a part, or has values in two parts.
pub fn conflicts_of_parts()
    ensures { (unit : Unit) (s : Contents) (letter name : Text) → IsTrue (is_conflicted s letter name)
        ↔ (((k : Text) × IsTrue (is_conflicted (part unit k s) letter name)) ⊎ IsInTwoParts (key unit) s letter name) }
{}

/// States that names and keys of windows have one order, which is that of time: the window whose name is less has the
/// earlier instants. The instant of each body is of a year that has a name.
pub fn windows_are_in_order_of_time()
    ensures shown { (body : Text) → IsBodyText body → IsShownDay (day_number (body_instant body)) }
    ensures names { (unit : Unit) (i j : ℤ) → IsShownDay (day_number i) → IsShownDay (day_number j)
        → text_cmp (name unit (window unit i)) (name unit (window unit j)) ≡ text_cmp (window unit i) (window unit j) }
    ensures time { (unit : Unit) (i j : ℤ) → IsShownDay (day_number i) → IsShownDay (day_number j)
        → text_cmp (name unit (window unit i)) (name unit (window unit j)) ≡ Less → i <ℤ j }
{}
