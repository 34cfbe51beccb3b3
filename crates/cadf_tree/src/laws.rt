//! Laws over the definitions alone. Each function's contract is a theorem, and its body is empty.
ghost use Rattle.std.specs.Prelude.{◌≡◌, List, ℕ};
ghost use Rattle.cadf_tree.specs.GrowthLaws.{EarlierIsHonest, LaterIsHonest, BothAreHonest};
ghost use Rattle.cadf_tree.specs.GrowthMade.{GrowthIsComplete, GrowthIsShort, UnchangedIsAHash};
ghost use Rattle.cadf_tree.specs.Made.{MadeIsRead, MadeHasBothRoots, MadeIsShort};
ghost use Rattle.cadf_tree.specs.Presence.{PresenceIsSound};
ghost use Rattle.cadf_tree.specs.PresenceMade.{PresenceIsComplete, PresenceIsShort};
ghost use Rattle.cadf_tree.specs.Tree.{IsSet, all_leaves, tree_of};
ghost use Rattle.cadf_tree.specs.Vouched.{ChainIsVouched, LaterVouches};

/// States that the leaves of a set's tree, from left to right, are its digests, ascending.
pub fn tree_has_the_set()
    ensures { (ds : List (List ℕ)) → IsSet ds → all_leaves (tree_of ds) ≡ ds }
{}

/// States that sets whose roots are accepted differ by what the parts show, and by nothing else, if what is hashed doesn't
/// collide. If one root alone is known to be that of a set, the other one is that of a tree whose leaves rise and differ from
/// the set so.
pub fn growth_is_sound()
    ensures both { BothAreHonest }
    ensures earlier { EarlierIsHonest }
    ensures later { LaterIsHonest }
{}

/// States that what parts under the root of a set show of a digest is so, if what is hashed doesn't collide.
pub fn presence_is_sound()
    ensures { PresenceIsSound }
{}

/// States that the parts that are made of a set's tree are read as the tree that was made, and that each side of it has the
/// root of that side's digests, whichever leaves are shown.
pub fn made_tree_has_both_roots()
    ensures read { MadeIsRead }
    ensures roots { MadeHasBothRoots }
{}

/// States that the parts that are made for some digests are accepted under the set's root, show of each of these whether it is
/// in the set, and show no leaf that none of them needs.
pub fn presence_is_complete()
    ensures { PresenceIsComplete }
{}

/// States that the parts that are made of two sets are accepted under their roots, and show their difference. Those of a set
/// that didn't change are its hash.
pub fn growth_is_complete()
    ensures accepted { GrowthIsComplete }
    ensures unchanged { UnchangedIsAHash }
{}

/// States that a root that is known to be that of a set vouches for the roots before it, if nothing went and what is hashed
/// doesn't collide: each is that of the set after it without what was added since.
pub fn later_root_vouches()
    ensures step { LaterVouches }
    ensures chain { ChainIsVouched }
{}

/// States that the parts that are made are at most two for each digest of the set, and, however large the set is, at most one
/// and 512 for each leaf that is shown: 1,024 for each digest that is asked for, 1,536 for each that was added or is gone.
pub fn made_tree_is_short()
    ensures tree { MadeIsShort }
    ensures presence { PresenceIsShort }
    ensures growth { GrowthIsShort }
{}
