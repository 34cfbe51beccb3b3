//! Laws of lists and their files. Each function's contract is a theorem, and its body is empty.
ghost use Rattle.std.specs.Prelude.{◌≡◌, ◌≤◌, ℕ, length, false, Ok};
ghost use Rattle.cadf_join.specs.Sets.{rising};
ghost use Rattle.cadf_set.specs.Inventory.{InventoryModel};
ghost use Rattle.cadf_listed.specs.ListFile.{IsListed, ListFileIsInjective, facts_of, keys_of, list_file, list_over};
ghost use Rattle.cadf_listed.specs.ListVerdict.{AcceptsLists, list_verdict};

use crate::kind::ListKind;
use crate::listed::Listed;

/// States that the file of a list is injective: lists of a kind with equal files are equal.
pub fn list_file_is_injective()
    ensures { ListFileIsInjective }
{}

/// States that bytes are accepted if and only if they are the file of a list of the kind, within the limit.
pub fn accepted_bytes_are_lists()
    ensures { AcceptsLists }
{}

/// States that the file of a list, within the limit, is accepted and read as that list.
pub fn list_is_read_back<K: ListKind>(list: &Listed<K>)
    ensures list { IsListed list.now }
    ensures read { (limit : ℕ) → length (list_file K.header list.now) ≤ limit
        → list_verdict K.header limit false (list_file K.header list.now) ≡ Ok list.now }
{
    list.type_invariant();
}

/// States that the list over two inventories has the facts of the one and the keys of the other.
pub fn list_over_sets()
    ensures facts { (facts keys : InventoryModel) → facts_of (list_over facts keys) ≡ rising facts.digests }
    ensures keys { (facts keys : InventoryModel) → keys_of (list_over facts keys) ≡ rising keys.digests }
{}
