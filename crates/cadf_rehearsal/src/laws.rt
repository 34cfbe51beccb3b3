//! Laws over all schedules. Each function's contract is a theorem, and its body is empty.
ghost use Rattle.std.specs.Prelude.{◌≡◌, ◌<◌, ◌≤◌, ℕ, List, Ok};
ghost use Rattle.cadf_join.specs.Sets as set;
ghost use Rattle.cadf_join.specs.Contents.{Text, Texts, Contents, IsWithin};
ghost use Rattle.cadf_line.specs.Missing.{NoCollision, missing_by, digests_of};
ghost use Rattle.cadf_rehearsal.specs.declared.turn.Turn.{Turn};
ghost use Rattle.cadf_rehearsal.specs.Schedule.{World, after, plain, learnt_atoms, Means};

/// States that a delta, together with the inventory that it answers, covers the atoms that its sender had. The atoms in
/// that inventory are at its site from then on. Both require that no two atoms share a digest.
pub fn answer_with_inventory_covers_sender()
    ensures part { (digest : Texts → Text) (sender noted : Contents) → NoCollision digest (set.union sender noted)
        → IsWithin sender (set.union noted (missing_by digest sender (digests_of digest noted))) }
    ensures messages { (digest : Texts → Text) (log : Text) (sites : ℕ) (turns : List Turn) (world : World)
        → NoCollision digest (learnt_atoms turns) → after digest log sites turns ≡ Ok world
        → (m : ℕ) → 0 < m → m ≤ world.made → Means digest turns m (world.messages m) }
{}

/// States that a site has the atoms that it would have if each answer carried the sender's whole set, whatever is
/// stale, lost, repeated or reordered. This requires that no two atoms share a digest.
pub fn rehearsal_equals_full_exchange()
    ensures exact { (digest : Texts → Text) (log : Text) (sites : ℕ) (turns : List Turn) (world : World)
        → NoCollision digest (learnt_atoms turns) → after digest log sites turns ≡ Ok world
        → (j : ℕ) → world.sites j ≡ plain turns j }
    // Even if atoms share a digest, it never has more.
    ensures within { (digest : Texts → Text) (log : Text) (sites : ℕ) (turns : List Turn) (world : World)
        → after digest log sites turns ≡ Ok world
        → (j : ℕ) → IsWithin (world.sites j) (plain turns j) }
{}
