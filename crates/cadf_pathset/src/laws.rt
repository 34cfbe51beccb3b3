//! Laws of the sets that contracts name.
ghost use Rattle.std.specs.Prelude.{◌≡◌, ◌⊎◌, ◌↔◌, ◌++◌};
ghost use Rattle.cadf_join.specs.Contents.{Texts, Contents, Has};
ghost use Rattle.cadf_pathset.specs.Carriers.{with_carriers_by};
ghost use Rattle.cadf_pathset.specs.Sections.{suffixes_after};

/// States which lists are members of the suffixes after a prefix, and of a set with the carriers of its members.
pub fn membership_laws()
    ensures suffixes { (s : Contents) (p r : Texts) → Has (suffixes_after s p) r ↔ Has s (p ++ r) }
    ensures carriers { (carrier : Texts → Texts) (s : Contents) (q : Texts)
        → Has (with_carriers_by carrier s) q ↔ (Has s q ⊎ ((x : Texts) × Has s x × (q ≡ carrier x))) }
{}
