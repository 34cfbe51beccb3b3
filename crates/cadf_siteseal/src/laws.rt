//! Laws of site seals and of proofs of growth, and of their files. Each function's contract is a theorem, and its body is empty.
ghost use Rattle.std.specs.Prelude.{◌≡◌, ◌≤◌, ℕ, length, false, Ok};
ghost use Rattle.cadf_linefile.specs.ModelKind.{AcceptsModels, IsInjective, file_of, verdict_of};
ghost use Rattle.cadf_siteseal.specs.GrowthItems.{IsSiteGrowth, site_growth_kind};
ghost use Rattle.cadf_siteseal.specs.SealItems.{IsSiteSeal, site_seal_kind};
ghost use Rattle.cadf_siteseal.specs.SiteLaws.{PartsStay};

use crate::site_growth::SiteGrowth;
use crate::site_seal::SiteSeal;
use cadf_evidence::{equal_seals_are_of_one_set, nothing_goes_unlisted, told_growth_is_so};

/// States that the file of a site seal is injective: site seals with equal files are equal.
pub fn site_seal_file_is_injective()
    ensures { IsInjective site_seal_kind IsSiteSeal }
{}

/// States that bytes are accepted if and only if they are the file of a site seal, within the limit.
pub fn accepted_bytes_are_site_seals()
    ensures { AcceptsModels site_seal_kind IsSiteSeal }
{}

/// States that the file of a site seal, within the limit, is accepted and read as that seal.
pub fn site_seal_is_read_back(seal: &SiteSeal)
    ensures seal { IsSiteSeal seal.now }
    ensures read { (limit : ℕ) → length (file_of site_seal_kind seal.now) ≤ limit
        → verdict_of site_seal_kind limit false (file_of site_seal_kind seal.now) ≡ Ok seal.now }
{
    seal.type_invariant();
}

/// States that the file of a proof of growth of a site is injective: such proofs with equal files are equal.
pub fn site_growth_file_is_injective()
    ensures { IsInjective site_growth_kind IsSiteGrowth }
{}

/// States that bytes are accepted if and only if they are the file of a proof of growth of a site, within the limit.
pub fn accepted_bytes_are_site_growths()
    ensures { AcceptsModels site_growth_kind IsSiteGrowth }
{}

/// States that the file of a proof of growth of a site, within the limit, is accepted and read as that proof.
pub fn site_growth_is_read_back(growth: &SiteGrowth)
    ensures growth { IsSiteGrowth growth.now }
    ensures read { (limit : ℕ) → length (file_of site_growth_kind growth.now) ≤ limit
        → verdict_of site_growth_kind limit false (file_of site_growth_kind growth.now) ≡ Ok growth.now }
{
    growth.type_invariant();
}

/// States that if a proof of growth is accepted under the seals of two sites, then each fact and each key of an earlier part is in
/// the later part of that name or in the list, if what is hashed doesn't collide; and that a part that isn't before the first
/// window that is kept is held, if the later seal has anything of it.
pub fn parts_stay()
    ensures { PartsStay }
{
    told_growth_is_so();
    nothing_goes_unlisted();
    equal_seals_are_of_one_set();
}
