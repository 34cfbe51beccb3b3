//! Laws over the definitions alone. Each function's contract is a theorem, and its body is empty.
ghost use Rattle.std.specs.Prelude.{◌≡◌, ◌≤◌, ℕ, length, false, Ok};
ghost use Rattle.cadf_evidence.specs.KeyList.{IsKeyList, KeysFileIsInjective, keys_file};
ghost use Rattle.cadf_evidence.specs.KeyVerdict.{keys_verdict};
ghost use Rattle.cadf_evidence.specs.Made.{FactsProofIsTold, GrowthProofIsTold, KeysProofIsTold, ListedGrowthIsGrowth};
ghost use Rattle.cadf_evidence.specs.ProofFile.{IsProof, ProofFileIsInjective, proof_file};
ghost use Rattle.cadf_evidence.specs.ProofVerdict.{proof_verdict};
ghost use Rattle.cadf_evidence.specs.SealFile.{IsSeal, SealFileIsInjective, seal_file};
ghost use Rattle.cadf_evidence.specs.SealVerdict.{seal_verdict};
ghost use Rattle.cadf_evidence.specs.Soundness.{FactsAreSo, GrowthIsSo, KeysAreSo, NothingGoesUnlisted, EqualSealsAreOfOneSet};

use crate::key_list::KeyList;
use crate::proof::Proof;
use crate::seal::Seal;
use cadf_listed::list_over_sets;
use cadf_tree::{growth_is_complete, growth_is_sound, presence_is_complete, presence_is_sound};

/// States that a seal's file is injective: seals with equal files are equal.
pub fn seal_file_is_injective()
    ensures { SealFileIsInjective }
{}

/// States that the file of a seal is accepted if it is within the limit, and is read as that seal.
pub fn seal_is_read_back(seal: &Seal)
    ensures seal { IsSeal seal.now }
    ensures read { (limit : ℕ) → length (seal_file seal.now) ≤ limit → seal_verdict limit false (seal_file seal.now) ≡ Ok seal.now }
{
    seal.type_invariant();
}

/// States that a proof's file is injective: proofs with equal files are equal.
pub fn proof_file_is_injective()
    ensures { ProofFileIsInjective }
{}

/// States that the file of a proof is accepted if it is within the limit, and is read as that proof.
pub fn proof_is_read_back(proof: &Proof)
    ensures proof { IsProof proof.now }
    ensures read { (limit : ℕ) → length (proof_file proof.now) ≤ limit → proof_verdict limit false (proof_file proof.now) ≡ Ok proof.now }
{
    proof.type_invariant();
}

/// States that the file of a list of keys is injective: lists with equal files are equal.
pub fn keys_file_is_injective()
    ensures { KeysFileIsInjective }
{}

/// States that the file of a list of keys is accepted if it is within the limit, and is read as that list.
pub fn keys_are_read_back(keys: &KeyList)
    ensures keys { IsKeyList keys.now }
    ensures read { (limit : ℕ) → length (keys_file keys.now) ≤ limit → keys_verdict limit false (keys_file keys.now) ≡ Ok keys.now }
{
    keys.type_invariant();
}

/// States that of facts that are told, each is in the sealed set or not, as was asked, if what is hashed doesn't collide.
pub fn told_facts_are_so()
    ensures { FactsAreSo }
{
    presence_is_sound();
}

/// States that of keys that are told, a fact of the sealed set has each, or none has any, as was asked, if what is hashed
/// doesn't collide.
pub fn told_keys_are_so()
    ensures { KeysAreSo }
{
    presence_is_sound();
}

/// States that two sealed sets differ as is told, and that of what went each digest is in the list, if what is hashed doesn't
/// collide.
pub fn told_growth_is_so()
    ensures { GrowthIsSo }
{
    growth_is_sound();
}

/// States that if it is told how a set grew, each fact and each key of the earlier set is in the later one or in the list.
pub fn nothing_goes_unlisted()
    ensures { NothingGoesUnlisted }
{}

/// States that equal seals are of one log and one set of facts, if what is hashed doesn't collide.
pub fn equal_seals_are_of_one_set()
    ensures { EqualSealsAreOfOneSet }
{
    growth_is_sound();
}

/// States that the proof that is made for facts of which all are in the set, or none, is accepted under the set's seal and
/// tells so, and so is that for keys; and that the one that is made of two sets is accepted under both seals, if what went
/// is listed.
pub fn made_proofs_are_told()
    ensures facts { FactsProofIsTold }
    ensures keys { KeysProofIsTold }
    ensures growth { GrowthProofIsTold }
{
    presence_is_complete();
    growth_is_complete();
}

/// States that the proof of growth that is made from the sealed list of a replica is that of both replicas.
pub fn listed_growth_is_growth()
    ensures { ListedGrowthIsGrowth }
{
    list_over_sets();
}
