//! A proof by the trees of seals.
ghost use Rattle.std.specs.Prelude.{◌≡◌, option_map};
ghost use Rattle.cadf_event.specs.Known.{IsNameText};
ghost use Rattle.cadf_evidence.specs.ProofFile.{HasProofParts};

use cadf_event::Name;
use cadf_tree::Part;
use std::marker::Model;

/// The parts of a proof, each tree's in preorder. Those of none allocate nothing.
#[derive(Drop)]
pub enum Parts {
    Nothing,
    Facts(Vec<Part>),
    /// The facts' parts, and the keys'.
    Keys(Vec<Part>, Vec<Part>),
}

/// Shows under the seal of a set what is in it, or under two seals how the later set came of the earlier one: parts of
/// the tree over the facts' digests, and of that over the keys' if the proof speaks of keys.
#[derive(Drop)]
pub struct Proof {
    pub(crate) log: Name,
    pub(crate) parts: Parts,
}

impl Model for Proof {
    ghost use Rattle.cadf_evidence.specs.ProofFile.{ProofModel, coded_proof, HasProofParts};
    ghost use Rattle.cadf_evidence.specs.ProofLines.{proof_of_parts};

    ghost Value = { ProofModel };

    ghost coded = { coded_proof };

    ghost view = { λ p. proof_of_parts p.log p.parts };

    ghost invariant = { λ p. HasProofParts (proof_of_parts p.log p.parts) };
}

impl Proof {
    /// States the type invariant of a proof. Does nothing.
    pub fn type_invariant(&self)
        ensures log { IsNameText self.now.log }
        ensures parts { HasProofParts self.now }
    {
        self.log.type_invariant();
        let _parts = &self.parts;
    }

    /// Returns the identifier of the log.
    pub fn log(&self) -> &Name
        ensures { result.now ≡ self.now.log }
    {
        &self.log
    }

    /// Returns the parts of the facts' tree, in preorder.
    pub fn facts(&self) -> &[Part]
        ensures { result.now ≡ self.now.facts }
    {
        match &self.parts {
            Parts::Nothing => &[],
            Parts::Facts(facts) => facts.as_slice(),
            Parts::Keys(facts, _) => facts.as_slice(),
        }
    }

    /// Returns the parts of the keys' tree, in preorder. `None` if the proof doesn't speak of keys.
    pub fn keys(&self) -> Option<&[Part]>
        ensures { option_map (λ ps. ps.now) result ≡ self.now.keys }
    {
        match &self.parts {
            Parts::Keys(_, keys) => Some(keys.as_slice()),
            _ => None,
        }
    }
}
