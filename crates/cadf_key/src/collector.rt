//! A visitor that collects the digests of the keys of the lists that a walk visits.
ghost use Rattle.std.specs.Prelude.{◌≡◌, ◌++◌, ◌∷◌, [], ⊤, OnOk};
ghost use Rattle.cadf_line.specs.Digest.{IsDigest};
ghost use Rattle.cadf_key.specs.Keys.{Collects, IsCollected};
ghost use Rattle.cadf_key.specs.laws.Collected.{collects_none, collects_more, collected_shared, none_collected};

use crate::key::{KeyDigests, key_length};
use cadf_join::{Memory, Visitor};

/// Collects the digest of the key of each list, unless the list before has the same key.
#[derive(Drop)]
pub(crate) struct KeyCollector {
    pub(crate) digests: Vec<[u8; 32]>,
    pub(crate) keys: KeyDigests,
}

/// Appends the digest, which has 32 bytes.
fn push(digests: &mut Vec<[u8; 32]>, digest: &[u8; 32]) -> Result<(), Memory>
    ensures { OnOk result ((digests.new.items ≡ digests.old.items ++ digest.now ∷ []) × IsDigest digest.now) }
{
    digests.push(*digest)?;
    Ok(())
}

impl Visitor for KeyCollector {
    type Fault = Memory;

    ghost takes = { λ u qs v. Collects u.digests.items qs v.digests.items };

    ghost stops = { λ _ _ _ _. ⊤ };

    ghost keeps = { λ u n list. IsCollected u.digests.items n list };

    fn visit(&mut self, list: &[&str], shared: usize) -> Result<(), Memory> {
        if shared < key_length(list) {
            let digest = self.keys.digest_of(list)?;
            push(&mut self.digests, &digest)?;
        }
        Ok(())
    }

    ghost keeps_none = { λ u list. none_collected u.digests.items list };

    ghost keeps_shared = { λ u before list n. collected_shared u.digests.items before list n };

    ghost takes_none = { λ u. collects_none u.digests.items };

    ghost takes_more = { λ u v w ps qs. collects_more u.digests.items v.digests.items w.digests.items ps qs };

    ghost stops_at_once = { λ _ _ _ _ _. tt };

    ghost stops_later = { λ _ _ _ _ _ _ _ _. tt };

    ghost stops_before = { λ _ _ _ _ _ _. tt };
}
