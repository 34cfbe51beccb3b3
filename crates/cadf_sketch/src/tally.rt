//! Counts over a set's digests, from which the holder of another set estimates how many digests the two don't share.
ghost use Rattle.std.specs.Prelude.{◌≡◌, ◌≤◌, ◌<◌, ◌^◌};
ghost use Rattle.cadf_sketch.specs.Tallies.{with_bits, tallied, apart_at, squares, cells_to_ask};

use crate::cell::word;

/// The number of digests of a set, and for each of the first 64 bits the number of digests that have it set.
#[derive(Clone, Copy)]
pub struct Tally {
    pub digests: u64,
    pub ones: [u64; 64],
}

impl Tally {
    /// The counts of no digest.
    pub(crate) const EMPTY: Tally = Tally {
        digests: 0,
        ones: [0; 64],
    };

    /// Counts one further digest.
    #[tactic(auto, unfolding(crate::specs::Tallies::tallied))]
    pub(crate) fn count(&mut self, digest: &[u8; 32])
        ensures { self.new ≡ tallied self.old digest.now }
    {
        self.digests = self.digests.wrapping_add(1);
        add_bits(&mut self.ones, word(digest, 0));
    }

    /// Returns the number of cells to ask for, from the counts of the own digests and those of a sketch.
    #[tactic(auto, unfolding(crate::specs::Tallies::cells_to_ask))]
    pub(crate) fn cells_to_ask(&self, theirs: &Tally) -> u32
        ensures { result ≡ cells_to_ask self.now theirs.now }
    {
        let guess = squares(self, theirs) / 64;
        let cells = (2 * guess + 32) / 3 * 3;
        cells.min(12_582_912) as u32
    }
}

/// Adds each bit of the word to its count, the highest bit to the first.
fn add_bits(ones: &mut [u64; 64], word: u64)
    ensures { ones.new ≡ with_bits ones.old word }
{
    for place in 0..64 {
        ones[place] = ones[place].wrapping_add((word >> (63 - place)) % 2);
    }
}

/// Returns the distance of the two sets' counts at that bit, at most 2^24.
fn apart_at(ours: &Tally, theirs: &Tally, bit: usize) -> u64
    requires { bit < 64 }
    ensures value { result ≡ apart_at ours.now theirs.now bit }
    ensures most { result ≤ 2 ^ 24 }
{
    let here = 2 * ours.ones[bit] as u128 + theirs.digests as u128;
    let there = 2 * theirs.ones[bit] as u128 + ours.digests as u128;
    here.abs_diff(there).min(16_777_216) as u64
}

/// Returns the sum over all bits of the squared distances of the two sets' counts.
fn squares(ours: &Tally, theirs: &Tally) -> u64
    ensures value { result ≡ squares ours.now theirs.now 64 }
    ensures most { result ≤ 2 ^ 54 }
{
    let mut sum = 0;
    for bit in 0..64 {
        let apart = apart_at(ours, theirs, bit);
        sum += apart * apart;
    }
    sum
}
