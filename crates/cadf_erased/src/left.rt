//! What of a replica is left by a list of what was erased.
ghost use Rattle.std.specs.Prelude.{◌≡◌, ◌&&◌, ⊤, IfOk, OnOk, OnErr, ◌++◌, ◌∷◌, [], if◌then◌else◌};
ghost use Rattle.std.specs.Io.KnownBytes.{Appends};
ghost use Rattle.cadf_json.specs.Streams.{counted, is_write_fault, AppendsPrefix};
ghost use Rattle.cadf_join.specs.Sets as set;
ghost use Rattle.cadf_join.specs.Prefixes.{texts_at};
ghost use Rattle.cadf_line.specs.Digest.{atom_digest};
ghost use Rattle.cadf_file.specs.FileTwo.{file_two};
ghost use Rattle.cadf_key.specs.Keys.{is_ruling};
ghost use Rattle.cadf_listed.specs.ListFile.{fact_name};
ghost use Rattle.cadf_erased.specs.Left.{left_of, places_left, Collects, IsKnown};
ghost use Rattle.cadf_erased.specs.laws.Places.{collects_none, collects_more, none_known, known_shared};

use cadf_file::write_body_at;
use cadf_join::Visitor;
use cadf_json::{Memory, OutFault, Sink};
use cadf_key::{KeyDigests, is_ruling, key_length};
use cadf_line::LineDigests;
use cadf_linefile::write_digest;
use cadf_listed::{Erased, Listed};
use cadf_set::Replica;
use std::alloc::Global;

/// Writes, as a replica file, what of the replica is left by the list, which is taken as one of the replica's log. After
/// an `Err` a prefix was written.
pub fn write_left<S: Sink>(
    alloc: Global,
    erased: &Listed<Erased>,
    replica: &Replica,
    sink: &mut S,
) -> Result<(), OutFault>
    ensures bytes { OnOk result (Appends (S.written sink.old) (S.written sink.new) (file_two (left_of erased.now replica.now))) }
    ensures front { OnErr result (AppendsPrefix (S.written sink.old) (S.written sink.new) (file_two (left_of erased.now replica.now))) }
    ensures failures { S.failures sink.new ≡ counted (is_write_fault result) (S.failures sink.old) }
{
    replica.type_invariant();
    let places = places_left(alloc, erased, replica)?;
    let hasher = write_body_at(alloc, replica, places.as_slice(), sink)?;
    write_digest(alloc, hasher, sink)
}

/// Returns the indices, in order, of the atoms that are left. `Memory` if an allocation fails.
fn places_left(
    alloc: Global,
    erased: &Listed<Erased>,
    replica: &Replica,
) -> Result<Vec<usize>, Memory>
    ensures { IfOk result (λ places. places.items ≡ places_left 0 erased.now.names (set.rising replica.now.atoms)) }
{
    let mut collector = PlaceCollector {
        erased,
        keys: KeyDigests::new(alloc),
        lines: LineDigests::new(alloc),
        has_key: false,
        place: 0,
        places: Vec::new(alloc),
    };
    replica.walk(&mut collector)?;
    Ok(collector.places)
}

/// Collects the place of each list that is left. `place` is that of the next list; `has_key` says whether the key of the
/// list before was erased.
#[derive(Drop)]
struct PlaceCollector<'a> {
    erased: &'a Listed<Erased>,
    keys: KeyDigests,
    lines: LineDigests,
    has_key: bool,
    place: usize,
    places: Vec<usize>,
}

impl Visitor for PlaceCollector<'_> {
    type Fault = Memory;

    ghost takes = { λ u qs v. Collects u.erased.now.names u.place u.places.items qs v.erased.now.names v.place v.places.items };

    ghost stops = { λ _ _ _ _. ⊤ };

    ghost keeps = { λ u n list. IsKnown u.erased.now.names u.has_key n list };

    fn visit(&mut self, list: &[&str], shared: usize) -> Result<(), Memory> {
        if shared < key_length(list) {
            let digest = self.keys.digest_of(list)?;
            self.has_key = self.erased.has_key(&digest);
        }
        let is_omitted = self.has_key || has_ruling(self.erased, &mut self.lines, list)?;
        push_unless(&mut self.places, is_omitted, self.place)?;
        self.place = self.place.checked_add(1).ok_or(Memory)?;
        Ok(())
    }

    ghost keeps_none = { λ u list. none_known u.erased.now.names u.has_key list };

    ghost keeps_shared = { λ u before list n. known_shared u.erased.now.names u.has_key before list n };

    ghost takes_none = { λ u. collects_none u.erased.now.names u.place u.places.items };

    ghost takes_more = { λ u v w ps qs. collects_more u.erased.now.names v.erased.now.names w.erased.now.names u.place v.place w.place
        u.places.items v.places.items w.places.items ps qs };

    ghost stops_at_once = { λ _ _ _ _ _. tt };

    ghost stops_later = { λ _ _ _ _ _ _ _ _. tt };

    ghost stops_before = { λ _ _ _ _ _ _. tt };
}

/// Returns whether the list is a ruling that was erased by itself. `Memory` if an allocation fails.
fn has_ruling(
    erased: &Listed<Erased>,
    lines: &mut LineDigests,
    list: &[&str],
) -> Result<bool, Memory>
    ensures { IfOk result (λ has. has ≡ (is_ruling (texts_at list.now) && set.contains erased.now.names (fact_name (atom_digest (texts_at list.now))))) }
{
    if !is_ruling(list) {
        return Ok(false);
    }
    let digest = lines.digest_of(list, 0)?;
    Ok(erased.has_fact(&digest))
}

/// Appends the place unless the list there is omitted.
fn push_unless(places: &mut Vec<usize>, is_omitted: bool, place: usize) -> Result<(), Memory>
    ensures { OnOk result (places.new.items ≡ places.old.items ++ (if is_omitted then [] else place ∷ [])) }
{
    if !is_omitted {
        places.push(place)?;
    }
    Ok(())
}
