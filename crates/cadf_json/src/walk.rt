//! The items of a list and the members of an object, one after another.
ghost use Rattle.std.specs.Prelude.{◌≡◌, ℕ, List as ListOf, MatchOption};
ghost use Rattle.std.specs.Iterator.{at_most};
ghost use Rattle.serde_json.specs.Data.{Data, no_items, Members as MembersOf, member, no_members};
ghost use Rattle.cadf_json.specs.declared.node.Node.TheVariants.{Text};
ghost use Rattle.cadf_json.specs.declared.node.Place.{Place as PlaceOf};
ghost use Rattle.cadf_json.specs.Value.{IsValue};
ghost use Rattle.cadf_json.specs.Flat.{MembersStand};
ghost use Rattle.cadf_json.specs.Reading.{IsFirstMember};

use crate::node::{Node, Place};
use crate::packed::PackedNode;
use crate::view::View;
use crate::write::as_text;
use std::marker::Model;

/// An iterator over items.
#[derive(Drop)]
pub struct Items<'v> {
    pub(crate) nodes: &'v [PackedNode],
    pub(crate) texts: &'v [u8],
}

impl<'v> Model for Items<'v> {
    ghost use Rattle.serde_json.specs.Data.{Items as ItemsOf};
    ghost use Rattle.cadf_json.specs.Coding.{items_code};
    ghost use Rattle.cadf_json.specs.Flat.{node_values};
    ghost use Rattle.cadf_json.specs.Walks.{AreItemsLeft};

    ghost Value = { ItemsOf };

    ghost coded = { items_code };

    ghost view = { λ i. node_values i.texts.now i.nodes.now };

    ghost invariant = { λ i. AreItemsLeft i.texts.now i.nodes.now };
}

impl<'v> Items<'v> {
    /// Returns no items.
    pub fn empty() -> Items<'v>
        ensures { result ≡ no_items }
    {
        Items {
            nodes: &[],
            texts: &[],
        }
    }
}

impl<'v> Iterator for Items<'v> {
    ghost use Rattle.serde_json.specs.Data.{item as item_of};
    ghost use Rattle.cadf_json.specs.Flat.{items_count};

    type Item = View<'v>;

    ghost next_gives = { λ s r t. MatchOption r ((s ≡ no_items) × (t ≡ no_items))
        (λ d. (s ≡ item_of d t) × IsValue d) };

    ghost remaining = { λ s. at_most (items_count s) };

    fn next(&mut self) -> Option<View<'v>> {
        if self.nodes.is_empty() {
            return None;
        }
        let (first, rest) = self.nodes.split_at(self.nodes[0].node().size());
        self.nodes = rest;
        Some(View {
            nodes: first,
            texts: self.texts,
        })
    }
}

/// A member of an object.
#[derive(Drop)]
pub struct Member<'v> {
    /// Without quotes and escapes.
    pub name: &'v str,
    /// If a name occurs twice in the text, the last one counts.
    pub value: View<'v>,
}

/// An iterator over members, in the order of their names.
#[derive(Drop)]
pub struct Members<'v> {
    pub(crate) nodes: &'v [PackedNode],
    pub(crate) texts: &'v [u8],
}

impl<'v> Model for Members<'v> {
    ghost use Rattle.serde_json.specs.Data.{Members as MembersOf};
    ghost use Rattle.cadf_json.specs.Coding.{members_code};
    ghost use Rattle.cadf_json.specs.Walks.{AreMembersLeft, members_at};

    ghost Value = { MembersOf };

    ghost coded = { members_code };

    ghost view = { λ m. members_at m.texts.now m.nodes.now };

    ghost invariant = { λ m. AreMembersLeft m.texts.now m.nodes.now };
}

impl<'v> Iterator for Members<'v> {
    ghost use Rattle.serde_json.specs.Data.{member as member_of};
    ghost use Rattle.serde_json.specs.Events.{members_len};

    type Item = Member<'v>;

    ghost next_gives = { λ s r t. MatchOption r ((s ≡ no_members) × (t ≡ no_members))
        (λ m. (s ≡ member_of m.name.now m.value t) × IsValue m.value) };

    ghost remaining = { λ s. at_most (members_len s) };

    fn next(&mut self) -> Option<Member<'v>> {
        if self.nodes.is_empty() {
            return None;
        }
        let first = first_member(self.nodes, self.texts);
        self.nodes = first.rest;
        Some(Member {
            name: as_text(first.name),
            value: View {
                nodes: first.value,
                texts: self.texts,
            },
        })
    }
}

/// A member, and the nodes of those after it.
#[derive(Clone, Copy, Drop)]
pub(crate) struct FirstMember<'v> {
    pub(crate) name: &'v [u8],
    /// The nodes of the name and of the value.
    pub(crate) nodes: &'v [PackedNode],
    pub(crate) value: &'v [PackedNode],
    pub(crate) rest: &'v [PackedNode],
}

/// Returns the place of a name.
fn place_of(node: Node) -> Place
    ensures { (p : PlaceOf) → node ≡ Text p → result ≡ p }
{
    match node {
        Node::Text(place) => place,
        _ => Place { start: 0, end: 0 },
    }
}

/// Splits the first member from the others.
#[inline(always)]
pub(crate) fn first_member<'v>(nodes: &'v [PackedNode], texts: &'v [u8]) -> FirstMember<'v>
    requires { (k : ListOf ℕ) × ((d : Data) × ((ms : MembersOf) × MembersStand texts.now (member k d ms) nodes.now)) }
    ensures { (k : ListOf ℕ) (d : Data) (ms : MembersOf) → MembersStand texts.now (member k d ms) nodes.now
        → IsFirstMember texts.now nodes.now k d ms result }
{
    let place = place_of(nodes[0].node());
    let size = nodes[1].node().size();
    let end = size + 1;
    let (member, rest) = nodes.split_at(end);
    FirstMember {
        name: &texts[place.start as usize..place.end as usize],
        nodes: member,
        value: &member[1..],
        rest,
    }
}
