//! A borrowed part of a value.
ghost use Rattle.std.specs.Prelude.{◌≡◌, ◌++◌, OnOk, IfOk, IfSome, length, nat_le, option_map, is_some, not, slice_get, string_bytes};
ghost use Rattle.serde_json.specs.Find.{as_null, as_str, as_array, get};
ghost use Rattle.serde_json.specs.Data.{string as text_value, object as object_of, depth as nesting};
ghost use Rattle.cadf_json.specs.Parts.{is_object, parts_in, names_in, items_in, members_in, to_list, values_of};
ghost use Rattle.cadf_json.specs.Rewritten.{texts_of, without, replaced, all_members, limit_for, limits_of};
ghost use Rattle.cadf_json.specs.Value.{IsValue, text as text_of};
ghost use Rattle.cadf_json.specs.Flat.{decode, Stands};

use crate::Memory;
use crate::node::Node;
use crate::packed::PackedNode;
use crate::rewrite::push_members;
use crate::walk::{Items, Members};
use crate::write::{as_text, bytes_of, write_value};
use std::alloc::Global;
use std::marker::Model;

/// A part of a `Json`.
#[derive(Drop)]
pub struct View<'v> {
    pub(crate) nodes: &'v [PackedNode],
    pub(crate) texts: &'v [u8],
}

impl<'v> Model for View<'v> {
    ghost use Rattle.serde_json.specs.Data.{Data};
    ghost use Rattle.cadf_json.specs.Coding.{data_code};
    ghost use Rattle.cadf_json.specs.Value.{IsValue};
    ghost use Rattle.cadf_json.specs.Flat.{decode, Stands};

    ghost Value = { Data };

    ghost coded = { data_code };

    ghost view = { λ w. decode w.texts.now w.nodes.now };

    ghost invariant = { λ w. Stands w.texts.now (decode w.texts.now w.nodes.now) w.nodes.now × IsValue (decode w.texts.now w.nodes.now) };
}

impl<'v> View<'v> {
    /// Returns the text, or `None` if the part is no text.
    pub fn as_text(&self) -> Option<&'v str>
        ensures { option_map (λ s. s.now) result ≡ as_str self.now }
    {
        match self.nodes[0].node() {
            Node::Text(place) => Some(as_text(bytes_of(self.texts, place))),
            _ => None,
        }
    }

    /// Returns whether the part is `null`. An absent member is no part at all.
    pub fn is_null(&self) -> bool
        ensures { result ≡ is_some (as_null self.now) }
    {
        matches!(self.nodes[0].node(), Node::Null)
    }

    /// Returns whether the part is an object, which may be empty.
    pub fn is_object(&self) -> bool
        ensures { result ≡ is_object self.now }
    {
        matches!(self.nodes[0].node(), Node::Object(_))
    }

    /// Returns whether the part is a list, which may be empty.
    pub fn is_list(&self) -> bool
        ensures { result ≡ is_some (as_array self.now) }
    {
        matches!(self.nodes[0].node(), Node::Array(_))
    }

    /// Counts the items or members: 0 for a scalar.
    pub fn len(&self) -> usize
        ensures { result ≡ length (parts_in self.now) }
    {
        match self.nodes[0].node() {
            Node::Array(extent) => extent.count as usize,
            Node::Object(extent) => extent.count as usize,
            _ => 0,
        }
    }

    /// Returns the value of the member `name`, or `None` if there is none.
    #[tactic(auto, using(crate::proofs::Looks::member_here, crate::proofs::Looks::member_passed, crate::proofs::Looks::member_in))]
    pub fn member(&self, name: &str) -> Option<View<'v>>
        ensures part { result ≡ get name.now self.now }
        ensures value { IfSome result IsValue }
    {
        for member in self.members() {
            if name == member.name {
                return Some(member.value);
            }
        }
        None
    }

    /// Returns the items of a list in order, none of anything else.
    pub fn items(&self) -> Items<'v>
        ensures { result ≡ items_in self.now }
    {
        if self.is_list() {
            Items {
                nodes: &self.nodes[1..],
                texts: self.texts,
            }
        } else {
            Items::empty()
        }
    }

    /// Returns the members of an object in the order of their names, none of anything else.
    pub fn members(&self) -> Members<'v>
        ensures members { result ≡ members_in self.now }
    {
        if self.is_object() {
            Members {
                nodes: &self.nodes[1..],
                texts: self.texts,
            }
        } else {
            Members {
                nodes: &[],
                texts: &[],
            }
        }
    }

    /// Returns the item at `index`, or the value of the member at `index` in the order of names. `None` past the last.
    /// Passes those before it: a loop over all takes `items` or `members`.
    pub fn item(&self, index: usize) -> Option<View<'v>>
        ensures part { result ≡ slice_get (parts_in self.now) index }
        ensures value { IfSome result IsValue }
    {
        if self.is_list() {
            item_at(self.items(), index)
        } else {
            value_at(self.members(), index)
        }
    }

    /// Returns the name of the member at `index` in the order of names. `None` past the last, and if the part is no
    /// object.
    pub fn name_at(&self, index: usize) -> Option<&'v str>
        ensures { option_map (λ s. s.now) result ≡ slice_get (names_in self.now) index }
    {
        let mut left = index;
        for member in self.members() {
            if left == 0 {
                return Some(member.name);
            }
            left -= 1;
        }
        None
    }

    /// Returns whether each member nests at most as deep as the limit of its name, or as `others`.
    pub fn members_nest_within(&self, limits: &[(&str, u8)], others: u8) -> bool
        ensures { result
            ≡ all_members (λ k d. nat_le (nesting d) (limit_for (limits_of limits.now) others k)) (members_in self.now) }
    {
        for member in self.members() {
            if member
                .value
                .nests_deeper(limit_of(limits, others, member.name))
            {
                return false;
            }
        }
        true
    }

    /// Returns whether lists and objects nest deeper than the limit. A part of no more nodes than that doesn't.
    pub(crate) fn nests_deeper(&self, limit: u8) -> bool
        ensures { result ≡ not (nat_le (nesting self.now) limit) }
    {
        self.nodes.len() > limit as usize && self.depth() > limit
    }

    /// Encodes the canonical text of an object without the members of these names, and with this text at that name if
    /// the object has it. Anything else counts as an object without members. `Memory` if an allocation fails. The text
    /// may have room to spare: whoever keeps it gives that back.
    pub fn rewritten_text(
        &self,
        alloc: Global,
        left_out: &[&str],
        name: &str,
        text: &str,
    ) -> Result<String, Memory>
        ensures { IfOk result (λ s. string_bytes s
            ≡ text_of (object_of (replaced name.now (text_value text.now) (without (texts_of left_out.now) (members_in self.now))))) }
    {
        self.type_invariant();
        let mut out = Vec::with_capacity(alloc, self.room())?;
        out.push(b'{')?;
        push_members(alloc, &mut out, self.members(), left_out, name, text)?;
        Ok(unsafe { String::from_utf8_unchecked(out) })
    }

    /// Estimates how many bytes the text has, up to a kilobyte: a short text is then encoded without growing.
    fn room(&self) -> usize {
        self.nodes.len().min(64) * 16
    }

    /// States the type invariant of a part: it is a value. Does nothing.
    pub fn type_invariant(&self)
        ensures { IsValue self.now }
    {
        let _nodes = &self.nodes;
    }

    /// Computes how deep lists and objects nest: 0 for a scalar.
    pub fn depth(&self) -> u8
        ensures depth { result ≡ nesting self.now }
        ensures value { IsValue self.now }
    {
        self.type_invariant();
        depth_of(self)
    }

    /// Encodes the part as canonical text. `Memory` if an allocation fails.
    pub fn text(&self, alloc: Global) -> Result<String, Memory>
        ensures text { IfOk result (λ s. string_bytes s ≡ text_of self.now) }
        ensures value { IsValue self.now }
    {
        self.type_invariant();
        let mut out = Vec::with_capacity(alloc, self.room())?;
        self.write(alloc, &mut out)?;
        let mut text = unsafe { String::from_utf8_unchecked(out) };
        text.shrink_to_fit();
        Ok(text)
    }

    /// Appends the canonical text of the part. `Memory` if an allocation fails.
    pub fn write(&self, alloc: Global, out: &mut Vec<u8>) -> Result<(), Memory>
        ensures { OnOk result (out.new.items ≡ out.old.items ++ text_of self.now) }
    {
        write_value(alloc, self, out)
    }
}

/// Computes how deep lists and objects nest: 0 for a scalar.
#[cycle(depth_of)]
#[tactic(auto, using(crate::proofs::Depths::items_weigh, crate::proofs::Depths::members_weigh, crate::proofs::Depths::list_nests, crate::proofs::Depths::object_nests))]
fn depth_of(view: &View<'_>) -> u8
    ensures { result ≡ nesting view.now }
{
    view.type_invariant();
    let mut deepest = 0;
    for item in view.items() {
        deepest = deepest.max(depth_of(&item));
    }
    for member in view.members() {
        deepest = deepest.max(depth_of(&member.value));
    }
    if view.is_list() || view.is_object() {
        deepest + 1
    } else {
        0
    }
}

/// Returns the item at `index`, or `None` past the last.
fn item_at<'v>(items: Items<'v>, index: usize) -> Option<View<'v>>
    ensures part { result ≡ slice_get (to_list items.entry) index }
    ensures value { IfSome result IsValue }
{
    let mut left = index;
    for item in items {
        if left == 0 {
            return Some(item);
        }
        left -= 1;
    }
    None
}

/// Returns the value of the member at `index`, or `None` past the last.
fn value_at<'v>(members: Members<'v>, index: usize) -> Option<View<'v>>
    ensures part { result ≡ slice_get (values_of members.entry) index }
    ensures value { IfSome result IsValue }
{
    let mut left = index;
    for member in members {
        if left == 0 {
            return Some(member.value);
        }
        left -= 1;
    }
    None
}

/// Returns how deep the member `name` may nest: the limit listed for it, or `others`.
fn limit_of(limits: &[(&str, u8)], others: u8, name: &str) -> u8
    ensures { result ≡ limit_for (limits_of limits.now) others name.now }
{
    for (listed, limit) in limits {
        if name == *listed {
            return *limit;
        }
    }
    others
}
