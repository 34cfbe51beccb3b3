//! A node in 8 bytes.
ghost use Rattle.std.specs.Prelude.{◌≡◌, ◌≤◌, ◌^◌, IfOk, IfErr};
ghost use Rattle.cadf_json.specs.Packed.{numbers_of, Spans};

use crate::node::{Extent, Node, Place};
use std::alloc::AllocError;
use std::marker::Model;

/// A node, in two numbers: where its text begins or how many nodes it has, and how long the text is or how many items
/// there are, beside two bits of its kind.
#[derive(Clone, Copy, Drop)]
pub(crate) struct PackedNode {
    first: u32,
    rest: u32,
}

impl Model for PackedNode {
    ghost use Rattle.std.specs.Prelude.{◌≡◌};
    ghost use Rattle.std.proofs.Common.{ap};
    ghost use Rattle.cadf_json.specs.Packed.{node_of, numbers_of, IsPacked};
    ghost use Rattle.cadf_json.specs.declared.node.Node.{Node as NodeModel};

    ghost Value = { NodeModel };

    ghost view = { λ p. node_of p.first p.rest };

    ghost invariant = { λ p. IsPacked p.first p.rest };

    ghost inverse = { λ d. record { first = (numbers_of d).0; rest = (numbers_of d).1 } };

    ghost inverse_ok = { λ a h. ap (λ p. record { first = p.0; rest = p.1 }) h.are };
}

/// The greatest number that has room beside two bits.
const MOST: u32 = u32::MAX / 4;

impl PackedNode {
    /// `null`.
    pub(crate) const NULL: PackedNode = PackedNode { first: 0, rest: 0 };

    /// Packs a node. `Memory` if and only if its second number has no room: its text has a GiB, or it has 2^30 items.
    #[inline(always)]
    pub(crate) fn of(node: Node) -> Result<PackedNode, AllocError>
        requires { Spans node }
        ensures ok { IfOk result (λ packed. packed ≡ node) }
        ensures err { IfErr result (λ _. 2 ^ 32 ≤ (numbers_of node).1) }
    {
        let (first, more, kind) = match node {
            Node::Null => (0, 0, 0),
            Node::Bool(false) => (0, 1, 0),
            Node::Bool(true) => (0, 2, 0),
            Node::Fraction => (0, 3, 0),
            Node::Whole(place) => (place.start, (place.end - place.start).saturating_add(4), 0),
            Node::Text(place) => (place.start, place.end - place.start, 1),
            Node::Array(extent) => (extent.size, extent.count, 2),
            Node::Object(extent) => (extent.size, extent.count, 3),
        };
        if more > MOST {
            return Err(AllocError);
        }
        Ok(PackedNode {
            first,
            rest: more * 4 + kind,
        })
    }

    /// Returns the node.
    #[inline(always)]
    pub(crate) fn node(self) -> Node
        ensures { result ≡ self }
    {
        let more = self.rest / 4;
        match self.rest % 4 {
            0 => match more {
                0 => Node::Null,
                1 => Node::Bool(false),
                2 => Node::Bool(true),
                3 => Node::Fraction,
                _ => Node::Whole(Place {
                    start: self.first,
                    end: self.first + (more - 4),
                }),
            },
            1 => Node::Text(Place {
                start: self.first,
                end: self.first + more,
            }),
            2 => Node::Array(Extent {
                size: self.first,
                count: more,
            }),
            _ => Node::Object(Extent {
                size: self.first,
                count: more,
            }),
        }
    }
}
