//! The nodes of a value, in preorder: a list or an object, then the nodes of its items, or of each name and its value.
ghost use Rattle.std.specs.Prelude.{◌≡◌, ◌<◌, ◌^◌};
ghost use Rattle.cadf_json.specs.Flat.{size_of};

/// Where a text is among the decoded texts.
#[derive(Clone, Copy, Drop)]
pub(crate) struct Place {
    pub(crate) start: u32,
    pub(crate) end: u32,
}

/// How many nodes a list or an object has, itself included, and how many items or members.
#[derive(Clone, Copy, Drop)]
pub(crate) struct Extent {
    pub(crate) size: u32,
    pub(crate) count: u32,
}

/// A node.
#[derive(Clone, Copy, Drop)]
pub(crate) enum Node {
    Null,
    Bool(bool),
    /// A whole number, in canonical spelling.
    Whole(Place),
    /// Any other number: it counts only if no later member replaces it.
    Fraction,
    /// A text, or the name of a member.
    Text(Place),
    Array(Extent),
    Object(Extent),
}

impl Node {
    /// Returns how many nodes the value has that begins with this one.
    pub(crate) fn size(self) -> usize
        ensures value { result ≡ size_of self }
        ensures small { result < 2 ^ 32 }
    {
        match self {
            Node::Null | Node::Bool(_) | Node::Whole(_) | Node::Fraction | Node::Text(_) => 1,
            Node::Array(extent) | Node::Object(extent) => extent.size as usize,
        }
    }
}
