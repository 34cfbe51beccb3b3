//! JSON values whose numbers are whole, each kept flat: its nodes in one vector, its decoded texts in another; their
//! canonical text; and sources and sinks of bytes.
#![tactic(auto)]

mod apart;
mod front;
mod laws;
mod node;
mod number;
mod order;
mod packed;
mod plain_run;
mod push;
mod read;
mod rewrite;
mod stream;
mod transfer;
mod value;
mod view;
mod walk;
mod write;

pub use crate::apart::ItemVisitor;
pub use crate::front::front_of;
pub use crate::laws::{
    bytes_spell_values, depth_limit_is_127, text_is_injective, text_is_one_line,
    text_spells_its_value,
};
pub use crate::plain_run::plain_length;
pub use crate::stream::{Failed, FromStd, Sink, Source};
pub use crate::transfer::{OutFault, ReadLimitFault, read_rest, read_to_limit, write_all};
pub use crate::value::{Json, JsonFault, quoted};
pub use crate::view::View;
pub use crate::walk::{Items, Member, Members};
pub use crate::write::push_quoted;
pub use std::alloc::AllocError as Memory;
