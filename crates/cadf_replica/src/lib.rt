//! Atoms, replicas, inventories, rulings and schedules under one name: the public interface of the crates below.
#![tactic(auto)]

pub mod laws;

pub use cadf_atom::{
    Atom, AtomFault, KeyKind, PathKind, Ruling, RulingFault, next_path_kind, path_kind,
};
pub use cadf_event::{Document, Entity, Name, Property, Sighting};
pub use cadf_join::{Memory, Visitor};
pub use cadf_line::Letter;
pub use cadf_rehearsal::{RehearseFault, Turn, rehearse};
pub use cadf_set::{Inventory, Replica, ReplicaFault};
pub use json::Scratch;
