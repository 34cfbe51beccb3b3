//! Seals of sites by windows of time, proofs of growth between two of them, and what such a proof says.
#![tactic(auto)]

mod growth_items;
mod growth_lines;
mod judged;
mod laws;
mod part_name;
mod roots;
mod seal_items;
mod seal_lines;
mod site_fault;
mod site_growth;
mod site_parts;
mod site_seal;
mod unit_line;

pub use growth_items::GrowthItem;
pub use judged::site_grown;
pub use laws::{
    accepted_bytes_are_site_growths, accepted_bytes_are_site_seals, parts_stay,
    site_growth_file_is_injective, site_growth_is_read_back, site_seal_file_is_injective,
    site_seal_is_read_back,
};
pub use part_name::PartName;
pub use seal_items::{SealItem, SealedPart};
pub use site_fault::SiteFault;
pub use site_growth::SiteGrowth;
pub use site_seal::SiteSeal;
