//! A proof of growth between two seals of a site.
ghost use Rattle.std.specs.Prelude.{◌≡◌};
ghost use Rattle.cadf_event.specs.Known.{IsNameText};
ghost use Rattle.cadf_siteseal.specs.GrowthItems.{IsItem, growth_items};
ghost use Rattle.cadf_siteseal.specs.SiteFile.{AllFollow};

use crate::growth_items::GrowthItem;
use cadf_event::Name;
use cadf_split::Unit;
use std::marker::Model;

/// A proof of how a site came of an earlier one: its log, the unit of its windows, and its lines after these: for each part
/// that changed its name, and then the parts of the trees over its facts and over their keys.
#[derive(Drop)]
pub struct SiteGrowth {
    pub(crate) log: Name,
    pub(crate) unit: Unit,
    pub(crate) items: Vec<GrowthItem>,
}

impl Model for SiteGrowth {
    ghost use Rattle.cadf_siteseal.specs.GrowthItems.{SiteGrowthModel, IsItem, coded_site_growth, growth_items};
    ghost use Rattle.cadf_siteseal.specs.SiteFile.{AllFollow};

    ghost Value = { SiteGrowthModel };

    ghost coded = { coded_site_growth };

    ghost view = { λ s. record { log = s.log; unit = s.unit; items = s.items.items } };

    ghost invariant = { λ s. AllFollow growth_items IsItem s.unit growth_items.start s.items.items };
}

impl SiteGrowth {
    /// States the type invariant of such a proof. Does nothing.
    pub fn type_invariant(&self)
        ensures log { IsNameText self.now.log }
        ensures items { AllFollow growth_items IsItem self.now.unit growth_items.start self.now.items }
    {
        self.log.type_invariant();
        let _items = &self.items;
    }

    /// Returns the identifier of the log.
    pub fn log(&self) -> &Name
        ensures { result.now ≡ self.now.log }
    {
        &self.log
    }

    /// Returns the unit of the windows.
    pub fn unit(&self) -> Unit
        ensures { result ≡ self.now.unit }
    {
        self.unit
    }

    /// Returns the lines after that of the unit.
    pub fn items(&self) -> &[GrowthItem]
        ensures { result.now ≡ self.now.items }
    {
        self.items.as_slice()
    }
}
