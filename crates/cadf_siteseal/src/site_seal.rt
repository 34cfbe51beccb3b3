//! A seal of a site by windows of time.
ghost use Rattle.std.specs.Prelude.{◌≡◌};
ghost use Rattle.cadf_event.specs.Known.{IsNameText};
ghost use Rattle.cadf_siteseal.specs.SealItems.{IsItem, seal_items};
ghost use Rattle.cadf_siteseal.specs.SiteFile.{AllFollow};

use crate::seal_items::SealItem;
use cadf_event::Name;
use cadf_split::Unit;
use std::marker::Model;

/// A seal of a site: its log, the unit of its windows, and its lines after these: the first window that is kept, if some may
/// have gone; the windows that went; and the parts that have atoms.
#[derive(Drop)]
pub struct SiteSeal {
    pub(crate) log: Name,
    pub(crate) unit: Unit,
    pub(crate) items: Vec<SealItem>,
}

impl Model for SiteSeal {
    ghost use Rattle.cadf_siteseal.specs.SealItems.{SiteSealModel, IsItem, coded_site_seal, seal_items};
    ghost use Rattle.cadf_siteseal.specs.SiteFile.{AllFollow};

    ghost Value = { SiteSealModel };

    ghost coded = { coded_site_seal };

    ghost view = { λ s. record { log = s.log; unit = s.unit; items = s.items.items } };

    ghost invariant = { λ s. AllFollow seal_items IsItem s.unit seal_items.start s.items.items };
}

impl SiteSeal {
    /// States the type invariant of a site seal. Does nothing.
    pub fn type_invariant(&self)
        ensures log { IsNameText self.now.log }
        ensures items { AllFollow seal_items IsItem self.now.unit seal_items.start self.now.items }
    {
        self.log.type_invariant();
        let _items = &self.items;
    }

    /// Returns the identifier of the log.
    pub fn log(&self) -> &Name
        ensures { result.now ≡ self.now.log }
    {
        &self.log
    }

    /// Returns the unit of the windows.
    pub fn unit(&self) -> Unit
        ensures { result ≡ self.now.unit }
    {
        self.unit
    }

    /// Returns the lines after that of the unit.
    pub fn items(&self) -> &[SealItem]
        ensures { result.now ≡ self.now.items }
    {
        self.items.as_slice()
    }
}
