//! The file of a proof of growth of a site.
ghost use Rattle.std.specs.Prelude.{◌≡◌, ◌∷◌, [], None, IfOk, IfErr, OnOk, refl};
ghost use Rattle.cadf_linefile.specs.Answers.{CauseIs};
ghost use Rattle.cadf_siteseal.specs.GrowthItems.{IsItem, IsSiteGrowth, item_in, growth_items, site_growth_kind};
ghost use Rattle.cadf_siteseal.specs.SiteFile.{cause_after, item_cause, site_lines};
ghost use Rattle.cadf_siteseal.specs.SiteLines.{AreTold, IsPut, IsGrowthTold, growth_told_lines};

use crate::growth_items::{GrowthItem, GrowthState, cause_of, item_in, item_line, note};
use crate::site_growth::SiteGrowth;
use crate::unit_line::{unit_in, unit_line};
use cadf_event::Name;
use cadf_json::Memory;
use cadf_linefile::{Cause, LineFault, ModelFile};
use cadf_split::Unit;
use std::alloc::Global;

/// The unit and the items of the lines so far, and what is kept of them.
#[derive(Drop)]
pub struct GrowthTold {
    unit: Unit,
    items: Vec<GrowthItem>,
    state: GrowthState,
}

/// Makes what is told by the line of the unit. `Err` if it is no such line.
fn first_told(alloc: Global, line: &[u8]) -> Result<GrowthTold, LineFault>
    ensures ok { IfOk result (λ t. (cause_after growth_items [] line.now ≡ None) × (site_lines growth_items t.unit t.items.items ≡ line.now ∷ [])
        × AreTold growth_items IsItem t.unit t.items.items t.state) }
    ensures err { IfErr result (λ e. CauseIs e (cause_after growth_items [] line.now)) }
{
    match unit_in(line) {
        None => Err(LineFault::Here(Cause::Shape)),
        Some(unit) => Ok(GrowthTold {
            unit,
            items: Vec::new(alloc),
            state: GrowthState {
                window: None,
                keys: false,
            },
        }),
    }
}

/// Appends the item of a line. `Err` if it is no such line, or may not follow.
fn put_item(alloc: Global, told: &mut GrowthTold, line: &[u8]) -> Result<(), LineFault>
    ensures ok { OnOk result (IsPut growth_items told.old.unit told.old.items.items told.old.state line.now
        told.new.unit told.new.items.items told.new.state) }
    ensures err { IfErr result (λ e. CauseIs e (item_cause growth_items told.old.state (item_in told.old.unit line.now))) }
{
    let Some(item) = item_in(alloc, told.unit, line)? else {
        return Err(LineFault::Here(Cause::Shape));
    };
    if let Some(cause) = cause_of(&told.state, &item) {
        return Err(LineFault::Here(cause));
    }
    note(alloc, &mut told.state, &item)?;
    told.items.push(item)?;
    Ok(())
}

impl ModelFile for SiteGrowth {
    ghost kind = { site_growth_kind };

    ghost holds = { IsSiteGrowth };

    ghost log = { λ s. s.log };

    ghost lines = { λ s. site_lines growth_items s.unit s.items };

    ghost body = { λ _. refl };

    type Told = Option<GrowthTold>;

    ghost told_lines = { growth_told_lines };

    ghost sound = { IsGrowthTold };

    fn accepted() {}

    fn first_line() -> &'static str {
        "CADF-SITE-GROWTH 1"
    }

    fn nothing() -> Option<GrowthTold> {
        None
    }

    fn put_line(
        alloc: Global,
        told: &mut Option<GrowthTold>,
        line: &[u8],
    ) -> Result<(), LineFault> {
        match told {
            None => {
                *told = Some(first_told(alloc, line)?);
                Ok(())
            }
            Some(told) => put_item(alloc, told, line),
        }
    }

    fn is_whole(told: &Option<GrowthTold>) -> bool {
        told.is_some()
    }

    fn of_lines(name: Name, told: Option<GrowthTold>) -> SiteGrowth {
        match told {
            Some(told) => SiteGrowth {
                log: name,
                unit: told.unit,
                items: told.items,
            },
            None => unreachable!(),
        }
    }

    fn log_name(&self) -> &Name {
        self.log()
    }

    fn line_count(&self) -> usize {
        self.items().len() + 1
    }

    fn line_at(&self, alloc: Global, place: usize) -> Result<Vec<u8>, Memory> {
        if place == 0 {
            return unit_line(alloc, self.unit());
        }
        item_line(alloc, &self.items()[place - 1])
    }
}
