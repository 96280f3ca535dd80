//! The mark: the place in the log since which an interval's first item is an image.

ghost use Rattle.std.specs.Prelude.{◌≡◌, []};
ghost use Rattle.area_redo.specs.Redo.{AreaBytes};
ghost use Rattle.area_redo.specs.Standing.{Way};
ghost use Rattle.area_redo.specs.Steps.{with_mark};
ghost use Rattle.dedb_area.specs.Standing.{Holding, AreasStand};
ghost use Rattle.dedb_area.specs.Keeping.{IsMarked};

use crate::Areas;
use area_staging::clear;
use fp_site::Site;

impl Areas {
    /// Sets the mark at the end of the entries, where a checkpoint begins: since then no interval has an item. Every
    /// entry has to be sealed. Takes no memory.
    pub fn mark(&mut self)
        ensures { IsMarked self.old self.new }
    {
        clear(&mut self.imaged);
    }
}

/// Where every entry is sealed, areas stand behind a mark at their end.
pub fn a_mark_keeps_the_areas<S: Site>(site: &S)
    ensures { (way : Way) (bytes : AreaBytes) (before after : Holding)
        → AreasStand way bytes (S.disk site.now) before
        → way.unsealed ≡ []
        → IsMarked before after
        → AreasStand (with_mark way) bytes (S.disk site.now) after }
{}
