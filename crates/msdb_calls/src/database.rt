//! The main storage database that a call names.
ghost use Rattle.fp_model.specs.CheckpointText.{IsMsdbOf};
ghost use Rattle.fp_model.specs.State.{key_of, segment_after, segment_of};
ghost use Rattle.msdb_calls.specs.Looks.{LookAt};
ghost use Rattle.std.specs.Option.{option_copied};
ghost use Rattle.std.specs.Prelude.{◌≡◌, ◌<◌, IfSome, Some, length, slice_get};

use crate::segment_looks::SegmentLooks;
use fp_model::{Defs, MsdbDef, key_of};

/// A main storage database: its number and its definition.
#[derive(Drop)]
pub struct Database<'a> {
    pub number: u8,
    pub def: &'a MsdbDef,
}

// The key of a segment: its first field.
pub(crate) fn key_in<'a>(def: &MsdbDef, segment: &'a [u8]) -> &'a [u8]
    ensures { result.now ≡ key_of def.now.fields segment.now }
{
    key_of(def.fields.as_slice(), segment)
}

impl<'a> Database<'a> {
    /// The one of this number.
    pub fn of(number: u8, defs: &'a Defs) -> Database<'a>
        requires { number < length defs.now.msdbs }
        ensures number { result.number ≡ number }
        ensures there { slice_get defs.now.msdbs result.number ≡ Some result.def.now }
    {
        Database {
            number,
            def: &defs.msdbs.as_slice()[usize::from(number)],
        }
    }
}

// Looks at its segments.
impl Database<'_> {
    // The segment of a key among those that stand.
    pub(crate) fn standing<'s, L: SegmentLooks>(&self, looks: &'s L, key: &[u8]) -> Option<&'s [u8]>
        requires { LookAt self.now.def.now (L.is_of looks.now self.now.def.now) (L.stands looks.now)
            (L.shows looks.now) }
        ensures segment { option_copied result ≡ segment_of self.now.def.now (L.stands looks.now) key.now }
        ensures whole { IfSome result (λ segment. length segment.now ≡ self.now.def.now.length) }
    {
        looks.standing(self.def, key)
    }

    // The segment of a key among those that are visible.
    pub(crate) fn visible<'s, L: SegmentLooks>(&self, looks: &'s L, key: &[u8]) -> Option<&'s [u8]>
        requires { LookAt self.now.def.now (L.is_of looks.now self.now.def.now) (L.stands looks.now)
            (L.shows looks.now) }
        ensures segment { option_copied result ≡ segment_of self.now.def.now (L.shows looks.now) key.now }
        ensures whole { IfSome result (λ segment. length segment.now ≡ self.now.def.now.length) }
    {
        looks.visible(self.def, key)
    }

    // The first visible segment with a greater key, or the first of all.
    pub(crate) fn visible_after<'s, L: SegmentLooks>(
        &self,
        looks: &'s L,
        key: Option<&[u8]>,
    ) -> Option<&'s [u8]>
        requires { LookAt self.now.def.now (L.is_of looks.now self.now.def.now) (L.stands looks.now)
            (L.shows looks.now) }
        ensures segment { option_copied result ≡ segment_after self.now.def.now (L.shows looks.now)
            (option_copied key.entry) }
        ensures whole { IfSome result (λ segment. length segment.now ≡ self.now.def.now.length) }
    {
        looks.visible_after(self.def, key)
    }
}
