//! What looks at the segments of a main storage database see, at the places at which it is looked at.
use fp_model::MsdbDef;
use msdb_calls::SegmentLooks;
use past_segments::PastSegments;

// Its segments at every place, the place of the transaction, and that of looks without a hold.
#[derive(Drop)]
pub(crate) struct PlacedLooks<'a> {
    pub(crate) past: &'a PastSegments,
    pub(crate) place: u64,
    pub(crate) note: u64,
}

impl SegmentLooks for PlacedLooks<'_> {
    ghost use Rattle.past_segments.specs.Pasts.{IsPastOf};
    ghost use Rattle.past_segments.specs.Times.{database_at};

    ghost is_of = { λ looks def. IsPastOf def looks.past.now };

    ghost stands = { λ looks. database_at looks.place looks.past.now };

    ghost shows = { λ looks. database_at looks.note looks.past.now };

    fn standing(&self, _: &MsdbDef, key: &[u8]) -> Option<&[u8]> {
        self.past.look(self.place, key)
    }

    fn visible(&self, _: &MsdbDef, key: &[u8]) -> Option<&[u8]> {
        self.past.look(self.note, key)
    }

    fn visible_after(&self, _: &MsdbDef, key: Option<&[u8]>) -> Option<&[u8]> {
        self.past.after(self.note, key)
    }
}
