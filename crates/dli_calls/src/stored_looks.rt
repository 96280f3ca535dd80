//! What looks at the segments of a main storage database in the store see.
use fp_model::MsdbDef;
use msdb_calls::SegmentLooks;
use msdb_store::MsdbStore;

// The number of the database, and the store that has its segments. A look without a hold is shown those that stand.
#[derive(Drop)]
pub(crate) struct StoredLooks<'a> {
    pub(crate) number: u8,
    pub(crate) msdbs: &'a MsdbStore,
}

impl SegmentLooks for StoredLooks<'_> {
    ghost use Rattle.dli_calls.specs.Looks.{IsStored, segments_in};

    ghost is_of = { λ looks def. IsStored looks.msdbs.now looks.number def };

    ghost stands = { λ looks. segments_in looks.msdbs.now looks.number };

    ghost shows = { λ looks. segments_in looks.msdbs.now looks.number };

    fn standing(&self, _: &MsdbDef, key: &[u8]) -> Option<&[u8]> {
        self.msdbs.look(self.number, key)
    }

    fn visible(&self, _: &MsdbDef, key: &[u8]) -> Option<&[u8]> {
        self.msdbs.look(self.number, key)
    }

    fn visible_after(&self, _: &MsdbDef, key: Option<&[u8]>) -> Option<&[u8]> {
        self.msdbs.after(self.number, key)
    }
}
