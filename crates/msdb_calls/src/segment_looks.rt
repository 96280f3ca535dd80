//! What looks at the segments of a main storage database see.
ghost use Rattle.fp_model.specs.State.{segment_after, segment_of};
ghost use Rattle.fp_model.specs.declared.database.Msdb.{Msdb as MsdbOf};
ghost use Rattle.fp_model.specs.declared.definitions.MsdbDef.{MsdbDef as DefOf};
ghost use Rattle.std.specs.Option.{option_copied};
ghost use Rattle.std.specs.Prelude.{◌≡◌};

use fp_model::MsdbDef;

/// What looks at the segments of one main storage database see: those that stand, and those that a look without a hold
/// is shown. While transactions run both are the committed ones; for a transaction that is run again they are those of
/// two places of the log.
pub trait SegmentLooks {
    /// They look at a database with this definition.
    ghost is_of: { Self → DefOf → Type 0 };

    /// The segments that stand, which hold gets and inserts look at.
    ghost stands: { Self → MsdbOf };

    /// Those that a look without a hold is shown.
    ghost shows: { Self → MsdbOf };

    /// The segment of a key among those that stand.
    fn standing(&self, def: &MsdbDef, key: &[u8]) -> Option<&[u8]>
        requires { is_of self.now def.now }
        ensures { option_copied result ≡ segment_of def.now (stands self.now) key.now };

    /// The segment of a key among those that are shown.
    fn visible(&self, def: &MsdbDef, key: &[u8]) -> Option<&[u8]>
        requires { is_of self.now def.now }
        ensures { option_copied result ≡ segment_of def.now (shows self.now) key.now };

    /// The first segment with a greater key, or the first of all, among those that are shown.
    fn visible_after(&self, def: &MsdbDef, key: Option<&[u8]>) -> Option<&[u8]>
        requires { is_of self.now def.now }
        ensures { option_copied result ≡ segment_after def.now (shows self.now) (option_copied key.entry) };
}
