//! How a transaction holds anchors.
ghost use Rattle.dedb_calls.specs.Anchors.{Ascend};
ghost use Rattle.dedb_calls.specs.Progress.{DedbProgress};
ghost use Rattle.fp_model.specs.declared.calls.Mode.{Mode as ModeOf};
ghost use Rattle.fp_model.specs.declared.calls.Resource.{Resource as ResourceOf};
ghost use Rattle.fp_model.specs.declared.calls.Resource.TheVariants.{Anchor};
ghost use Rattle.std.specs.Prelude.{◌≡◌, Option as OptionOf};

use crate::work::DedbWork;
use fp_model::Mode;

/// How a transaction holds anchors. Where others run beside it that is by the locks of its region.
pub trait AnchorLocks {
    /// How a transaction that keeps this holds each resource.
    ghost modes: { Self → DedbProgress → ResourceOf → OptionOf ModeOf };

    /// How a transaction holds an anchor of the data entry database of this number among its kind, if it does.
    fn mode_of(&self, work: &DedbWork, dedb: u8, anchor: u32) -> Option<Mode>
        requires { Ascend work.now.anchors }
        ensures { result ≡ modes self.now work.now (Anchor dedb anchor) };
}
