//! The whole queue, call by call, and back again.
ghost use Rattle.fp_model.specs.FitCalls.{IsFitDeferred};
ghost use Rattle.fp_model.specs.WellFormed.{IsMsdbDef};
ghost use Rattle.past_segments.specs.Pasts.{ArePastsOf, databases_at};
ghost use Rattle.past_segments.specs.Times.{IsSettledBy};
ghost use Rattle.past_settling.specs.Queues.{IsQueue};
ghost use Rattle.past_settling.specs.inside.Queues.{LeavesAll, any_names, fault_at};
ghost use Rattle.std.specs.List.{AllByRecursion};
ghost use Rattle.std.specs.Prelude.{◌≡◌, ◌<◌, ◌^◌, length};

use crate::call::settle_call;
use crate::fault::QueueFault;
use fld_calls::SettleFault;
use fp_model::{Deferred, Defs};
use past_segments::PastSegments;
use std::alloc::Global;

// How the call of this place in the queue fails.
fn fault_at(call: u32, fault: SettleFault) -> QueueFault
    ensures { result ≡ fault_at call fault }
{
    match fault {
        SettleFault::Bad { place, found } => QueueFault::Verify {
            call,
            fsa: place,
            found,
        },
        SettleFault::Memory => QueueFault::Memory,
    }
}

/// Settles calls from a place on, each on what those before it left, up to the first that fails.
pub(crate) fn settle_all(
    alloc: Global,
    pasts: &mut [PastSegments],
    defs: &Defs,
    place: u64,
    calls: &[Deferred],
) -> Result<(), QueueFault>
    requires good { AllByRecursion IsMsdbDef defs.now.msdbs }
    requires are { ArePastsOf defs.now.msdbs pasts.old }
    requires settled { AllByRecursion (IsSettledBy place) pasts.old }
    requires fit { AllByRecursion (IsFitDeferred defs.now.msdbs) calls.now }
    requires few { length calls.now < 2 ^ 32 }

    ensures queue { IsQueue defs.now.msdbs calls.now (databases_at place pasts.old) result
        (databases_at place pasts.new) }
    ensures leaves { LeavesAll defs.now.msdbs place (any_names defs.now.msdbs calls.now) pasts.old pasts.new }
{
    for at in 0..calls.len() {
        if let Err(fault) = settle_call(alloc, pasts, defs, place, &calls[at]) {
            return Err(fault_at(at as u32, fault));
        }
    }
    Ok(())
}
