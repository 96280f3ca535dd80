//! The areas of a site: the intervals that wait to be written, and what calls on areas make of them.
#![tactic(auto)]

mod anchors;
mod applying;
mod areas;
mod changing;
mod committing;
mod counting;
mod fault;
mod formatting;
mod leading;
mod marking;
mod opening;
mod publishing;
mod purging;
mod reading;
mod syncing;

pub use applying::{ApplyFault, items_that_fit_may_be_applied};
pub use area_staging::Staging;
pub use area_states::Place;
pub use areas::Areas;
pub use fault::AreaFault;
pub use formatting::formatted_areas_stand;
pub use leading::{
    a_mark_keeps_the_databases, an_entry_leads_on, formatted_databases_stand,
    kept_areas_keep_the_databases, sealed_entries_leave_the_others,
    the_newest_bytes_stand_for_the_newest_databases,
};
pub use marking::a_mark_keeps_the_areas;
pub use publishing::{a_publish_keeps_the_areas, dropped_areas_stand};
pub use purging::a_purged_area_has_the_purged_state;
