//! Tests over sites in memory: logs, restarts, checkpoints, areas, the turns of the core and whole commands, also with
//! each call failing and stopped at each call.
#![tactic(auto)]

#[cfg(test)]
mod area_commits;
#[cfg(test)]
mod area_stops;
#[cfg(test)]
mod checkpoint_commits;
#[cfg(test)]
mod checkpoint_stops;
#[cfg(test)]
mod commands;
#[cfg(test)]
mod core_rows;
#[cfg(test)]
mod core_stops;
#[cfg(test)]
mod formats;
#[cfg(test)]
mod groups;
#[cfg(test)]
mod logs;
#[cfg(test)]
mod pool_faults;
#[cfg(test)]
mod restarts;
#[cfg(test)]
mod run_stops;
#[cfg(test)]
mod runs;
#[cfg(test)]
mod steps;
#[cfg(test)]
mod systems;
#[cfg(test)]
mod telling;
#[cfg(test)]
mod texts;
