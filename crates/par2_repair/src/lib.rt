//! The changes of a repair and of a purge, or why they are refused. `par2_journal` plans with it, and `par2_plan`
//! re-exports it. It knows neither stores nor sessions: it reads one folder in memory, and changes nothing. Both commands
//! read the set as a verify does, by `read` of `par2_verify`; a repair also takes its candidates and its matches from there,
//! and finds slices by `found_windows` of `par2_slices`.
#![tactic(auto)]

mod repair;
mod restored;

pub use par2_files::Changes;
pub use par2_spec::Fault;
pub use repair::{Draft, draft_repair, plan_purge};
