//! The changes or the report of each command, on one folder in memory: the calls of `par2_create`, `par2_verify`
//! and `par2_repair` under one name. Tests use it, the program doesn't, because a session (`par2_journal`) calls those
//! crates with its checkpoints and digests. It knows neither stores nor sessions.
#![tactic(auto)]

mod create;
mod repair;

pub use create::plan_create;
pub use par2_repair::{Changes, Fault, plan_purge};
pub use par2_spec::CreateArgs;
pub use par2_verify::{Report, State, TargetReport, Verdict, check};
pub use repair::plan_repair;
