//! The report of a verify, and what a repair reads as a verify does: the set of the base, the candidates, and the matches
//! of incomplete targets. `par2_repair` plans by these, `par2_journal` verifies by `check`, and `par2_plan` re-exports
//! `check`. It knows neither stores nor sessions, and rebuilds nothing: it reads one folder in memory. Each command calls
//! `read` for the set; the targets' files are found by `candidates` and `matches`, and their slices by `found_windows` of
//! `par2_slices`.
#![tactic(auto)]

mod matching;
mod reading;
mod report;

pub use matching::{Incomplete, candidates, is_incomplete, matches, unmatched};
pub use par2_spec::Verdict;
pub use reading::{Reading, read};
pub use report::{Report, State, TargetReport, all_pairs, check};
