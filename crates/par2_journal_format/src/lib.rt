//! The bytes of journals: versions 1 and 2 are read, version 2 is written. It also tells by a folder and a decoded journal
//! whether the entries can be applied, and how a halfway command is taken back. `par2_journal` stores and opens sessions
//! with it. It knows no session and no plan of a command, so it is proved beside the crates that plan.
#![tactic(auto)]

mod journal;
mod reading;
mod walking;
mod writing;

pub use journal::{HalfwayPart, HalfwayPartView, Journal, JournalView, one_reading};
pub use par2_spec::{JournalFault as DecodeFault, Version};
pub use reading::{Untested, decode, decode_untested, is_sealed};
pub use walking::{go_back, opens_as_is, ready, way_back};
pub use writing::{JournalBytes, begin, encode, finish_both};
