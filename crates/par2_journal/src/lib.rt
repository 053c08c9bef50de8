//! Sessions on a folder: create, repair and purge, undo and redo of each, and the journals from which a later run opens
//! a session. `par2_tool` uses it. It knows no store, and leaves the bytes of journals, and whether their entries can be
//! applied to a folder, to `par2_journal_format`.
#![tactic(auto)]

mod commands;
mod opening;
mod session;
mod taking_back;

pub use commands::{Journals, Prepared, SessionFault, Step, Steps};
pub use opening::{Next, Opened, Opening};
pub use par2_create::CreateArgs;
pub use par2_journal_format::opens_as_is;
pub use par2_repair::{Changes, Fault};
pub use par2_spec::{Action, JournalFault};
pub use par2_verify::{Report, State, TargetReport};
pub use session::{NothingToRedo, NothingToUndo, Session, ready_changes_apply};
pub use taking_back::Halfway;
