//! PAR2 2.0 packets: finding them in bytes (`Packets`), reading their bodies (`read_main` and so on), and writing them
//! (`append_main` and so on; `with_undigested` and `digest_recoveries` for recovery packets).
//!
//! Create and sets of volumes depend on it. It must not know folders, disks or the arithmetic of recovery slices.
#![tactic(auto)]

mod append;
mod cursor;
mod record;
mod scan;
mod undigested;
mod views;

pub use append::{append_creator, append_desc, append_ifsc, append_main, append_recovery};
pub use par2_spec::Kind;
pub use record::{DuplicateId, FileRecord, Pair, file_id, main_id, sort_ids};
pub use scan::{Packet, Packets};
pub use undigested::{digest_recoveries, with_undigested};
pub use views::{
    DescView, IfscView, MainView, RecoveryView, read_desc, read_ifsc, read_main, read_recovery,
};
