//! Laws of repair, composed of those of `par2_spec`: what a repair restores, and when a set was made from known files.
//! Each law is the contract of an empty function, and its statement is in `par2_spec`. `par2_journal` and
//! `par2_tool` are built on this crate, which must not know how anything is computed, stored or printed.
#![tactic(auto)]

pub mod answers;
pub mod creates;
pub mod restored_files;
pub mod sets;
