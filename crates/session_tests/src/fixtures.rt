//! Folders and the arguments of creates. The helpers of all tests take only the allocator and return what holds, so
//! that each test needs one assertion.
use crate::calls::{applied, reserve};
use par2_folder::{Bytes, Change, Folder, Name};
use par2_plan::CreateArgs;
use std::alloc::{AllocError, Global};

/// Why a step of a test failed.
#[derive(Debug, Drop)]
pub enum Trouble {
    Memory,
    Refused,
}

impl From<AllocError> for Trouble {
    fn from(_: AllocError) -> Trouble {
        Trouble::Memory
    }
}

/// The name and the bytes of a file.
pub type File = (&'static str, &'static [u8]);

/// Only the file `a`.
pub const A: &[File] = &[("a", b"abcdefgh")];

/// The words of a command.
pub fn words_of(alloc: Global, words: &[&str]) -> Result<Vec<String>, AllocError> {
    let mut list = Vec::new(alloc);
    for word in words {
        list.push(String::from_str(alloc, word)?)?;
    }
    Ok(list)
}

/// A create without recovery slices.
pub fn args_of(
    alloc: Global,
    slice: u64,
    base: &str,
    words: &[&str],
) -> Result<CreateArgs, AllocError> {
    Ok(CreateArgs {
        slice,
        count: 0,
        first: 0,
        base: String::from_str(alloc, base)?,
        inputs: words_of(alloc, words)?,
        overwrite: false,
    })
}

// Writes a file into a folder that has space for it.
fn write(alloc: Global, folder: &mut Folder, string: &str, bytes: &[u8]) -> Result<(), Trouble> {
    let bytes = Bytes::copy_of(alloc, bytes)?;
    let Ok(name) = Name::new(string) else {
        return Err(Trouble::Refused);
    };
    apply(folder, Change::Write(name, bytes))
}

/// Makes a change.
pub fn apply(folder: &mut Folder, mut change: Change) -> Result<(), Trouble> {
    if applied(folder, &mut change) {
        Ok(())
    } else {
        Err(Trouble::Refused)
    }
}

/// A folder of these files.
pub fn folder_of(alloc: Global, files: &[(&str, &[u8])]) -> Result<Folder, Trouble> {
    let mut folder = Folder::new(alloc);
    reserve(&mut folder, files.len())?;
    for file in files {
        write(alloc, &mut folder, file.0, file.1)?;
    }
    Ok(folder)
}
