//! The folders and words of the calls.

use anyhow::{Error, Result};
use par2_folder::{Bytes, Change, Folder, Name, copies_of};
use par2_plan::{CreateArgs, plan_create};
use recovery_calls::folder_of;
use std::alloc::{AllocError, Global};

/// The name with this string.
pub fn name_of(bytes: &str) -> Result<Name> {
    Name::new(bytes).map_err(|_| Error::msg("no name"))
}

/// An owned copy of the string.
pub fn bytes_of(alloc: Global, bytes: &str) -> Result<String, AllocError> {
    String::from_str(alloc, bytes)
}

/// The arguments of a create with one recovery slice over the file `a`.
pub fn args_of(alloc: Global, base: &str) -> Result<CreateArgs, AllocError> {
    Ok(CreateArgs {
        slice: 4,
        count: 1,
        first: 0,
        base: bytes_of(alloc, base)?,
        inputs: vec![in alloc; bytes_of(alloc, "a")?]?,
        overwrite: false,
    })
}

// Makes a change of a folder that has space for it.
fn change(folder: &mut Folder, mut change: Change) -> Result<()> {
    folder
        .apply(&mut change)
        .map_err(|_| Error::msg("a change is refused"))
}

// The changes of a create of `t.par2`.
fn created(alloc: Global, folder: &Folder) -> Result<Vec<Change>> {
    match plan_create(alloc, folder, &args_of(alloc, "t.par2")?) {
        Ok(changes) => Ok(copies_of(alloc, changes.as_slice())?),
        Err(_) => Err(Error::msg("a create is refused")),
    }
}

/// A folder with the file `a` and a set of it.
pub fn protected(alloc: Global) -> Result<Folder> {
    let mut folder = folder_of(alloc, &[("a", b"abcdefgh")])?;
    folder.reserve(2)?;
    for written in created(alloc, &folder)? {
        change(&mut folder, written)?;
    }
    Ok(folder)
}

/// The same folder, with `a` cut afterwards.
pub fn damaged(alloc: Global) -> Result<Folder> {
    let mut folder = protected(alloc)?;
    let cut = Bytes::copy_of(alloc, b"abcdef")?;
    change(&mut folder, Change::Replace(name_of("a")?, cut))?;
    Ok(folder)
}
