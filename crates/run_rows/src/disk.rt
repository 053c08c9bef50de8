//! Calls of a store in the folder where the program runs, and their results. They show what a user meets who is bound
//! by the modes of files, so not the superuser.

use crate::calls::{put_journal, read_file, remove_file, rename_file, replace_file, write_file};
use crate::files::name_of;
use crate::rows::show;
use anyhow::{Error, Result};
use par2_disk::{DiskStore, FolderStore, StoreFault};
use std::fs::Permissions;
use std::os::unix::fs::{PermissionsExt, symlink};
use std::{env, fs};

fn show_answer(rt: &HostRuntime, call: &str, answer: Result<(), StoreFault>) -> Result<()> {
    println!(rt; "{call}: {answer:?}")?;
    Ok(())
}

fn add<S: FolderStore>(rt: &HostRuntime, store: &mut S, string: &str, bytes: &[u8]) -> Result<()> {
    let answer = write_file(store, &name_of(string)?, bytes);
    print!(rt; "add ")?;
    show_answer(rt, string, answer)
}

fn replace<S: FolderStore>(
    rt: &HostRuntime,
    store: &mut S,
    string: &str,
    bytes: &[u8],
) -> Result<()> {
    let answer = replace_file(store, &name_of(string)?, bytes);
    print!(rt; "replace ")?;
    show_answer(rt, string, answer)
}

fn rename<S: FolderStore>(rt: &HostRuntime, store: &mut S, from: &str, to: &str) -> Result<()> {
    let answer = rename_file(store, &name_of(from)?, &name_of(to)?);
    print!(rt; "rename {from} to ")?;
    show_answer(rt, to, answer)
}

fn remove<S: FolderStore>(rt: &HostRuntime, store: &mut S, string: &str) -> Result<()> {
    let answer = remove_file(store, &name_of(string)?);
    print!(rt; "remove ")?;
    show_answer(rt, string, answer)
}

fn read<S: FolderStore>(rt: &HostRuntime, store: &mut S, string: &str) -> Result<()> {
    match read_file(rt.alloc(), store, &name_of(string)?) {
        Ok(bytes) => println!(rt; "read {string}: {:?}", bytes.as_slice())?,
        Err(fault) => println!(rt; "read {string}: {fault:?}")?,
    }
    Ok(())
}

// Sets the mode of a file or a folder, given as a decimal number.
fn set_mode(rt: &HostRuntime, path: &str, mode: &str) -> Result<()> {
    Ok(fs::set_permissions(rt, path, Permissions::from_mode(mode.parse()?))?)
}

// Does what other programs may do in the folder.
fn prepare(rt: &HostRuntime, word: &str, rest: &str) -> Result<()> {
    let (first, second) = rest.split_once(' ').unwrap_or((rest, ""));
    match word {
        "folder" => Ok(fs::create_dir(rt, rest)?),
        "go" => Ok(env::set_current_dir(rt, rest)?),
        "write" => Ok(fs::write(rt, first, second)?),
        "link" => Ok(symlink(rt, first, second)?),
        "mode" => set_mode(rt, first, second),
        _ => Err(Error::msg("no such call")),
    }
}

// Makes the call of a line on a store, or does what other programs may do.
fn call_on<S: FolderStore>(rt: &HostRuntime, store: &mut S, line: &str) -> Result<()> {
    let (word, rest) = line.split_once(' ').unwrap_or((line, ""));
    let (first, second) = rest.split_once(' ').unwrap_or((rest, ""));
    match word {
        "show" => show(rt, store),
        "add" => add(rt, store, first, second.as_bytes()),
        "replace" => replace(rt, store, first, second.as_bytes()),
        "rename" => rename(rt, store, first, second),
        "remove" => remove(rt, store, first),
        "put-journal" => show_answer(rt, "put journal", put_journal(store, rest.as_bytes())),
        "read" => read(rt, store, first),
        _ => prepare(rt, word, rest),
    }
}

/// Makes the call of a line.
pub fn call(rt: &HostRuntime, line: &str) -> Result<()> {
    call_on(rt, &mut DiskStore::new(rt), line)
}
