//! Reads lists of words.

use crate::rows::parted;
use anyhow::Result;
use par2_arguments::read_words;

/// Prints the command that the words of a line are read as. Memory suffices here, so the stored output also fails a
/// `read_words` that always returns out of memory.
pub fn read(rt: &HostRuntime, line: &str) -> Result<()> {
    match read_words(rt.alloc(), parted(rt.alloc(), line)?.as_slice()) {
        Ok(command) => println!(rt; "{line} => {command:?}")?,
        Err(fault) => println!(rt; "{line} => {fault:?}")?,
    }
    Ok(())
}
