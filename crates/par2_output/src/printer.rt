//! Writers whose failures are counted, and writing lines to them. `write_line` writes each string with `write_bytes`,
//! which calls `Printer::write` until all bytes are taken. A run flushes once, at its end.
ghost use Rattle.std.specs.Prelude.{◌≡◌, ◌+◌, ◌<◌, ◌≤◌, [], IfOk, OnOk, OnErr, length, take, true};
ghost use Rattle.std.specs.List.{flat_map};
ghost use Rattle.par2_output.specs.Printing.{PrinterTookAll as TookAll, PrinterWrote, Prints, TookInVain};

use par2_disk::Count;
use std::io::{ErrorKind, Write};
use thiserror::Error;

/// The writer failed, or took no byte.
#[derive(Debug, Error, Clone, Copy, PartialEq, Eq)]
#[error("a text could not be written")]
pub struct WriteFault;

/// The result of writing bytes or a line.
pub type Written = Result<(), WriteFault>;

/// A writer and the number of its failures, which only contracts see.
#[derive(Drop)]
pub struct Printer<W: Write> {
    writer: W,
    failures: Count,
    // Whether a flush has succeeded since the last write.
    is_flushed: bool,
}

impl<W: Write> Printer<W> {
    /// A printer whose writer has not failed yet.
    pub fn new(writer: W) -> Self
        ensures writer { result.writer ≡ writer }
        ensures failures { result.failures.count ≡ 0 }
    {
        Printer {
            writer,
            failures: Count::new(),
            is_flushed: false,
        }
    }

    /// Returns the writer without flushing it. The program doesn't call it; tests look at what a writer took.
    pub fn into_inner(self) -> W
        ensures { result ≡ self.writer }
    {
        self.writer
    }

    // Counts a failure of the writer, and returns the fault to report.
    fn fault(&mut self) -> WriteFault
        ensures writer { self.new.writer ≡ self.old.writer }
        ensures failures { self.new.failures.count ≡ self.old.failures.count + 1 }
    {
        self.failures.rise();
        WriteFault
    }

    // One step of `write_bytes`: writes some of the bytes and returns how many. An interrupted call is made again, up to
    // `u64::MAX` times. Any other error counts as a failure, and so does a writer that takes no byte.
    fn write(&mut self, bytes: &[u8]) -> Result<usize, WriteFault>
        ensures some { IfOk result (λ n. (0 < n) × (n ≤ length bytes.now)) }
        ensures took { IfOk result (λ n. TookAll W.contents self.old self.new (take n bytes.now)) }
        ensures none { OnErr result (TookInVain W.contents self.old self.new []) }
    {
        self.is_flushed = false;
        let mut interruptions = 0;
        while interruptions < u64::MAX {
            match self.writer.write(bytes) {
                Ok(0) => return Err(self.fault()),
                Ok(n) => return Ok(n),
                Err(error) if error.kind() == ErrorKind::Interrupted => interruptions += 1,
                Err(_) => return Err(self.fault()),
            }
        }
        prove!(interruptions == u64::MAX);
        Err(self.fault())
    }

    /// Flushes the writer, as the last step of printing. An interrupted call is made again; any other error counts as a
    /// failure.
    pub fn flush(&mut self) -> Written
        ensures flushed { OnOk result (self.new.is_flushed ≡ true) }
        ensures kept { OnOk result (TookAll W.contents self.old self.new []) }
        ensures failed { OnErr result (TookInVain W.contents self.old self.new []) }
    {
        let mut retries = 0;
        while retries < u64::MAX {
            match self.writer.flush() {
                Ok(()) => {
                    self.is_flushed = true;
                    return Ok(());
                }
                Err(error) if error.kind() == ErrorKind::Interrupted => retries += 1,
                Err(_) => return Err(self.fault()),
            }
        }
        prove!(retries == u64::MAX);
        Err(self.fault())
    }
}

// Writes all bytes, with as many calls as that needs. After a fault the writer has taken a prefix of them.
fn write_bytes<W: Write>(out: &mut Printer<W>, bytes: &[u8]) -> Written
    ensures { PrinterWrote W.contents out.old out.new bytes.now result }
{
    let mut rest = bytes;
    while !rest.is_empty() {
        let n = out.write(rest)?;
        rest = &rest[n..];
    }
    Ok(())
}

/// Writes the strings, one after the other, and a newline. Each line that the program prints is written with it.
pub(crate) fn write_line<W: Write>(out: &mut Printer<W>, strings: &[&str]) -> Written
    ensures { Prints W.contents out.old out.new (flat_map (λ s. s.now) strings.now) result }
{
    for string in strings {
        write_bytes(out, string.as_bytes())?;
    }
    write_bytes(out, b"\n")
}
