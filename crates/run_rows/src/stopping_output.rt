//! Runs whose output writer stops.
ghost use Rattle.std.specs.Prelude.{Some};

use crate::rows::{parted, printer, show, show_bytes, status_of};
use anyhow::Result;
use par2_stores::MemoryStore;
use par2_tool::Printer;
use std::alloc::Global;
use std::io::{self, ErrorKind, Write};

// A writer that takes this many bytes, and then fails or takes none.
#[derive(Drop)]
struct Stopping {
    held: Vec<u8>,
    left: usize,
    fails: bool,
}

impl Write for Stopping {
    ghost contents = { λ w. Some w.held.items };

    fn write(&mut self, bytes: &[u8]) -> io::Result<usize> {
        let count = bytes.len().min(self.left);
        if count == 0 && self.fails {
            return Err(io::Error::from(ErrorKind::Other));
        }
        self.held.extend_from_slice(&bytes[..count])?;
        self.left -= count;
        Ok(count)
    }

    fn flush(&mut self) -> io::Result<()> {
        Ok(())
    }
}

// A printer on a writer that takes five bytes.
fn stopping_printer(alloc: Global, fails: bool) -> Printer<Stopping> {
    Printer::new(Stopping {
        held: Vec::new(alloc),
        left: 5,
        fails,
    })
}

/// Runs the words of a line with an output that takes five bytes and then fails or takes none, and prints the result.
pub fn stop_output(
    rt: &HostRuntime,
    store: &mut MemoryStore,
    line: &str,
    fails: bool,
) -> Result<()> {
    let words = parted(rt.alloc(), line)?;
    let mut out = stopping_printer(rt.alloc(), fails);
    let mut err = printer(rt.alloc());
    let status = status_of(rt.alloc(), &words, store, &mut out, &mut err);
    println!(rt; "[{line}] {status}")?;
    show_bytes(rt, "output", &out.into_inner().held)?;
    show_bytes(rt, "error", &err.into_inner())?;
    show(rt, store)
}
