//! Reading to the end, and from a reader without one.

use par2_disk::read_within;
use par2_folder::ReadFault;
use std::io::{self, Read};
use std::process::Abort;

// A reader that returns one byte with each read, is interrupted at the second, and never ends.
#[derive(Drop)]
struct Endless {
    reads: u64,
}

impl Read for Endless {
    fn read(&mut self, buf: &mut [u8]) -> io::Result<usize> {
        if buf.is_empty() {
            return Ok(0);
        }
        self.reads = self.reads.saturating_add(1);
        if self.reads == 2 {
            return Err(io::Error::from(io::ErrorKind::Interrupted));
        }
        buf[0] = 7;
        Ok(1)
    }
}

fn read_all<R: Read>(
    rt: &(impl Abort + AllocGlobal),
    reader: &mut R,
    first: usize,
) -> Result<Vec<u8>, ReadFault> {
    read_within(reader, rt.alloc(), first, 9)
}

#[test]
fn a_reader_without_end(rt: HostRuntime) {
    let mut endless = Endless { reads: 0 };
    assert!(rt; matches!(read_all(&rt, &mut endless, 3), Err(ReadFault::Store)));
    assert!(rt; endless.reads == 9);
}

#[test]
fn bytes_are_read_to_the_end(rt: HostRuntime) {
    let mut bytes: &[u8] = b"abc";
    assert!(rt;
        matches!(read_all(&rt, &mut bytes, 1), Ok(read) if read.as_slice() == b"abc".as_slice())
    );
}
