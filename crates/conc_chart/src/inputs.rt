use std::alloc::Global;
use std::fs::File;
use std::io::{self, ErrorKind, Read};

// How many bytes of a file are read at most.
const MOST_BYTES: u64 = 1 << 30;

/// Why there are no bytes.
pub(crate) enum InputFail {
    Unreadable,
    NoMemory,
}

impl From<io::Error> for InputFail {
    fn from(error: io::Error) -> Self {
        if error.kind() == ErrorKind::OutOfMemory {
            InputFail::NoMemory
        } else {
            InputFail::Unreadable
        }
    }
}

// All bytes of a reader, where they are not too many.
fn read_all<R: Read + Drop>(alloc: Global, reader: R) -> Result<Vec<u8>, InputFail> {
    let mut bytes = Vec::new(alloc);
    reader.take(MOST_BYTES + 1).read_to_end(&mut bytes)?;
    if bytes.len() as u64 > MOST_BYTES {
        return Err(InputFail::Unreadable);
    }
    Ok(bytes)
}

/// The bytes of the file with this name, or of standard input where it is `-`.
pub(crate) fn read_input(rt: &HostRuntime, name: &[u8]) -> Result<Vec<u8>, InputFail> {
    if name == b"-".as_slice() {
        return read_all(rt.alloc(), rt.stdin());
    }
    let Ok(path) = str::from_utf8(name) else {
        return Err(InputFail::Unreadable);
    };
    read_all(rt.alloc(), File::open(rt, path)?)
}
