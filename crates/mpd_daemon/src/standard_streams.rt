// What stands in the place of standard streams without which the program was started.
use std::fs::{File, OpenOptions};
use std::io;
use std::os::fd::{AsRawFd, RawFd};

/// The greatest descriptor of a standard stream: that of standard error.
const LAST_STANDARD: RawFd = 2;

/// What stands in the place of up to three of them.
pub type Streams = (Option<File>, Option<File>, Option<File>);

/// Called before anything else is opened, it leaves none of their descriptors free: else the first files, as those of the journal, would get
/// them, and lines and answers would be written into these. What it keeps stays open as long as the value.
pub fn take_standard_streams(rt: &HostRuntime) -> io::Result<Streams> {
    let first = take_standard_stream(rt)?;
    let second = take_standard_stream(rt)?;
    let third = take_standard_stream(rt)?;
    Ok((first, second, third))
}

// Opens `/dev/null`, which gets the lowest descriptor that is free, and keeps it where that is one of a standard stream's.
fn take_standard_stream(rt: &HostRuntime) -> io::Result<Option<File>> {
    let file = OpenOptions::new()
        .read(true)
        .write(true)
        .open(rt, "/dev/null")?;
    if file.as_raw_fd() <= LAST_STANDARD {
        Ok(Some(file))
    } else {
        Ok(None)
    }
}
