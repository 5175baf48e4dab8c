// What the system limits this process to.
use std::fs::File;
use std::io::{self, Read};

/// Where Linux tells it.
const PATH: &str = "/proc/self/limits";

/// How many bytes of that are read.
const LONGEST: u64 = 8_192;

/// How many bytes a file may have that this process writes; none where that isn't limited, or isn't told.
pub(crate) fn longest_file(rt: &HostRuntime) -> Option<u64> {
    limit_of(rt, "Max file size")
}

/// How many descriptors it may have; none where that isn't told.
pub(crate) fn most_descriptors(rt: &HostRuntime) -> Option<u64> {
    limit_of(rt, "Max open files")
}

// A limit by its name: the first number behind it, of two.
fn limit_of(rt: &HostRuntime, name: &str) -> Option<u64> {
    let text = read_limits(rt).ok()?;
    for line in text.as_str().lines() {
        if let Some(numbers) = line.strip_prefix(name) {
            let first = numbers.split_whitespace().next()?;
            return first.parse::<u64>().ok();
        }
    }
    None
}

fn read_limits(rt: &HostRuntime) -> io::Result<String> {
    io::read_to_string(rt.alloc(), File::open(rt, PATH)?.take(LONGEST))
}
