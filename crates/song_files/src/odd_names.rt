// Names that are no UTF-8. The standard library's listing only says that there is one.
use std::alloc::{AllocError, Global};
use std::fs::File;
use std::io;
use std::os::fd::AsRawFd;

/// The character before an escaped name. As a control character it keeps the name from being a song's.
pub const ODD: char = '\u{1}';

/// How many bytes of names are read at once.
const PIECE: usize = 4_096;

/// The names of a folder that are no UTF-8, each behind `ODD`, and with `\xNN` for each byte that is no printed character of ASCII.
pub(crate) fn odd_names(rt: &HostRuntime, alloc: Global, place: &str) -> io::Result<Vec<String>> {
    let folder = File::open(rt, place)?;
    let mut piece = vec![in alloc; 0u8; PIECE]?;
    let mut names = Vec::new(alloc);
    for _ in 0..u64::MAX {
        let count = os::read_dir(folder.as_raw_fd(), &mut piece).min(PIECE);
        if count == 0 {
            break;
        }
        if let Some(read) = piece.get(..count) {
            take_odd(alloc, read, &mut names)?;
        }
    }
    Ok(names)
}

// Takes those of these names that are no UTF-8. Each is ended by a byte 0.
fn take_odd(alloc: Global, piece: &[u8], names: &mut Vec<String>) -> Result<(), AllocError> {
    let mut start = 0;
    for at in 0..piece.len() {
        if piece[at] != 0 {
            continue;
        }
        if let Some(name) = piece.get(start..at) {
            push_odd(alloc, name, names)?;
        }
        start = at.saturating_add(1);
    }
    Ok(())
}

fn push_odd(alloc: Global, name: &[u8], names: &mut Vec<String>) -> Result<(), AllocError> {
    if str::from_utf8(name).is_ok() {
        return Ok(());
    }
    let mut text = String::new(alloc);
    text.push(ODD)?;
    for byte in name {
        push_byte(&mut text, *byte)?;
    }
    names.push(text)?;
    Ok(())
}

fn push_byte(text: &mut String, byte: u8) -> Result<(), AllocError> {
    if byte.is_ascii_graphic() || byte == b' ' {
        return text.push(char::from(byte));
    }
    text.push_str("\\x")?;
    text.push(digit(byte / 16))?;
    text.push(digit(byte % 16))
}

fn digit(value: u8) -> char {
    char::from_digit(u32::from(value), 16).unwrap_or('?')
}
