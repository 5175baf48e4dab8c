//! The bytes that the text of a send stands for.
use crate::fault::Fault;
use std::alloc::{AllocError, Global};

/// A byte that stands in no text of UTF-8.
const NO_TEXT: u8 = 0xff;

fn add_number(bytes: &mut Vec<u8>, alloc: Global, number: u64) -> Result<(), AllocError> {
    let text = format!(in alloc; "{number}")?;
    bytes.extend_from_slice(text.as_bytes())
}

/// Adds what a sign stands for.
fn add_sign(bytes: &mut Vec<u8>, alloc: Global, sign: u8, turn: u64) -> Result<(), Fault> {
    match sign {
        b'd' => add_number(bytes, alloc, turn)?,
        b'n' => bytes.push(b'\n')?,
        b'r' => bytes.push(b'\r')?,
        b'b' => bytes.push(NO_TEXT)?,
        _ => return Err(Fault::NoSign),
    }
    Ok(())
}

/// Adds a text, in which `%` stands before a sign.
fn add_text(bytes: &mut Vec<u8>, alloc: Global, text: &[u8], turn: u64) -> Result<(), Fault> {
    let mut is_sign = false;
    for byte in text {
        if is_sign {
            add_sign(bytes, alloc, *byte, turn)?;
            is_sign = false;
        } else if *byte == b'%' {
            is_sign = true;
        } else {
            bytes.push(*byte)?;
        }
    }
    if is_sign {
        return Err(Fault::NoSign);
    }
    Ok(())
}

/// The bytes of a text, in which `%d` stands for the number of the turn, `%n` for a newline, `%r` for a carriage return and `%b` for a
/// byte that stands in no text of UTF-8; and a newline behind them if the text is ended.
pub fn bytes_of(alloc: Global, text: &str, is_ended: bool, turn: u64) -> Result<Vec<u8>, Fault> {
    let mut bytes = Vec::new(alloc);
    add_text(&mut bytes, alloc, text.as_bytes(), turn)?;
    if is_ended {
        bytes.push(b'\n')?;
    }
    Ok(bytes)
}
