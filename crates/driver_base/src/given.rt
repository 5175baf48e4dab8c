//! Bytes by hexadecimal digits.
use crate::fault::Fault;
use std::alloc::{AllocError, Global};

/// Bytes, as far as their text was read.
#[derive(Drop)]
struct Given {
    alloc: Global,
    bytes: Vec<u8>,
    /// The first of two digits.
    high: Option<u8>,
    /// The number that the next `n` stands for, and the one of the next `r`.
    number: u32,
    row: u32,
}

fn digit_of(letter: char) -> Option<u8> {
    match letter {
        '0'..='9' => Some(letter as u8 - b'0'),
        'a'..='f' => Some(letter as u8 - b'a' + 10),
        _ => None,
    }
}

/// Adds a number in six decimal digits.
fn add_number(bytes: &mut Vec<u8>, alloc: Global, number: u32) -> Result<(), AllocError> {
    let text = format!(in alloc; "{number:06}")?;
    bytes.extend_from_slice(text.as_bytes())
}

impl Given {
    fn take(&mut self, letter: char) -> Result<(), Fault> {
        match letter {
            ' ' | '-' => {}
            'n' => {
                add_number(&mut self.bytes, self.alloc, self.number)?;
                self.number = self.number.saturating_add(1);
            }
            'r' => {
                self.bytes.extend_from_slice(&self.row.to_le_bytes())?;
                self.row = self.row.saturating_add(1);
            }
            _ => self.take_digit(digit_of(letter).ok_or(Fault::NoBytes)?)?,
        }
        Ok(())
    }

    fn take_digit(&mut self, digit: u8) -> Result<(), AllocError> {
        match self.high.take() {
            None => self.high = Some(digit),
            Some(high) => self.bytes.push(high.wrapping_mul(16) | digit)?,
        }
        Ok(())
    }
}

/// The bytes of a text of hexadecimal digits and spaces, in which each `n` stands for the next number from the first on, in six
/// decimal digits, and each `r` for the next one from 0 on, in four bytes; `-` has none. Behind them the number of the next `n`.
pub fn numbered(alloc: Global, text: &str, first: u32) -> Result<(Vec<u8>, u32), Fault> {
    let mut given = Given {
        alloc,
        bytes: Vec::new(alloc),
        high: None,
        number: first,
        row: 0,
    };
    for letter in text.chars() {
        given.take(letter)?;
    }
    match given.high {
        None => Ok((given.bytes, given.number)),
        Some(_) => Err(Fault::NoBytes),
    }
}

/// The same from 0 on.
pub fn read_bytes(alloc: Global, text: &str) -> Result<Vec<u8>, Fault> {
    let (bytes, _) = numbered(alloc, text, 0)?;
    Ok(bytes)
}
