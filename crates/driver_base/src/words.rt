//! Words of a line.
use crate::fault::Fault;
use std::str::FromStr;

/// The first word of a text, and what stands behind the space after it.
pub fn first_word<'a>(text: &'a str) -> (&'a str, &'a str) {
    text.split_once(' ').unwrap_or((text, ""))
}

/// The number that a text is, of any type of numbers.
pub fn number<N: FromStr>(text: &str) -> Result<N, Fault>
where
    N::Err: Drop,
{
    match text.parse::<N>() {
        Ok(number) => Ok(number),
        Err(_) => Err(Fault::NoNumber),
    }
}

/// The number at the front of a text, and what stands behind it.
pub fn first_number<'a>(text: &'a str) -> Result<(u64, &'a str), Fault> {
    let (word, rest) = first_word(text);
    match word.parse::<u64>() {
        Ok(number) => Ok((number, rest)),
        Err(_) => Err(Fault::NoNumber),
    }
}
