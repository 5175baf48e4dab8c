//! Lines of a key and a value, and those of fixed texts.
ghost use Rattle.std.specs.Prelude.{◌++◌};
ghost use Rattle.std.specs.List.{flat_map};
ghost use Rattle.command_text.specs.Answer.{Adds, greeting, list_ok, number_pair, ok, pair};

use itoa::{Buffer, Integer};
use no_memory::NoMemory;

/// Adds these parts.
pub(crate) fn append(out: &mut Vec<u8>, parts: &[&[u8]]) -> Result<(), NoMemory>
    ensures { Adds (flat_map (λ part. part.now) parts.now) result out.old out.new }
{
    for part in parts {
        out.extend_from_slice(part)?;
    }
    Ok(())
}

/// Adds these bytes.
#[inline]
fn add(out: &mut Vec<u8>, bytes: &[u8]) -> Result<(), NoMemory>
    ensures { Adds bytes.now result out.old out.new }
{
    out.extend_from_slice(bytes)?;
    Ok(())
}

/// Adds the line `key: value`. It is most of what an answer takes: parts of a known length are stored without a call.
#[inline]
pub fn write_pair(out: &mut Vec<u8>, key: &str, value: &[u8]) -> Result<(), NoMemory>
    ensures { Adds (pair key.now value.now) result out.old out.new }
{
    add(out, key.as_bytes())?;
    add(out, b": ")?;
    add(out, value)?;
    add(out, b"\n")
}

/// Adds three parts.
#[inline]
fn add_three(out: &mut Vec<u8>, first: &[u8], second: &[u8], third: &[u8]) -> Result<(), NoMemory>
    ensures { Adds (first.now ++ (second.now ++ third.now)) result out.old out.new }
{
    add(out, first)?;
    add(out, second)?;
    add(out, third)
}

/// Adds the line `key: value` of a value in three parts.
#[inline]
pub(crate) fn write_joined(
    out: &mut Vec<u8>,
    key: &str,
    first: &[u8],
    second: &[u8],
    third: &[u8],
) -> Result<(), NoMemory>
    ensures { Adds (pair key.now (first.now ++ (second.now ++ third.now))) result out.old out.new }
{
    add_three(out, key.as_bytes(), b": ", first)?;
    add_three(out, second, third, b"\n")
}

/// Adds the line `key: value` of a number in decimal digits.
pub fn write_number<I: Integer>(out: &mut Vec<u8>, key: &str, value: I) -> Result<(), NoMemory>
    ensures { Adds (pair key.now (I.text value)) result out.old out.new }
{
    let mut buffer = Buffer::new();
    write_pair(out, key, buffer.format(value).as_bytes())
}

/// Adds a line for the position of an entry and one for its id.
pub(crate) fn write_position_and_id(
    out: &mut Vec<u8>,
    position_key: &str,
    position: usize,
    id_key: &str,
    id: u32,
) -> Result<(), NoMemory>
    ensures { Adds (number_pair position_key.now position ++ number_pair id_key.now id) result out.old out.new }
{
    write_number(out, position_key, position)?;
    write_number(out, id_key, id)
}

/// Adds the line `OK`, the end of an answer (MPD protocol reference 0.23, "Responses").
pub fn write_ok(out: &mut Vec<u8>) -> Result<(), NoMemory>
    ensures { Adds ok result out.old out.new }
{
    append(out, &[b"OK\n"])
}

/// Adds the line `list_OK`, the end of a command's part of an answer (MPD protocol reference 0.23, "Command lists").
pub fn write_list_ok(out: &mut Vec<u8>) -> Result<(), NoMemory>
    ensures { Adds list_ok result out.old out.new }
{
    append(out, &[b"list_OK\n"])
}

/// Adds the line `OK MPD 0.23.0`.
pub fn write_greeting(out: &mut Vec<u8>) -> Result<(), NoMemory>
    ensures { Adds greeting result out.old out.new }
{
    append(out, &[b"OK MPD 0.23.0\n"])
}
