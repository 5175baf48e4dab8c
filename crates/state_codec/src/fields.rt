// Reads the fields of ops and snapshots from bytes: numbers, flags, texts, each within its range.
ghost use Rattle.std.specs.Prelude.{◌≡◌, ◌-◌, length, IfOk, IfSome, IsTrue, is_some};
ghost use Rattle.std.specs.Int.{IsInRange, w16};
ghost use Rattle.std.specs.Str.{is_utf8};
ghost use Rattle.state_codec.specs.Layout.{consume_number};
ghost use Rattle.state_codec.specs.SavedState.{IsBytes};
ghost use Rattle.state_codec.specs.Text.{is_text};
ghost use Rattle.state_codec.specs.Given.{Gives, GivesText};
ghost use Rattle.state_codec.specs.Fields.{byte_at, number_at, u32_at, u64_at, number_within};
ghost use Rattle.state_codec.specs.Fields.{pair_at, volume_at, flag_at, consume_at, single_at, key_at, text_at};
ghost use Rattle.state_codec.specs.declared.fields.ReadError.TheVariants.{NoMemory as OutOfMemory};

use crate::layout::Layout;
use player_core::{Single, Volume};
use std::alloc::{AllocError, AllocFailed};
use std::str;

/// Why a field could not be read.
#[derive(Clone, Copy)]
pub enum ReadError {
    /// A field passes the end, or its value is out of range. So many bytes are left from that field on.
    Fault(usize),
    NoMemory,
}

impl From<AllocError> for ReadError {
    ghost from_gives = { λ _ e. e ≡ OutOfMemory };

    fn from(_e: AllocError) -> ReadError {
        ReadError::NoMemory
    }
}

impl<T: Drop> From<AllocFailed<T>> for ReadError {
    ghost from_gives = { λ _ e. e ≡ OutOfMemory };

    fn from(_e: AllocFailed<T>) -> ReadError {
        ReadError::NoMemory
    }
}

/// Takes fields from the front of the bytes that are left. After a fault nothing is said of what is left.
#[derive(Drop)]
pub struct Reader<'a> {
    pub rest: &'a [u8],
}

impl<'a> Reader<'a> {
    /// The field at the front is at fault.
    pub fn fault(&self) -> ReadError
        ensures { result ≡ ReadError.Fault (length self.now.rest.now) }
    {
        ReadError::Fault(self.rest.len())
    }

    pub fn byte(&mut self) -> Result<u8, ReadError>
        ensures { Gives result self.new.rest.now (byte_at self.old.rest.now) }
    {
        match self.rest {
            [] => Err(self.fault()),
            [byte, rest @ ..] => {
                self.rest = rest;
                Ok(*byte)
            }
        }
    }

    fn u16(&mut self) -> Result<u16, ReadError>
        ensures { Gives result self.new.rest.now (number_at w16 self.old.rest.now) }
    {
        if self.rest.len() < 2 {
            return Err(self.fault());
        }
        let (front, rest) = self.rest.split_at(2);
        self.rest = rest;
        Ok(u16::from_le_bytes([front[0], front[1]]))
    }

    pub fn u32(&mut self) -> Result<u32, ReadError>
        ensures { Gives result self.new.rest.now (u32_at self.old.rest.now) }
    {
        if self.rest.len() < 4 {
            return Err(self.fault());
        }
        let (front, rest) = self.rest.split_at(4);
        self.rest = rest;
        Ok(u32::from_le_bytes([front[0], front[1], front[2], front[3]]))
    }

    pub fn u64(&mut self) -> Result<u64, ReadError>
        ensures { Gives result self.new.rest.now (u64_at self.old.rest.now) }
    {
        if self.rest.len() < 8 {
            return Err(self.fault());
        }
        let (front, rest) = self.rest.split_at(8);
        self.rest = rest;
        Ok(u64::from_le_bytes([
            front[0], front[1], front[2], front[3], front[4], front[5], front[6], front[7],
        ]))
    }

    /// A number from `low` to `high`.
    #[tactic(auto, unfolding(crate::specs::Fields::such))]
    pub fn u32_within(&mut self, low: u32, high: u32) -> Result<u32, ReadError>
        ensures value { Gives result self.new.rest.now (number_within low high self.old.rest.now) }
        ensures within { IfOk result (λ number. IsInRange low high number) }
    {
        let fault = self.fault();
        let number = self.u32()?;
        if number < low || high < number {
            return Err(fault);
        }
        Ok(number)
    }

    #[tactic(auto, unfolding(crate::specs::Fields::both))]
    pub fn pair(&mut self) -> Result<(u32, u32), ReadError>
        ensures { Gives result self.new.rest.now (pair_at self.old.rest.now) }
    {
        let first = self.u32()?;
        let second = self.u32()?;
        Ok((first, second))
    }

    #[tactic(auto, unfolding(crate::specs::Fields::flag_at))]
    pub fn flag(&mut self) -> Result<bool, ReadError>
        ensures { Gives result self.new.rest.now (flag_at self.old.rest.now) }
    {
        let (on, rest) = match self.rest {
            [0, rest @ ..] => (false, rest),
            [1, rest @ ..] => (true, rest),
            _ => return Err(self.fault()),
        };
        self.rest = rest;
        Ok(on)
    }

    #[tactic(auto, unfolding(crate::specs::Fields::such))]
    pub fn volume(&mut self) -> Result<Volume, ReadError>
        ensures { Gives result self.new.rest.now (volume_at self.old.rest.now) }
    {
        let fault = self.fault();
        let percent = self.byte()?;
        Volume::new(percent).ok_or(fault)
    }

    #[tactic(auto, unfolding(crate::specs::Fields::single_at))]
    pub fn single(&mut self) -> Result<Single, ReadError>
        ensures { Gives result self.new.rest.now (single_at self.old.rest.now) }
    {
        let (single, rest) = match self.rest {
            [0, rest @ ..] => (Single::Off, rest),
            [1, rest @ ..] => (Single::On, rest),
            [2, rest @ ..] => (Single::Oneshot, rest),
            _ => return Err(self.fault()),
        };
        self.rest = rest;
        Ok(single)
    }

    /// The consume option, of the values that the layout has.
    #[tactic(auto, unfolding(crate::specs::Fields::such))]
    pub(crate) fn consume(&mut self, layout: Layout) -> Result<Single, ReadError>
        ensures { Gives result self.new.rest.now (consume_at layout self.old.rest.now) }
    {
        let fault = self.fault();
        let value = self.single()?;
        if layout.greatest_consume < consume_number(value) {
            return Err(fault);
        }
        Ok(value)
    }

    #[tactic(auto, unfolding(crate::specs::Fields::key_at))]
    pub fn key(&mut self) -> Result<[u8; 32], ReadError>
        ensures { Gives result self.new.rest.now (key_at self.old.rest.now) }
    {
        if self.rest.len() < 32 {
            return Err(self.fault());
        }
        let (front, rest) = self.rest.split_at(32);
        self.rest = rest;
        let mut key = [0; 32];
        key.copy_from_slice(front);
        Ok(key)
    }

    /// A text, as it stands in the bytes.
    #[tactic(auto, unfolding(crate::specs::Fields::text_at))]
    pub fn text(&mut self) -> Result<&'a str, ReadError>
        ensures value { GivesText result self.new.rest.now (text_at self.old.rest.now) }
        ensures short { IfOk result (λ text. IsTrue (is_text text.now)) }
    {
        let fault = self.fault();
        let len = usize::from(self.u16()?);
        if self.rest.len() < len {
            return Err(fault);
        }
        let (front, rest) = self.rest.split_at(len);
        let Some(text) = text_of(front) else {
            return Err(fault);
        };
        self.rest = rest;
        Ok(text)
    }
}

/// What the type of bytes says of them.
pub fn are_bytes(bytes: &[u8])
    ensures { IsBytes bytes.now }
{
    let _bytes = bytes;
}

// The number that spells the consume option.
fn consume_number(value: Single) -> u8
    ensures { result ≡ consume_number value }
{
    match value {
        Single::Off => 0,
        Single::On => 1,
        Single::Oneshot => 2,
    }
}

// The text that the bytes are in UTF-8.
fn text_of(bytes: &[u8]) -> Option<&str>
    ensures text { IfSome result (λ text. text.now ≡ bytes.now) }
    ensures utf8 { is_some result ≡ is_utf8 bytes.now }
{
    match str::from_utf8(bytes) {
        Ok(text) => Some(text),
        Err(_) => None,
    }
}
