// The texts of frames.
ghost use Rattle.std.specs.Prelude.{◌≡◌, ◌≤◌, ◌++◌, [], ◌∷◌, map, take, drop, length, string_bytes, codes, OnOk, IfOk, IfErr, OnErr};
ghost use Rattle.id3_tags.specs.Texts.{FrameText, is_comment, is_owned, is_described, is_text, labelled, described, language_in};
ghost use Rattle.id3_tags.specs.Texts.{strings_of, texts_of};

use crate::limits::MAX_TEXTS;
use crate::strings::texts_in;
use std::alloc::{AllocError, Global};
use std::marker::Model;

/// A text of a tag, of 1 to 512 bytes without a control character.
#[derive(Debug, Drop)]
pub struct TagText {
    /// The frame's id in versions 2.3 and 2.4. A frame of 2.2 that has no heir there keeps its three letters,
    /// with a space behind them.
    pub id: [u8; 4],
    /// The language of a comment (ISO 639-2); elsewhere `XXX`.
    pub language: [u8; 3],
    /// The description of a frame TXXX or COMM, or the owner of UFID; elsewhere it is empty.
    pub description: String,
    pub value: String,
}

impl Model for TagText {
    ghost use Rattle.std.specs.Prelude.{string_bytes};
    ghost use Rattle.id3_tags.specs.Texts.{FrameText};

    ghost Value = { FrameText };

    ghost view = { λ t. record {
      id = t.id;
      language = t.language;
      description = string_bytes t.description;
      value = string_bytes t.value;
    } };
}

/// The texts of a tag in the order of their frames.
#[derive(Debug, Drop)]
pub struct Texts {
    texts: Vec<TagText>,
}

impl Model for Texts {
    ghost use Rattle.std.specs.Prelude.{List};
    ghost use Rattle.id3_tags.specs.Texts.{FrameText};

    ghost Value = { List FrameText };

    ghost view = { λ t. t.texts.items };
}

impl Texts {
    /// No text. It takes no memory yet.
    pub fn new(alloc: Global) -> Self
        ensures { result ≡ [] }
    {
        Texts {
            texts: Vec::new(alloc),
        }
    }

    /// The texts, one behind the other.
    pub fn as_slice(&self) -> &[TagText]
        ensures { result.now ≡ self.now }
    {
        &self.texts
    }

    /// Adds a value that isn't empty, if there is room.
    fn add_value(&mut self, alloc: Global, label: &Label, value: &str) -> Result<(), AllocError>
        requires { length self.old ≤ MAX_TEXTS }
        ensures added { OnOk result (self.new ≡ take MAX_TEXTS (self.old ++ labelled label.now.id label.now.language
            (string_bytes label.now.description) (value.now ∷ []))) }
        ensures few { length self.new ≤ MAX_TEXTS }
    {
        if self.texts.len() < MAX_TEXTS && !value.is_empty() {
            self.texts.push(label.text(alloc, value)?)?;
        }
        Ok(())
    }

    /// Adds the values that aren't empty, as far as there is room.
    fn add_values(
        &mut self,
        alloc: Global,
        label: &Label,
        values: &[String],
    ) -> Result<(), AllocError>
        requires { length self.old ≤ MAX_TEXTS }
        ensures added { OnOk result (self.new ≡ take MAX_TEXTS (self.old ++ labelled label.now.id label.now.language
            (string_bytes label.now.description) (map string_bytes values.now))) }
        ensures few { length self.new ≤ MAX_TEXTS }
    {
        for value in values {
            self.add_value(alloc, label, value.as_str())?;
        }
        Ok(())
    }

    /// Adds the texts of the frame with this id and data, as far as there is room.
    pub fn add_frame(&mut self, alloc: Global, id: [u8; 4], bytes: &[u8]) -> Result<(), AllocError>
        requires { length self.old ≤ MAX_TEXTS }
        ensures added { OnOk result (self.new ≡ take MAX_TEXTS (self.old ++ texts_of id bytes.now)) }
        ensures few { length self.new ≤ MAX_TEXTS }
    {
        let mut strings = strings_of(alloc, id, bytes)?;
        if !is_described(id) || strings.is_empty() {
            let label = Label {
                id,
                language: *b"XXX",
                description: String::new(alloc),
            };
            return self.add_values(alloc, &label, &strings);
        }
        let description = strings.remove(0);
        let label = Label {
            id,
            language: language_of(id, bytes),
            description,
        };
        self.add_values(alloc, &label, &strings)
    }
}

/// What the texts of a frame have in common.
#[derive(Debug, Drop)]
struct Label {
    id: [u8; 4],
    language: [u8; 3],
    description: String,
}

impl Label {
    fn text(&self, alloc: Global, value: &str) -> Result<TagText, AllocError>
        ensures { IfOk result (λ text. text ≡ record {
          id = self.now.id;
          language = self.now.language;
          description = string_bytes self.now.description;
          value = value.now;
        }) }
    {
        let description = String::from_str(alloc, self.description.as_str())?;
        let value = String::from_str(alloc, value)?;
        Ok(TagText {
            id: self.id,
            language: self.language,
            description,
            value,
        })
    }
}

pub fn is_comment(id: [u8; 4]) -> bool
    ensures { result ≡ is_comment id }
{
    id == *b"COMM"
}

pub fn is_owned(id: [u8; 4]) -> bool
    ensures { result ≡ is_owned id }
{
    id == *b"UFID"
}

pub fn is_described(id: [u8; 4]) -> bool
    ensures { result ≡ is_described id }
{
    id == *b"TXXX" || is_comment(id) || is_owned(id)
}

/// Whether a frame with this id has texts.
pub fn is_text(id: [u8; 4]) -> bool
    ensures { result ≡ is_text id }
{
    id[0] == b'T' || is_comment(id) || is_owned(id)
}

/// The language of the text with this id, which stands behind the encoding of a comment.
fn language_of(id: [u8; 4], bytes: &[u8]) -> [u8; 3]
    ensures { result ≡ language_in id (drop 1 bytes.now) }
{
    match bytes {
        [_, a, b, c, ..] if is_comment(id) => [*a, *b, *c],
        _ => *b"XXX",
    }
}

/// The strings of a frame.
fn strings_of(alloc: Global, id: [u8; 4], bytes: &[u8]) -> Result<Vec<String>, AllocError>
    ensures { IfOk result (λ strings. map string_bytes strings.items ≡ strings_of id bytes.now) }
{
    let Some((encoding, rest)) = bytes.split_first() else {
        return Ok(Vec::new(alloc));
    };
    if is_owned(id) {
        return texts_in(alloc, 0, bytes);
    }
    if !is_comment(id) {
        return texts_in(alloc, *encoding, rest);
    }
    texts_in(alloc, *encoding, rest.get(3..).unwrap_or(&[]))
}
