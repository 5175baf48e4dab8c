// What a chunk is to the reader, and where its data stand.
ghost use Rattle.std.specs.Prelude.{◌≡◌, ◌+◌, ◌<◌, ◌≤◌, ◌++◌, length, take, vec_len, All, IfOk, OnOk, OnErr, IfErr};
ghost use Rattle.wave_pcm.specs.Parts.{file_kind, text_kind, is_info, is_format, is_data, is_nested, is_id3, is_text};

use song_files::Tag;

/// What a chunk is to the reader.
#[derive(Clone, Copy, Debug)]
pub enum Kind {
    Format,
    Data,
    /// A list of further chunks.
    Nested,
    Text(Tag),
    /// An ID3v2 tag.
    Id3,
    Other,
}

impl Kind {
    /// The meaning of the id of a chunk that stands in the file.
    pub fn in_file(id: [u8; 4]) -> Kind
        ensures { result ≡ file_kind id }
    {
        if id == *b"fmt " {
            Kind::Format
        } else if id == *b"data" {
            Kind::Data
        } else if id == *b"LIST" {
            Kind::Nested
        } else if id == *b"id3 " || id == *b"ID3 " {
            Kind::Id3
        } else {
            Kind::Other
        }
    }

    /// The meaning of the id of a chunk that stands in a list of texts.
    pub fn in_list(id: [u8; 4]) -> Kind
        ensures { result ≡ text_kind id }
    {
        match Tag::of_info(id) {
            Some(tag) => Kind::Text(tag),
            None => Kind::Other,
        }
    }

    pub fn is_format(self) -> bool
        ensures { result ≡ is_format self }
    {
        matches!(self, Kind::Format)
    }

    pub fn is_data(self) -> bool
        ensures { result ≡ is_data self }
    {
        matches!(self, Kind::Data)
    }

    pub fn is_nested(self) -> bool
        ensures { result ≡ is_nested self }
    {
        matches!(self, Kind::Nested)
    }

    pub fn is_id3(self) -> bool
        ensures { result ≡ is_id3 self }
    {
        matches!(self, Kind::Id3)
    }

    pub fn is_text(self, tag: Tag) -> bool
        ensures { result ≡ is_text tag self }
    {
        match self {
            Kind::Text(own) => tag == own,
            _ => false,
        }
    }
}

/// A chunk whose data has not been read: what it is, the place of its first byte of data in the file,
/// and how many bytes of data there are.
#[derive(Clone, Copy, Debug)]
pub struct PartHead {
    pub kind: Kind,
    pub first: u64,
    pub len: u64,
}
