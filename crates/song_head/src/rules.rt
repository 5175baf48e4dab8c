// What is read of a song's file.
use song_files::TagSet;

/// What is read of a song's file.
#[derive(Clone, Copy, Debug, PartialEq, Eq)]
pub struct ReadingRules {
    /// The tags whose texts are told.
    pub tags: TagSet,
    /// Whether the chunk `id3 ` of a WAVE file is read, for the tags that its list INFO lacks.
    pub id3: bool,
    /// Whether all the texts that it has of a tag are told, or the first.
    pub several: bool,
}

impl ReadingRules {
    /// Title, artist, album, date, genre and comment, of the list INFO alone.
    pub const NAMED: ReadingRules = ReadingRules {
        tags: TagSet::SIX,
        id3: false,
        several: false,
    };
}
