// The tags that MPD 0.23 knows.
ghost use Rattle.std.specs.List.{list_any};
ghost use Rattle.std.specs.Prelude.{◌≡◌, ◌<◌, Some};
ghost use Rattle.std.specs.Str.{bytes_eq};
ghost use Rattle.song_files.specs.Tag.{table, number_of, name_of, tag_at, tag_named, info_tag, same_letters};
ghost use Rattle.song_files.specs.TagRows.{rows_of};

/// What a text of a file tells of its song: a tag of MPD 0.23 (protocol reference, section Tags). They stand in the order of their numbers.
#[derive(Clone, Copy, Debug, PartialEq, Eq)]
pub enum Tag {
    Title,
    Artist,
    Album,
    Date,
    Genre,
    Comment,
    ArtistSort,
    AlbumSort,
    AlbumArtist,
    AlbumArtistSort,
    Track,
    Name,
    OriginalDate,
    Composer,
    ComposerSort,
    Performer,
    Conductor,
    Work,
    Movement,
    MovementNumber,
    Ensemble,
    Location,
    Grouping,
    Disc,
    Label,
    MusicBrainzArtistId,
    MusicBrainzAlbumId,
    MusicBrainzAlbumArtistId,
    MusicBrainzTrackId,
    MusicBrainzReleaseTrackId,
    MusicBrainzWorkId,
}

/// How many tags there are.
pub const TAG_COUNT: usize = TABLE.len();

// A tag, its name, and the ids of the chunks that have its text.
#[derive(Clone, Copy)]
struct TagRow(Tag, &'static str, &'static [[u8; 4]]);

// The rows in the order of the numbers.
const TABLE: &[TagRow] = &[
    TagRow(Tag::Title, "Title", &[*b"INAM"]),
    TagRow(Tag::Artist, "Artist", &[*b"IART"]),
    TagRow(Tag::Album, "Album", &[*b"IPRD"]),
    TagRow(Tag::Date, "Date", &[*b"ICRD"]),
    TagRow(Tag::Genre, "Genre", &[*b"IGNR"]),
    TagRow(Tag::Comment, "Comment", &[*b"ICMT"]),
    TagRow(Tag::ArtistSort, "ArtistSort", &[]),
    TagRow(Tag::AlbumSort, "AlbumSort", &[]),
    TagRow(Tag::AlbumArtist, "AlbumArtist", &[]),
    TagRow(Tag::AlbumArtistSort, "AlbumArtistSort", &[]),
    TagRow(Tag::Track, "Track", &[*b"ITRK", *b"IPRT"]),
    TagRow(Tag::Name, "Name", &[]),
    TagRow(Tag::OriginalDate, "OriginalDate", &[]),
    TagRow(Tag::Composer, "Composer", &[*b"IMUS"]),
    TagRow(Tag::ComposerSort, "ComposerSort", &[]),
    TagRow(Tag::Performer, "Performer", &[]),
    TagRow(Tag::Conductor, "Conductor", &[]),
    TagRow(Tag::Work, "Work", &[]),
    TagRow(Tag::Movement, "Movement", &[]),
    TagRow(Tag::MovementNumber, "MovementNumber", &[]),
    TagRow(Tag::Ensemble, "Ensemble", &[]),
    TagRow(Tag::Location, "Location", &[]),
    TagRow(Tag::Grouping, "Grouping", &[]),
    TagRow(Tag::Disc, "Disc", &[]),
    TagRow(Tag::Label, "Label", &[]),
    TagRow(Tag::MusicBrainzArtistId, "MUSICBRAINZ_ARTISTID", &[]),
    TagRow(Tag::MusicBrainzAlbumId, "MUSICBRAINZ_ALBUMID", &[]),
    TagRow(
        Tag::MusicBrainzAlbumArtistId,
        "MUSICBRAINZ_ALBUMARTISTID",
        &[],
    ),
    TagRow(Tag::MusicBrainzTrackId, "MUSICBRAINZ_TRACKID", &[]),
    TagRow(
        Tag::MusicBrainzReleaseTrackId,
        "MUSICBRAINZ_RELEASETRACKID",
        &[],
    ),
    TagRow(Tag::MusicBrainzWorkId, "MUSICBRAINZ_WORKID", &[]),
];

impl TagRow {
    fn is_named(&self, text: &[u8]) -> bool
        ensures { result ≡ same_letters self.now.1.now text.now }
    {
        self.1.as_bytes().eq_ignore_ascii_case(text)
    }

    fn has_id(&self, id: [u8; 4]) -> bool
        ensures { result ≡ list_any (λ own. bytes_eq own id) self.now.2.now }
    {
        self.2.contains(&id)
    }
}

fn rows() -> &'static [TagRow]
    ensures { rows_of result.now ≡ table }
{
    TABLE
}

impl Tag {
    /// The tag's number, which never changes, as files keep it.
    pub fn number(self) -> u8
        ensures number { result ≡ number_of self }
        ensures within { result < TAG_COUNT }
    {
        self as u8
    }

    /// The tag with a number.
    pub fn at(number: usize) -> Tag
        requires { number < TAG_COUNT }
        ensures tag { tag_at number ≡ Some result }
        ensures number { number_of result ≡ number }
    {
        rows()[number].0
    }

    /// The tag with a number, if there is one.
    pub fn from_number(number: u8) -> Option<Tag>
        ensures { result ≡ tag_at number }
    {
        let number = usize::from(number);
        if number >= TAG_COUNT {
            return None;
        }
        Some(Tag::at(number))
    }

    /// The name of the tag, as MPD prints it.
    pub fn name(self) -> &'static str
        ensures { result.now ≡ name_of self }
    {
        rows()[usize::from(self.number())].1
    }

    /// The tag of a name; the case of ASCII letters counts for nothing.
    pub fn named(text: &[u8]) -> Option<Tag>
        ensures { result ≡ tag_named text.now }
    {
        for row in rows() {
            if row.is_named(text) {
                return Some(row.0);
            }
        }
        None
    }

    /// The tag whose text a chunk of this id has, in the list INFO of a RIFF file.
    pub fn of_info(id: [u8; 4]) -> Option<Tag>
        ensures { result ≡ info_tag id }
    {
        for row in rows() {
            if row.has_id(id) {
                return Some(row.0);
            }
        }
        None
    }
}
