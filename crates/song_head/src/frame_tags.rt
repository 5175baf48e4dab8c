// The tags that frames of ID3v2 tell.
ghost use Rattle.std.specs.Prelude.{◌≡◌};
ghost use Rattle.song_head.specs.FrameTags.{frames, described_frames, has_id, is_described, tag_by_id, tag_by_description, comments, comment_tag, frame_tag};
ghost use Rattle.song_head.specs.Rows.{frame_of, frames_of, described_of, all_described};

use song_files::Tag;

// The id of a frame, and the tag that it tells.
#[derive(Clone, Copy)]
struct FrameRow([u8; 4], Tag);

// Those that tell it whatever their description is.
const FRAMES: &[FrameRow] = &[
    FrameRow(*b"TIT2", Tag::Title),
    FrameRow(*b"TPE1", Tag::Artist),
    FrameRow(*b"TALB", Tag::Album),
    FrameRow(*b"TDRC", Tag::Date),
    FrameRow(*b"TYER", Tag::Date),
    FrameRow(*b"TCON", Tag::Genre),
    FrameRow(*b"COMM", Tag::Comment),
    FrameRow(*b"TSOP", Tag::ArtistSort),
    FrameRow(*b"TSOA", Tag::AlbumSort),
    FrameRow(*b"TPE2", Tag::AlbumArtist),
    FrameRow(*b"TSO2", Tag::AlbumArtistSort),
    FrameRow(*b"TRCK", Tag::Track),
    FrameRow(*b"TDOR", Tag::OriginalDate),
    FrameRow(*b"TORY", Tag::OriginalDate),
    FrameRow(*b"TCOM", Tag::Composer),
    FrameRow(*b"TPE4", Tag::Performer),
    FrameRow(*b"TPE3", Tag::Conductor),
    FrameRow(*b"TIT1", Tag::Grouping),
    FrameRow(*b"TPOS", Tag::Disc),
    FrameRow(*b"TPUB", Tag::Label),
];

// The id of a frame, its description, and the tag that both tell.
#[derive(Clone, Copy)]
struct DescribedRow([u8; 4], &'static str, Tag);

const DESCRIBED: &[DescribedRow] = &[
    DescribedRow(*b"TXXX", "ALBUMARTISTSORT", Tag::AlbumArtistSort),
    DescribedRow(*b"TXXX", "MusicBrainz Artist Id", Tag::MusicBrainzArtistId),
    DescribedRow(*b"TXXX", "MusicBrainz Album Id", Tag::MusicBrainzAlbumId),
    DescribedRow(
        *b"TXXX",
        "MusicBrainz Album Artist Id",
        Tag::MusicBrainzAlbumArtistId,
    ),
    DescribedRow(*b"TXXX", "MusicBrainz Track Id", Tag::MusicBrainzTrackId),
    DescribedRow(*b"UFID", "http://musicbrainz.org", Tag::MusicBrainzTrackId),
    DescribedRow(
        *b"TXXX",
        "MusicBrainz Release Track Id",
        Tag::MusicBrainzReleaseTrackId,
    ),
    DescribedRow(*b"TXXX", "MusicBrainz Work Id", Tag::MusicBrainzWorkId),
];

// The comments of FLAC files for which no frame stands.
const COMMENTS: &[DescribedRow] = &[
    DescribedRow(*b"TXXX", "COMPOSERSORT", Tag::ComposerSort),
    DescribedRow(*b"TXXX", "NAME", Tag::Name),
    DescribedRow(*b"TXXX", "WORK", Tag::Work),
    DescribedRow(*b"TXXX", "MOVEMENT", Tag::Movement),
    DescribedRow(*b"TXXX", "MOVEMENTNUMBER", Tag::MovementNumber),
    DescribedRow(*b"TXXX", "ENSEMBLE", Tag::Ensemble),
    DescribedRow(*b"TXXX", "LOCATION", Tag::Location),
];

impl FrameRow {
    fn has_id(&self, id: [u8; 4]) -> bool
        ensures { result ≡ has_id id (frame_of self.now) }
    {
        self.0 == id
    }
}

impl DescribedRow {
    fn is_described(&self, id: [u8; 4], description: &str) -> bool
        ensures { result ≡ is_described id description.now (described_of self.now) }
    {
        self.0 == id && self.1 == description
    }
}

fn frame_rows() -> &'static [FrameRow]
    ensures { frames_of result.now ≡ frames }
{
    FRAMES
}

fn described_rows() -> &'static [DescribedRow]
    ensures { all_described result.now ≡ described_frames }
{
    DESCRIBED
}

fn comment_rows() -> &'static [DescribedRow]
    ensures { all_described result.now ≡ comments }
{
    COMMENTS
}

fn tag_by_id(id: [u8; 4]) -> Option<Tag>
    ensures { result ≡ tag_by_id id }
{
    for row in frame_rows() {
        if row.has_id(id) {
            return Some(row.1);
        }
    }
    None
}

fn tag_by_description(id: [u8; 4], description: &str) -> Option<Tag>
    ensures { result ≡ tag_by_description id description.now }
{
    for row in described_rows() {
        if row.is_described(id, description) {
            return Some(row.2);
        }
    }
    None
}

// The tag of a comment of a FLAC file for which no frame stands, and that is told by its name.
pub(crate) fn comment_tag(id: [u8; 4], description: &str) -> Option<Tag>
    ensures { result ≡ comment_tag id description.now }
{
    for row in comment_rows() {
        if row.is_described(id, description) {
            return Some(row.2);
        }
    }
    None
}

/// The tag that a frame of ID3v2.4 with this id and description tells, as MPD 0.23 has it; of UFID the owner is the description. The
/// frames TYER and TORY of older versions are those of the date and the original date.
pub fn frame_tag(id: [u8; 4], description: &str) -> Option<Tag>
    ensures { result ≡ frame_tag id description.now }
{
    match tag_by_id(id) {
        Some(tag) => Some(tag),
        None => tag_by_description(id, description),
    }
}
