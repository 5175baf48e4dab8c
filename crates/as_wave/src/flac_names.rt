// The frames of ID3v2.4 for the names of Vorbis comments.
ghost use Rattle.std.specs.Prelude.{◌≡◌, option_map};
ghost use Rattle.std.specs.Str.{bytes_eq};
ghost use Rattle.as_wave.specs.FlacNames.{frame_names, frame_named};
ghost use Rattle.as_wave.specs.FlacRows.{frame_of, frames_of};

/// The name of a comment, in upper case, the id of its frame, and a description where frames of this id have one.
#[derive(Clone, Copy)]
pub struct FrameRow(pub &'static str, pub [u8; 4], pub &'static str);

const ROWS: &[FrameRow] = &[
    FrameRow("TITLE", *b"TIT2", ""),
    FrameRow("ARTIST", *b"TPE1", ""),
    FrameRow("ARTISTSORT", *b"TSOP", ""),
    FrameRow("ALBUM", *b"TALB", ""),
    FrameRow("ALBUMSORT", *b"TSOA", ""),
    FrameRow("ALBUMARTIST", *b"TPE2", ""),
    FrameRow("ALBUM ARTIST", *b"TPE2", ""),
    FrameRow("ALBUMARTISTSORT", *b"TSO2", ""),
    FrameRow("TRACKNUMBER", *b"TRCK", ""),
    FrameRow("TRACK", *b"TRCK", ""),
    FrameRow("GENRE", *b"TCON", ""),
    FrameRow("DATE", *b"TDRC", ""),
    FrameRow("ORIGINALDATE", *b"TDOR", ""),
    FrameRow("COMPOSER", *b"TCOM", ""),
    FrameRow("PERFORMER", *b"TPE4", ""),
    FrameRow("CONDUCTOR", *b"TPE3", ""),
    FrameRow("GROUPING", *b"TIT1", ""),
    FrameRow("COMMENT", *b"COMM", ""),
    FrameRow("DESCRIPTION", *b"COMM", ""),
    FrameRow("DISCNUMBER", *b"TPOS", ""),
    FrameRow("DISC", *b"TPOS", ""),
    FrameRow("LABEL", *b"TPUB", ""),
    FrameRow("ORGANIZATION", *b"TPUB", ""),
    FrameRow("MUSICBRAINZ_ARTISTID", *b"TXXX", "MusicBrainz Artist Id"),
    FrameRow("MUSICBRAINZ_ALBUMID", *b"TXXX", "MusicBrainz Album Id"),
    FrameRow(
        "MUSICBRAINZ_ALBUMARTISTID",
        *b"TXXX",
        "MusicBrainz Album Artist Id",
    ),
    FrameRow("MUSICBRAINZ_TRACKID", *b"TXXX", "MusicBrainz Track Id"),
    FrameRow(
        "MUSICBRAINZ_RELEASETRACKID",
        *b"TXXX",
        "MusicBrainz Release Track Id",
    ),
    FrameRow("MUSICBRAINZ_WORKID", *b"TXXX", "MusicBrainz Work Id"),
    FrameRow("COMPOSERSORT", *b"TXXX", "COMPOSERSORT"),
    FrameRow("NAME", *b"TXXX", "NAME"),
    FrameRow("WORK", *b"TXXX", "WORK"),
    FrameRow("MOVEMENT", *b"TXXX", "MOVEMENT"),
    FrameRow("MOVEMENTNUMBER", *b"TXXX", "MOVEMENTNUMBER"),
    FrameRow("ENSEMBLE", *b"TXXX", "ENSEMBLE"),
    FrameRow("LOCATION", *b"TXXX", "LOCATION"),
];

impl FrameRow {
    fn is_named(&self, name: &str) -> bool
        ensures { result ≡ bytes_eq self.now.0.now name.now }
    {
        self.0 == name
    }
}

fn rows() -> &'static [FrameRow]
    ensures { frames_of result.now ≡ frame_names }
{
    ROWS
}

/// The frame for the comments of a name.
pub fn frame_named(name: &str) -> Option<FrameRow>
    ensures { option_map frame_of result ≡ frame_named name.now }
{
    for row in rows() {
        if row.is_named(name) {
            return Some(*row);
        }
    }
    None
}
