// The tags whose texts stand in for those of a tag that a song hasn't.
ghost use Rattle.std.specs.Prelude.{◌≡◌, List, false};
ghost use Rattle.song_files.specs.Tags.{TagText};
ghost use Rattle.filter_expr.specs.Fallback.{fallbacks, told_by, told_tag, has_fallback};

use song_files::{Tag, Tags};

/// One after the other.
fn fallbacks(tag: Tag) -> &'static [Tag]
    ensures { result.now ≡ fallbacks tag }
{
    match tag {
        Tag::ArtistSort => &[Tag::Artist],
        Tag::AlbumSort => &[Tag::Album],
        Tag::AlbumArtist => &[Tag::Artist],
        Tag::AlbumArtistSort => &[Tag::AlbumArtist, Tag::Artist],
        _ => &[],
    }
}

/// Whether texts of other tags are told for a tag where a song has none of its own.
pub fn has_fallback(tag: Tag) -> bool
    ensures value { result ≡ has_fallback tag }
    ensures own { result ≡ false → (tags : List TagText) → told_tag tags tag ≡ tag }
{
    !fallbacks(tag).is_empty()
}

/// The tag whose texts are told for a tag: itself, or, where the song has none of it, that of the first one in its place of which
/// there is a text.
pub fn told_tag(tags: &Tags, tag: Tag) -> Tag
    ensures { result ≡ told_tag tags.now tag }
{
    told_by(tags, tag, fallbacks(tag))
}

fn told_by(tags: &Tags, tag: Tag, others: &[Tag]) -> Tag
    ensures { result ≡ told_by tags.now tag others.now }
{
    let mut told = tag;
    let mut rest = others;
    while let [other, behind @ ..] = rest {
        if tags.get(told).is_some() {
            return told;
        }
        told = *other;
        rest = behind;
    }
    told
}
