// Genres by the numbers that ID3v1 gives them.
ghost use Rattle.std.specs.Prelude.{◌≡◌, option_and_then, option_copied, slice_get, unwrap_or};
ghost use Rattle.song_head.specs.Genres.{genre_names, genre_name};
ghost use Rattle.song_head.specs.Numbers.{digits_of};
ghost use Rattle.song_head.specs.Rows.{names_of};

use crate::numbers::digits;

// The names of ID3v1 and its extensions, that of the number 0 first, as MPD 0.23 has them.
const NAMES: &[&str] = &[
    "Blues",
    "Classic Rock",
    "Country",
    "Dance",
    "Disco",
    "Funk",
    "Grunge",
    "Hip-Hop",
    "Jazz",
    "Metal",
    "New Age",
    "Oldies",
    "Other",
    "Pop",
    "R&B",
    "Rap",
    "Reggae",
    "Rock",
    "Techno",
    "Industrial",
    "Alternative",
    "Ska",
    "Death Metal",
    "Pranks",
    "Soundtrack",
    "Euro-Techno",
    "Ambient",
    "Trip-Hop",
    "Vocal",
    "Jazz+Funk",
    "Fusion",
    "Trance",
    "Classical",
    "Instrumental",
    "Acid",
    "House",
    "Game",
    "Sound Clip",
    "Gospel",
    "Noise",
    "AlternRock",
    "Bass",
    "Soul",
    "Punk",
    "Space",
    "Meditative",
    "Instrumental Pop",
    "Instrumental Rock",
    "Ethnic",
    "Gothic",
    "Darkwave",
    "Techno-Industrial",
    "Electronic",
    "Pop-Folk",
    "Eurodance",
    "Dream",
    "Southern Rock",
    "Comedy",
    "Cult",
    "Gangsta",
    "Top 40",
    "Christian Rap",
    "Pop/Funk",
    "Jungle",
    "Native American",
    "Cabaret",
    "New Wave",
    "Psychedelic",
    "Rave",
    "Showtunes",
    "Trailer",
    "Lo-Fi",
    "Tribal",
    "Acid Punk",
    "Acid Jazz",
    "Polka",
    "Retro",
    "Musical",
    "Rock & Roll",
    "Hard Rock",
    "Folk",
    "Folk/Rock",
    "National Folk",
    "Swing",
    "Fast-Fusion",
    "Bebob",
    "Latin",
    "Revival",
    "Celtic",
    "Bluegrass",
    "Avantgarde",
    "Gothic Rock",
    "Progressive Rock",
    "Psychedelic Rock",
    "Symphonic Rock",
    "Slow Rock",
    "Big Band",
    "Chorus",
    "Easy Listening",
    "Acoustic",
    "Humour",
    "Speech",
    "Chanson",
    "Opera",
    "Chamber Music",
    "Sonata",
    "Symphony",
    "Booty Bass",
    "Primus",
    "Porn Groove",
    "Satire",
    "Slow Jam",
    "Club",
    "Tango",
    "Samba",
    "Folklore",
    "Ballad",
    "Power Ballad",
    "Rhythmic Soul",
    "Freestyle",
    "Duet",
    "Punk Rock",
    "Drum Solo",
    "A Capella",
    "Euro-House",
    "Dance Hall",
    "Goa",
    "Drum & Bass",
    "Club-House",
    "Hardcore",
    "Terror",
    "Indie",
    "BritPop",
    "Negerpunk",
    "Polsk Punk",
    "Beat",
    "Christian Gangsta Rap",
    "Heavy Metal",
    "Black Metal",
    "Crossover",
    "Contemporary Christian",
    "Christian Rock",
    "Merengue",
    "Salsa",
    "Thrash Metal",
    "Anime",
    "JPop",
    "Synthpop",
];

fn names() -> &'static [&'static str]
    ensures { names_of result.now ≡ genre_names }
{
    NAMES
}

// The name of a number, if it has one.
fn name_of(number: u64) -> Option<&'static str>
    ensures { option_copied result ≡ slice_get genre_names number }
{
    let names = names();
    if number < names.len() as u64 {
        return Some(names[number as usize]);
    }
    None
}

// The name of a number, or of one of the two kinds that have letters; any other text as it is.
pub(crate) fn genre_name(text: &[u8]) -> &[u8]
    ensures { result.now ≡ genre_name text.now }
{
    match text {
        b"RX" => b"Remix",
        b"CR" => b"Cover",
        _ => numbered(text),
    }
}

fn numbered(text: &[u8]) -> &[u8]
    ensures { result.now ≡ unwrap_or (option_and_then (slice_get genre_names) (digits_of text.now)) text.now }
{
    let Some(number) = digits(text) else {
        return text;
    };
    match name_of(number) {
        Some(name) => name.as_bytes(),
        None => text,
    }
}
