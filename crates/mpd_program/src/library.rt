//! The library of a configuration: which files are songs, and by which rules they are found and read.
ghost use Rattle.std.specs.Prelude.{◌≡◌, false};
ghost use Rattle.mpd_program.specs.Library.{endings_of, rules_of};

use as_wave::Forms;
use profile::Profile;
use song_db::{Endings, LibraryRules};
use song_files::TagSet;
use song_head::ReadingRules;

// The endings of songs' names where these forms are, and where a decoder is.
fn endings_of(forms: Forms, decodes: bool) -> Endings
    ensures { result ≡ endings_of forms decodes }
{
    Endings {
        wave: forms.wave_pcm,
        flac: forms.flac,
        decoded: decodes,
    }
}

/// By which rules songs are found and read under a profile where these forms are, and where a decoder is: the names of their files, and
/// what is read of them. Of the named subset the tags of ID3v2 are read with any of these, of the wide profile always.
pub fn rules_of(profile: Profile, forms: Forms, decodes: bool) -> LibraryRules
    ensures { result ≡ rules_of profile forms decodes }
{
    let endings = endings_of(forms, decodes);
    match profile {
        Profile::Named => LibraryRules {
            endings,
            reading: ReadingRules {
                tags: TagSet::SIX,
                id3: forms.wave_pcm || forms.flac || decodes,
                several: false,
            },
            keeps_stamps: false,
        },
        Profile::Wide => LibraryRules {
            endings,
            reading: ReadingRules {
                tags: TagSet::ALL,
                id3: true,
                several: true,
            },
            keeps_stamps: true,
        },
    }
}

/// Law: where no other form is taken and no decoder is, the rules are the plain ones of the profile.
pub fn plain_rules()
    ensures named { rules_of Profile.Named (record { wave_pcm = false; flac = false }) false ≡ LibraryRules.NAMED }
    ensures wide { rules_of Profile.Wide (record { wave_pcm = false; flac = false }) false ≡ LibraryRules.WIDE }
{}
