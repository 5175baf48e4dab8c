// Laws of the tags that are wanted, for the layers above.
ghost use Rattle.std.specs.Prelude.{◌≡◌, ℕ, List, IfOk};
ghost use Rattle.song_files.specs.Tags.{first_text};
ghost use Rattle.song_files.specs.declared.tag.Tag.{Tag};
ghost use Rattle.song_files.specs.declared.tag_set.TagSet.{TagSet};
ghost use Rattle.wave_pcm.specs.Reading.{wave_reading};
ghost use Rattle.wave_pcm.specs.Restricted.{restricted_reading, full_reading, wanted_text};

use song_files::tag_sets;

/// A reading with some tags is that with all tags, without the texts of the others. The first text of a tag that is wanted is the one that
/// the file has of it, and there is none of another: a call brings its clauses into the proofs of its caller.
pub fn tag_choices()
    ensures restricted { (file : List ℕ) (wanted : TagSet) →
        wave_reading file wanted ≡ restricted_reading wanted (full_reading file) }
    ensures first { (file : List ℕ) (wanted : TagSet) (tag : Tag) →
        IfOk (wave_reading file wanted) (λ info. first_text info.tags tag ≡ wanted_text file wanted tag) }
{
    tag_sets();
}
