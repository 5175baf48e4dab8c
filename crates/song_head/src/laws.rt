// Laws of the reading of songs' files, for the layers above.
ghost use Rattle.std.specs.Prelude.{◌≡◌, ◌≤◌, ℕ, List, true, false, IfOk};
ghost use Rattle.wave_pcm.specs.Reading.{wave_reading};
ghost use Rattle.song_head.specs.SongReading.{MAX_TEXT_BYTES, song_reading, text_bytes};
ghost use Rattle.song_head.specs.declared.rules.ReadingRules.{ReadingRules};

/// Where no ID3v2 tag is asked for, a song's file is read as a WAVE file with the tags that are wanted: a call brings it into the proofs
/// of its caller.
pub fn song_readings()
    ensures plain { (file : List ℕ) (rules : ReadingRules) → rules.id3 ≡ false → song_reading file rules ≡ wave_reading file rules.tags }
{}

/// Where several texts of a tag are told, those of a song take no more than 30,000 bytes, with three more for each: a call brings it into
/// the proofs of its caller.
pub fn texts_fit()
    ensures short { (file : List ℕ) (rules : ReadingRules) → rules.id3 ≡ true → rules.several ≡ true →
        IfOk (song_reading file rules) (λ info. text_bytes info.tags ≤ MAX_TEXT_BYTES) }
{}
