//! The law of the form `Wave`, for the layers above: a call brings its clauses into their proofs.
ghost use Rattle.std.specs.Prelude.{◌≡◌, ◌+◌, ◌*◌, ◌<◌, ◌≤◌, ℕ, ℤ, List, Ok, length, map, All};
ghost use Rattle.song_files.specs.declared.tag_set.TagSet.{TagSet};
ghost use Rattle.wave_pcm.specs.Pcm.{HasFrames, at_volume, frame_len, frames_from};
ghost use Rattle.wave_pcm.specs.Reading.{wave_reading};
ghost use Rattle.wave_pcm.specs.declared.info.WaveInfo.{WaveInfo};
ghost use Rattle.song_output.specs.OwnFile.{AreFrames, own_info};
ghost use Rattle.song_output.specs.Sound.{bytes_of, frames_given, in_form, most_frames};
ghost use Rattle.song_output.specs.declared.output.Form.{Form};

/// Whole frames of a song whose head was read, some and at most 4,096, are in the form `Wave` a WAVE file of their own (RIFF
/// WAVE 1.0): it is read as a head of 44 bytes with the song's rate and channels, whatever tags are wanted, and as just these
/// frames; nothing follows them. The frames that an order asks for are such, at each volume, if there are any.
pub fn own_file_is_read()
    ensures head { (file : List ℕ) (info : WaveInfo) (count : ℕ) (samples : List ℤ) (wanted own : TagSet) →
        wave_reading file wanted ≡ Ok info → AreFrames info count samples →
        wave_reading (in_form Form.Wave info (bytes_of samples)) own ≡ Ok (own_info info count) }
    ensures frames { (file : List ℕ) (info : WaveInfo) (count : ℕ) (samples : List ℤ) (wanted : TagSet) →
        wave_reading file wanted ≡ Ok info → AreFrames info count samples →
        frames_from (in_form Form.Wave info (bytes_of samples)) (own_info info count) 0 count ≡ samples }
    ensures end { (file : List ℕ) (info : WaveInfo) (count : ℕ) (samples : List ℤ) (wanted : TagSet) →
        wave_reading file wanted ≡ Ok info → AreFrames info count samples →
        length (in_form Form.Wave info (bytes_of samples)) ≡ 44 + frame_len info * count }
    ensures ordered { (file : List ℕ) (info : WaveInfo) (first volume : ℕ) → HasFrames info file → All (λ b. b < 256) file →
        volume ≤ 100 → 0 < frames_given info first → AreFrames info (frames_given info first)
        (map (at_volume volume) (frames_from file info first most_frames)) }
{}
