//! The laws of what a file stands for, for the layers above: a call brings its clauses into their proofs.
ghost use Rattle.std.specs.Prelude.{◌≡◌, ◌*◌, ◌<◌, ℕ, List, Ok, All, false, true, take, drop};
ghost use Rattle.song_files.specs.Tags.{TagText};
ghost use Rattle.song_files.specs.declared.tag_set.TagSet.{TagSet};
ghost use Rattle.wave_pcm.specs.Chunks.{Chunk};
ghost use Rattle.wave_pcm.specs.Pcm.{frames_from};
ghost use Rattle.wave_pcm.specs.Parts.{file_parts};
ghost use Rattle.wave_pcm.specs.Reading.{is_long, texts_in, wave_reading};
ghost use Rattle.wave_pcm.specs.declared.info.WaveInfo.{WaveInfo};
ghost use Rattle.wave_pcm.specs.declared.info.ChunkPlace.{ChunkPlace};
ghost use Rattle.flac.specs.declared.head.FlacHead.{FlacHead};
ghost use Rattle.as_wave.specs.FlacLaws.{IsFlac, IsTold, flac_info, has_tag};
ghost use Rattle.as_wave.specs.FlacSamples.{flac_samples};
ghost use Rattle.as_wave.specs.Forms.{as_wave};
ghost use Rattle.as_wave.specs.OwnHead.{IsMade, own_info};
ghost use Rattle.as_wave.specs.Samples.{frames_in, sound_in};
ghost use Rattle.as_wave.specs.declared.format.SampleFormat.{SampleFormat};
ghost use Rattle.as_wave.specs.declared.forms.Forms.{Forms};

/// A file that is read as a WAVE file stands for itself.
pub fn plain_file_stays()
    ensures { (forms : Forms) (file : List ℕ) (wanted : TagSet) (info : WaveInfo) → wave_reading file wanted ≡ Ok info → as_wave forms file ≡ file }
{}

/// The WAVE file that a file stands for is read, unless it has more chunks than a file may (those inside lists counted): with the rate,
/// the channels, the whole frames and the texts of the file.
pub fn wave_file_is_read()
    ensures { (file wave : List ℕ) (wanted : TagSet) (format : SampleFormat) (sound : Chunk) → IsMade file wave format sound →
        is_long (file_parts wave) ≡ false →
        wave_reading wave wanted ≡ Ok (own_info format (frames_in format sound.body) (texts_in (file_parts file) wanted)) }
{}

/// The frames of the WAVE file that a file stands for are the file's samples at 16 bits, in their order.
pub fn frames_are_the_samples()
    ensures { (file wave : List ℕ) (format : SampleFormat) (sound : Chunk) (texts : List TagText) → IsMade file wave format sound →
        All (λ b. b < 256) file → (from most : ℕ) →
        frames_from wave (own_info format (frames_in format sound.body) texts) from most
        ≡ take (format.channels * most) (drop (format.channels * from) (sound_in format sound.body)) }
{}

/// The WAVE file that a FLAC file stands for is read, with STREAMINFO's rate, channels and frames.
pub fn flac_file_is_read()
    ensures { (file wave : List ℕ) (wanted : TagSet) (head : FlacHead) → IsFlac file wave head → wave_reading wave wanted ≡ Ok (flac_info head) }
{}

/// Its frames are the FLAC file's samples at 16 bits, in their order.
pub fn flac_frames_are_the_samples()
    ensures { (file wave : List ℕ) (head : FlacHead) → IsFlac file wave head → (from most : ℕ) →
        frames_from wave (flac_info head) from most
        ≡ take (head.info.channels * most) (drop (head.info.channels * from) (flac_samples file head)) }
{}

/// Its tag tells the comments that have a frame, in their order, and the first front cover, else the first picture.
pub fn flac_comments_are_told()
    ensures { (file wave : List ℕ) (head : FlacHead) → IsFlac file wave head → has_tag file head ≡ true →
        (place : ChunkPlace) × IsTold file wave head place }
{}
