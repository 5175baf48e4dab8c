// The piece of a file that was read last.
ghost use Rattle.std.specs.Prelude.{◌≡◌, ◌+◌, ◌<◌, ◌≤◌, ◌^◌, ◌∷◌, ℕ, List, [], length, None, Some, IfOk, IfErr, OnOk, IsErrOf};
ghost use Rattle.std.specs.Int.{w64, to_le_bytes};
ghost use Rattle.decoded_files.specs.Frames.{frame};
ghost use Rattle.decoded_files.specs.Kept.{KeepsLink};
ghost use Rattle.decoded_files.specs.Pieces.{bytes_from, IsPieceAt};
ghost use Rattle.decoded_files.specs.Sources.{IsOpened, IsInStep};

use crate::answer::take_answer;
use crate::request::{open_request, read_request};
use crate::{DecoderError, DecoderLink};
use song_files::tag_text;
use std::alloc::{AllocError, Global};
use std::marker::Model;

/// How many bytes are asked for at most.
pub(crate) const PIECE_LEN: usize = 65_536;

/// How many bytes are asked for where the piece before isn't the one that was read last.
const SHORT_LEN: usize = 4_096;

/// How long a WAVE file is at most: its size field, and the 8 bytes up to behind that.
const MAX_WAVE: u64 = 4_294_967_303;

/// The statuses of answers.
const OK: u8 = 0;

const NO_SONG: u8 = 1;

const FAILED: u8 = 2;

/// A piece of a file, with room for the longest answer.
#[derive(Drop)]
pub(crate) struct Piece {
    // A status, and then the piece.
    room: Vec<u8>,
    start: u64,
    filled: usize,
}

impl Model for Piece {
    ghost use Rattle.std.specs.Prelude.{◌≡◌, ◌≤◌, take, drop, vec_len};
    ghost use Rattle.decoded_files.specs.Pieces.{Piece as PieceOf};

    ghost Value = { PieceOf };

    ghost view = { λ p. record { start = p.start; bytes = take p.filled (drop 1 p.room.items) } };

    ghost invariant = { λ p. (vec_len p.room ≡ 65537) × (p.filled ≤ 65536) };
}

impl Piece {
    /// Room, and no piece.
    pub(crate) fn new(alloc: Global) -> Result<Self, AllocError>
        ensures { IfOk result (λ piece. piece ≡ record { start = 0; bytes = [] }) }
    {
        let room = vec![in alloc; 0u8; PIECE_LEN + 1]?;
        Ok(Piece {
            room,
            start: 0,
            filled: 0,
        })
    }

    /// What it has from an offset on.
    #[tactic(auto, unfolding(crate::specs::Pieces::bytes_from))]
    pub(crate) fn bytes_from(&self, at: u64) -> &[u8]
        ensures { result.now ≡ bytes_from self.now at }
    {
        let bytes = &self.room[1..1 + self.filled];
        match at.checked_sub(self.start) {
            Some(skip) if skip <= bytes.len() as u64 => &bytes[skip as usize..],
            _ => &[],
        }
    }

    /// How many bytes are asked for from an offset on: few where the last piece doesn't end there.
    pub(crate) fn count_at(&self, at: u64) -> usize
        ensures some { 0 < result }
        ensures most { result ≤ 65536 }
    {
        if self.filled > 0 && at.checked_sub(self.start) == Some(self.filled as u64) {
            PIECE_LEN
        } else {
            SHORT_LEN
        }
    }
}

impl Piece {
    /// Takes an answer with at most so many bytes behind its status, which are the piece then.
    fn take<L: DecoderLink>(&mut self, link: &mut L, most: usize) -> Result<(), DecoderError>
        requires { most ≤ 65536 }
        ensures few { OnOk result (length self.new.bytes ≤ most) }
        ensures start { self.new.start ≡ self.old.start }
        ensures ok { L.honest link.old → (body : List ℕ) → length body < 2 ^ 32 → L.coming link.old ≡ frame body →
            OnOk result (body ≡ OK ∷ self.new.bytes) }
        ensures no_song { L.honest link.old → (body : List ℕ) → length body < 2 ^ 32 → L.coming link.old ≡ frame body →
            IsErrOf result DecoderError.NoSong → body ≡ NO_SONG ∷ self.new.bytes }
        ensures whole { L.honest link.old → (body : List ℕ) → length body < 2 ^ 32 → L.coming link.old ≡ frame body →
            OnOk result (L.coming link.new ≡ []) }
        ensures kept { L.honest link.old → KeepsLink L.honest L.told L.opened link.old link.new }
    {
        self.filled = 0;
        let answer = take_answer(link, &mut self.room, most)?;
        self.filled = answer.len;
        match answer.status {
            OK => Ok(()),
            NO_SONG => Err(DecoderError::NoSong),
            FAILED => Err(DecoderError::Failed),
            _ => Err(DecoderError::BadAnswer),
        }
    }

    /// Asks for the opening of a file, and says the length of its WAVE file. Where the decoder says why not, that is the piece then.
    pub(crate) fn open<L: DecoderLink>(
        &mut self,
        alloc: Global,
        link: &mut L,
        path: &str,
    ) -> Result<u64, DecoderError>
        ensures opened { L.honest link.old → L.opened link.old ≡ None →
            IfOk result (IsOpened (L.told link.new) (L.opened link.new)) }
        ensures path { L.honest link.old → L.opened link.old ≡ None → OnOk result (L.opened link.new ≡ Some path.now) }
        ensures no_song { L.honest link.old → L.opened link.old ≡ None →
            IsErrOf result DecoderError.NoSong → L.told link.old path.now ≡ None }
        ensures whole { L.honest link.old → L.opened link.old ≡ None → OnOk result (L.coming link.new ≡ []) }
        ensures none { OnOk result (self.new.bytes ≡ []) }
        ensures honest { L.honest link.old → L.opened link.old ≡ None → L.honest link.new }
        ensures told { L.honest link.old → L.opened link.old ≡ None → L.told link.new ≡ L.told link.old }
    {
        let request = open_request(alloc, path)?;
        link.send(&request)?;
        self.take(link, PIECE_LEN)?;
        let len = self.told_len()?;
        self.filled = 0;
        Ok(len)
    }

    // The length that stands in it.
    fn told_len(&self) -> Result<u64, DecoderError>
        ensures len { (len : ℕ) → len < 2 ^ 64 → self.now.bytes ≡ to_le_bytes w64 len → IfOk result (λ n. n ≡ len) }
        ensures short { IfOk result (λ n. n ≤ MAX_WAVE) }
        ensures error { IfErr result (λ error. error ≡ DecoderError.BadAnswer) }
    {
        match <[u8; 8]>::try_from(&self.room[1..1 + self.filled]) {
            Ok(bytes) => {
                let len = u64::from_le_bytes(bytes);
                if len > MAX_WAVE {
                    return Err(DecoderError::BadAnswer);
                }
                Ok(len)
            }
            Err(_) => Err(DecoderError::BadAnswer),
        }
    }

    /// Asks for so many bytes from an offset on, which are the piece then: at least one of them.
    pub(crate) fn fetch<L: DecoderLink>(
        &mut self,
        link: &mut L,
        at: u64,
        count: usize,
    ) -> Result<(), DecoderError>
        requires { count ≤ 65536 }
        ensures place { OnOk result (self.new.start ≡ at) }
        ensures some { OnOk result (0 < length self.new.bytes) }
        ensures few { OnOk result (length self.new.bytes ≤ count) }
        ensures read { L.honest link.old → (path wave : List ℕ) → L.opened link.old ≡ Some path → L.told link.old path ≡ Some wave →
            L.coming link.old ≡ [] → OnOk result (IsInStep wave (L.coming link.new) self.new) }
        ensures kept { L.honest link.old → (path : List ℕ) → L.opened link.old ≡ Some path →
            KeepsLink L.honest L.told L.opened link.old link.new }
    {
        self.start = at;
        link.send(&read_request(at, count as u32))?;
        self.take(link, count)?;
        if self.filled == 0 {
            return Err(DecoderError::BadAnswer);
        }
        Ok(())
    }

    /// The decoder's words, where it said why a file isn't opened: a short text without control characters, or none.
    pub(crate) fn words(&self) -> &str {
        match tag_text(&self.room[1..1 + self.filled]) {
            Some(words) => words,
            None => "",
        }
    }
}
