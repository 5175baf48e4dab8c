// A snapshot that is handed over in pieces.
ghost use Rattle.std.specs.Prelude.{◌≡◌, ◌≤◌, ◌<◌, ◌+◌, ◌++◌, [], false, true, length, vec_capacity, fold, bit_xor, OnOk};
ghost use Rattle.std.specs.List.{flat_map};
ghost use Rattle.state_codec.specs.Appended.{HasRoom};
ghost use Rattle.state_codec.specs.Checksum.{with_byte, ONES};
ghost use Rattle.state_codec.specs.Pieces.{longest_piece, IsPiece, sealed_from};
ghost use Rattle.state_codec.specs.SavedState.{IsSavedState};
ghost use Rattle.state_codec.specs.Spelling.{fields_of, head_bytes, parts_bytes, saved_bytes, with_fields};
ghost use Rattle.state_codec.specs.SpellingFields.{byte_bytes, u32_bytes};

use crate::checksum::with_bytes;
use crate::saved::Saved;
use crate::writing::{put_u32, saved_len};
use items::{EntriesLeft, HeadLeft, ListsLeft, RowsLeft, StickersLeft};
use part::{Both, Counted, Part, fill};
use place::{PlaceHeadLeft, RoundLeft};
use profile::Profile;
use std::marker::Model;
use times::{TimesHeadLeft, TimesLeft};

mod items;
mod part;
mod place;
mod times;

type PlaceLeft<'a> = Both<PlaceHeadLeft<'a>, RoundLeft<'a>>;

type FieldsLeft<'a> = Both<TimesHeadLeft<'a>, Both<TimesLeft<'a>, PlaceLeft<'a>>>;

type Texts<'a> = Both<Counted<ListsLeft<'a>>, Both<Counted<StickersLeft<'a>>, FieldsLeft<'a>>>;

type Parts<'a> = Both<
    HeadLeft<'a>,
    Both<Counted<RowsLeft<'a>>, Both<Counted<EntriesLeft<'a>>, Texts<'a>>>,
>;

/// The snapshot of a saved state, from front to back, without memory: pieces of at most 65,536 bytes are spelled where they go. Contracts
/// see the bytes that are left.
#[derive(Drop)]
pub struct SavedPieces<'a> {
    parts: Parts<'a>,
    profile: Profile,
    sum: u32,
    has_ended: bool,
    len: usize,
}

impl<'a> Model for SavedPieces<'a> {
    ghost use Rattle.std.specs.Prelude.{◌≡◌, List, ℕ, length};
    ghost use Rattle.state_codec.specs.Pieces.{snapshot_left};

    ghost Value = { List ℕ };

    ghost view = { λ s. snapshot_left s.has_ended s.profile s.sum (⟦<Parts<'static> as Part>⟧.left s.parts) };

    ghost invariant = { λ s. s.len ≡ length (snapshot_left s.has_ended s.profile s.sum (⟦<Parts<'static> as Part>⟧.left s.parts)) };
}

impl<'a> SavedPieces<'a> {
    /// The snapshot of a saved state. Its bytes are counted in a pass over the state.
    pub fn new(saved: &'a Saved) -> Self
        ensures spelled { result ≡ saved_bytes saved.now }
        ensures in_range { IsSavedState saved.now }
    {
        let _key = saved.key();
        SavedPieces {
            parts: parts_of(saved),
            profile: saved.profile(),
            sum: u32::MAX,
            has_ended: false,
            len: saved_len(saved),
        }
    }

    /// How many bytes are left.
    pub fn len(&self) -> usize
        ensures { result ≡ length self.now }
    {
        self.len
    }

    /// Puts the next piece into the buffer, in place of what that held, without memory. It has at most 65,536 bytes, and at least 32,768
    /// unless it is the last one. Each entry of the queue takes a binary search for its row.
    pub fn next(&mut self, buffer: &mut Vec<u8>)
        requires room { longest_piece ≤ vec_capacity buffer.old }
        ensures piece { IsPiece self.old buffer.new.items self.new }
        ensures room { vec_capacity buffer.old ≤ vec_capacity buffer.new }
    {
        buffer.clear();
        if self.has_ended {
            return;
        }
        if fill(&mut self.parts, buffer) {
            put_end(buffer, self.profile, self.sum);
            self.has_ended = true;
            self.len = 0;
            return;
        }
        self.sum = sum_on(self.profile, self.sum, buffer);
        self.len -= buffer.len();
    }
}

// The head, the four parts and the fields of a saved state.
fn parts_of(saved: &Saved) -> Parts<'_>
    ensures { ⟦<Parts<'static> as Part>⟧.left result
        ≡ with_fields saved.now.profile saved.now.changed saved.now.place (head_bytes saved.now ++ parts_bytes saved.now) }
{
    let _key = saved.key();
    Both {
        first: HeadLeft::new(saved),
        second: Both {
            first: Counted {
                count: saved.songs().len() as u32,
                is_told: false,
                items: RowsLeft::new(saved),
            },
            second: Both {
                first: Counted {
                    count: saved.queue().len() as u32,
                    is_told: false,
                    items: EntriesLeft::new(saved),
                },
                second: Both {
                    first: Counted {
                        count: saved.lists().len() as u32,
                        is_told: false,
                        items: ListsLeft::new(saved.lists()),
                    },
                    second: Both {
                        first: Counted {
                            count: saved.stickers().len() as u32,
                            is_told: false,
                            items: StickersLeft::new(saved.stickers()),
                        },
                        second: fields_of(saved),
                    },
                },
            },
        },
    }
}

// The fields of a saved state.
fn fields_of(saved: &Saved) -> FieldsLeft<'_>
    ensures { ⟦<FieldsLeft<'static> as Part>⟧.left result ≡ fields_of saved.now }
{
    let _key = saved.key();
    Both {
        first: TimesHeadLeft::new(saved.changed(), saved.place()),
        second: Both {
            first: TimesLeft::new(saved.changed()),
            second: Both {
                first: PlaceHeadLeft::new(saved.place()),
                second: RoundLeft::new(saved.place()),
            },
        },
    }
}

// Puts the checksum behind the last of a snapshot's bytes, where the sum of those before has come so far.
fn put_end(out: &mut Vec<u8>, profile: Profile, sum: u32)
    requires { HasRoom out.old 4 }
    ensures items { out.new.items ≡ sealed_from profile sum out.old.items }
    ensures capacity { vec_capacity out.new ≡ vec_capacity out.old }
{
    if let Profile::Wide = profile {
        let sum = with_bytes(sum, out.as_slice()) ^ u32::MAX;
        put_u32(out, sum);
    }
}

// The sum behind a piece, where the profile asks for one.
fn sum_on(profile: Profile, sum: u32, piece: &[u8]) -> u32
    ensures named { profile ≡ Profile.Named → result ≡ sum }
    ensures wide { profile ≡ Profile.Wide → result ≡ fold with_byte sum piece.now }
{
    match profile {
        Profile::Named => sum,
        Profile::Wide => with_bytes(sum, piece),
    }
}
