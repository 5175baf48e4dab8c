// What a request makes while its commands are performed: the bytes of its answers and its ops, within their limits.
ghost use Rattle.std.specs.Prelude.{◌≡◌, ◌+◌, ◌<◌, ◌≤◌, length, vec_capacity, None, IfSome};
ghost use Rattle.state_codec.specs.Spelling.{ops_bytes};
ghost use Rattle.machine_core.specs.Front.{front_of};
ghost use Rattle.machine_core.specs.Size.{max_request_bytes, room_by};

use command_text::{CommandRefusal, Refusal, want_of_memory, write_ack, write_list_ok, write_ok};
use no_memory::NoMemory;
use profile::Profile;
use state_codec::{Op, checksum_len};
use std::alloc::{AllocError, AllocFailed, Global};

/// A record of the journal holds so many bytes: the ops of one request, and the sum behind them where the profile has one.
pub const MAX_REQUEST_BYTES: usize = 2_097_152;

/// A session takes no answer of more bytes (`OUTPUT_LIMIT` of `client_session`): of a longer one a front is given out that is longer too,
/// so that it is refused there, by its own number.
pub const LONGEST_ANSWER: usize = 8_388_608;

/// What is kept of the player and of the playlists' time behind one command takes at most so many bytes ..
pub(crate) const LONGEST_KEEP: usize = 33;

/// .. and so many ops.
pub(crate) const KEEP_COUNT: usize = 4;

/// Room for `list_OK` and the longest `ACK` line of want of memory behind it.
const COMMAND_ROOM: usize = 72;

/// What a request's commands have made so far: the answer's bytes, and the ops with the size in bytes of a record of them.
#[derive(Drop)]
pub struct Work {
    pub text: Vec<u8>,
    pub ops: Vec<Op>,
    pub size: usize,
    ghost fits: { size ≤ 2097152 },
}

/// Why a command did nothing.
#[derive(Debug, Drop)]
pub enum Failure {
    Refused(CommandRefusal),
    NoMemory,
}

impl From<CommandRefusal> for Failure {
    ghost use Rattle.std.specs.Prelude.{◌≡◌};
    ghost use Rattle.machine_core.specs.declared.work.Failure.TheVariants.{Refused};

    ghost from_gives = { λ refusal e. e ≡ Refused refusal };

    fn from(refusal: CommandRefusal) -> Failure {
        Failure::Refused(refusal)
    }
}

impl From<NoMemory> for Failure {
    ghost use Rattle.std.specs.Prelude.{◌≡◌};
    ghost use Rattle.machine_core.specs.declared.work.Failure.TheVariants as failures;

    ghost from_gives = { λ _ e. e ≡ failures.NoMemory };

    fn from(_error: NoMemory) -> Failure {
        Failure::NoMemory
    }
}

impl From<AllocError> for Failure {
    ghost use Rattle.std.specs.Prelude.{◌≡◌};
    ghost use Rattle.machine_core.specs.declared.work.Failure.TheVariants as failures;

    ghost from_gives = { λ _ e. e ≡ failures.NoMemory };

    fn from(_error: AllocError) -> Failure {
        Failure::NoMemory
    }
}

impl<T: Drop> From<AllocFailed<T>> for Failure {
    ghost use Rattle.std.specs.Prelude.{◌≡◌};
    ghost use Rattle.machine_core.specs.declared.work.Failure.TheVariants as failures;

    ghost from_gives = { λ _ e. e ≡ failures.NoMemory };

    fn from(_error: AllocFailed<T>) -> Failure {
        Failure::NoMemory
    }
}

// How many bytes are kept free behind a command.
fn room_by(profile: Profile) -> usize
    ensures { result ≡ room_by profile }
{
    match profile {
        Profile::Named => 0,
        Profile::Wide => LONGEST_KEEP,
    }
}

// The size of a record of this size with these ops, unless it has too many bytes.
fn size_with(size: usize, profile: Profile, ops: &[Op]) -> Option<usize>
    requires { size ≤ max_request_bytes }
    ensures some { IfSome result (λ all. all ≡ size + length (ops_bytes profile ops.now)) }
    ensures within { IfSome result (λ all. all ≤ max_request_bytes) }
    ensures none { result ≡ None → max_request_bytes < size + length (ops_bytes profile ops.now) }
{
    let mut all = size;
    for op in ops {
        let bytes = op.spelled_len(profile);
        if bytes > MAX_REQUEST_BYTES - all {
            return None;
        }
        all += bytes;
    }
    Some(all)
}

/// Cuts an answer that is longer than any that a session takes to the front that is given out of it.
#[tactic(auto, unfolding(crate::specs::Front::front_of))]
pub fn cut_answer(text: &mut Vec<u8>)
    ensures text { text.new.items ≡ front_of text.old.items }
    ensures room { vec_capacity text.new ≡ vec_capacity text.old }
{
    text.truncate(LONGEST_ANSWER + 1);
}

impl Work {
    ghost use Rattle.std.specs.Prelude.{◌≡◌, ◌+◌, ◌-◌, ◌<◌, ◌≤◌, ◌∷◌, ◌++◌, [], length, vec_len, vec_capacity, IfOk, OnOk, OnErr, IfErr};
    ghost use Rattle.std.specs.Prelude.{MatchBool, Ok};
    ghost use Rattle.command_text.specs.Answer.{ack, list_ok, ok};
    ghost use Rattle.command_text.specs.Reading.{name_of_line, want_of_memory};
    ghost use Rattle.state_codec.specs.Sealed.{checksum_len};
    ghost use Rattle.state_codec.specs.Spelling.{ops_bytes};
    ghost use Rattle.state_codec.specs.SpellingOps.{op_bytes};
    ghost use Rattle.machine_core.specs.Front.{longest_answer};
    ghost use Rattle.machine_core.specs.Meaning.{order_ops};
    ghost use Rattle.machine_core.specs.Size.{max_request_bytes, room_by};
    ghost use Rattle.machine_core.specs.Work.{HasRoom, Admits, AddsOps, AddsNothing, AddsText, CanKeep, CanKeepBy, IsCut, IsTooMuch, Keeps};
    ghost use Rattle.machine_core.specs.Work.{LacksText};
    ghost use Rattle.machine_core.specs.Work.{ack_room, command_room, keep_count};

    /// Nothing is made yet. There is room for what ends the first command.
    pub fn new(alloc: Global, profile: Profile) -> Result<Self, AllocError>
        ensures text { IfOk result (λ work. work.text.items ≡ []) }
        ensures ops { IfOk result (λ work. work.ops.items ≡ []) }
        ensures size { IfOk result (λ work. work.size ≡ checksum_len profile) }
        ensures room { IfOk result (HasRoom ack_room) }
    {
        Ok(Work {
            text: Vec::with_capacity(alloc, COMMAND_ROOM)?,
            ops: Vec::new(alloc),
            size: checksum_len(profile),
        })
    }

    /// Takes the room that a command needs from the start, also for what is kept of the player behind it. An answer that is longer than
    /// any that is sent is cut first. Refused where the room isn't there.
    pub fn make_room(&mut self, profile: Profile) -> Result<(), NoMemory>
        ensures ok { OnOk result (HasRoom command_room self.new) }
        ensures keeps { OnOk result (CanKeepBy profile self.new) }
        ensures cut { IsCut self.old self.new }
        ensures full { OnErr result (CanKeepBy profile self.old → LacksText self.old) }
    {
        cut_answer(&mut self.text);
        if let Profile::Wide = profile {
            self.ops.reserve(KEEP_COUNT)?;
        }
        self.text.reserve(COMMAND_ROOM)?;
        Ok(())
    }

    /// Whether the answer is longer than any that is sent: of what is added to it nothing is given out.
    pub fn is_long(&self) -> bool
        ensures { MatchBool result (longest_answer < vec_len self.now.text) (vec_len self.now.text ≤ longest_answer) }
    {
        self.text.len() > LONGEST_ANSWER
    }

    // Takes the bytes for what is kept behind a command, so that the command's own ops leave them free.
    pub(crate) fn set_aside(&mut self, profile: Profile) -> Result<(), Failure>
        ensures ok { OnOk result (self.new.size ≡ self.old.size + room_by profile) }
        ensures err { OnErr result (self.new ≡ self.old) }
        ensures text { self.new.text ≡ self.old.text }
        ensures ops { self.new.ops ≡ self.old.ops }
        ensures refused { IfErr result (λ failure. (failure ≡ Failure.Refused CommandRefusal.RequestTooLarge)
            × (max_request_bytes < self.old.size + room_by profile)) }
    {
        let room = room_by(profile);
        if room > MAX_REQUEST_BYTES - self.size {
            return Err(Failure::Refused(CommandRefusal::RequestTooLarge));
        }
        self.size += room;
        Ok(())
    }

    // Gives them back.
    pub(crate) fn give_back(&mut self, profile: Profile)
        requires { room_by profile ≤ self.old.size }
        ensures size { self.new.size ≡ self.old.size - room_by profile }
        ensures text { self.new.text ≡ self.old.text }
        ensures ops { self.new.ops ≡ self.old.ops }
    {
        self.size -= room_by(profile);
    }

    // Takes the room for so many ops of so many bytes together, where the request may make them, and for what is kept behind them.
    pub(crate) fn admit(&mut self, count: usize, bytes: usize) -> Result<(), Failure>
        requires { count ≤ 4 }
        ensures ok { OnOk result (Admits count bytes self.new) }
        ensures nothing { AddsNothing self.old self.new }
        ensures same { self.new.text ≡ self.old.text }
        ensures refused { IfErr result (IsTooMuch (self.old.size + bytes)) }
    {
        if bytes > MAX_REQUEST_BYTES - self.size {
            return Err(Failure::Refused(CommandRefusal::RequestTooLarge));
        }
        self.ops.reserve(count + KEEP_COUNT)?;
        Ok(())
    }

    // Takes the room for an op, and for the new random order before it, if one begins. It answers how many bytes they take.
    pub(crate) fn admit_edit(
        &mut self,
        profile: Profile,
        order: Option<u64>,
        op: &Op,
    ) -> Result<usize, Failure>
        ensures bytes { IfOk result (λ bytes. bytes ≡ length (ops_bytes profile (order_ops order ++ op.now ∷ []))) }
        ensures ok { OnOk result (let ops = order_ops order ++ op.now ∷ [] in
            Admits (length ops) (length (ops_bytes profile ops)) self.new) }
        ensures nothing { AddsNothing self.old self.new }
        ensures same { self.new.text ≡ self.old.text }
        ensures refused { IfErr result (IsTooMuch (self.old.size + length (ops_bytes profile (order_ops order ++ op.now ∷ [])))) }
    {
        let bytes = op.spelled_len(profile);
        match order {
            Some(order) => {
                let both = bytes.saturating_add(Op::SetOrder(order).spelled_len(profile));
                self.admit(2, both)?;
                Ok(both)
            }
            None => {
                self.admit(1, bytes)?;
                Ok(bytes)
            }
        }
    }

    // Adds an op for which there is room.
    pub(crate) fn push(&mut self, profile: Profile, op: Op)
        requires { Admits 1 (length (op_bytes profile op)) self.old }
        ensures ops { AddsOps (op ∷ []) (length (op_bytes profile op)) self.old self.new }
        ensures text { self.new.text ≡ self.old.text }
        ensures room { vec_capacity self.new.ops ≡ vec_capacity self.old.ops }
    {
        self.size += op.spelled_len(profile);
        self.ops.push_reserved(op);
    }

    // Adds an op for which there is room, behind the new random order that begins before it; they take so many bytes.
    pub(crate) fn push_edit(&mut self, order: Option<u64>, op: Op, bytes: usize)
        requires room { let ops = order_ops order ++ op ∷ [] in Admits (length ops) bytes self.old }
        ensures ops { AddsOps (order_ops order ++ op ∷ []) bytes self.old self.new }
        ensures text { self.new.text ≡ self.old.text }
        ensures keeps { CanKeep self.new }
    {
        self.size += bytes;
        if let Some(order) = order {
            self.ops.push_reserved(Op::SetOrder(order));
        }
        self.ops.push_reserved(op);
    }

    // Takes the room for two ops, one after the other.
    pub(crate) fn admit_both(
        &mut self,
        profile: Profile,
        first: &Op,
        second: &Op,
    ) -> Result<(), Failure>
        ensures ok { OnOk result (let ops = first.now ∷ second.now ∷ [] in
            Admits (length ops) (length (ops_bytes profile ops)) self.new) }
        ensures nothing { AddsNothing self.old self.new }
        ensures same { self.new.text ≡ self.old.text }
        ensures refused { IfErr result (IsTooMuch (self.old.size + length (ops_bytes profile (first.now ∷ second.now ∷ [])))) }
    {
        let bytes = first
            .spelled_len(profile)
            .saturating_add(second.spelled_len(profile));
        self.admit(2, bytes)
    }

    // Adds two ops for which there is room.
    pub(crate) fn push_both(&mut self, profile: Profile, first: Op, second: Op)
        requires { let ops = first ∷ second ∷ [] in Admits (length ops) (length (ops_bytes profile ops)) self.old }
        ensures ops { let ops = first ∷ second ∷ [] in AddsOps ops (length (ops_bytes profile ops)) self.old self.new }
        ensures text { self.new.text ≡ self.old.text }
        ensures keeps { CanKeep self.new }
    {
        self.push(profile, first);
        self.push(profile, second);
    }

    // Takes the room for these ops, where the request may make them all, and for what is kept behind them. It answers the size of a
    // record with them.
    pub(crate) fn admit_all(&mut self, profile: Profile, ops: &[Op]) -> Result<usize, Failure>
        ensures size { IfOk result (λ size. size ≡ self.old.size + length (ops_bytes profile ops.now)) }
        ensures ok { OnOk result (Admits (length ops.now) (length (ops_bytes profile ops.now)) self.new) }
        ensures nothing { AddsNothing self.old self.new }
        ensures same { self.new.text ≡ self.old.text }
        ensures refused { IfErr result (IsTooMuch (self.old.size + length (ops_bytes profile ops.now))) }
    {
        let Some(size) = size_with(self.size, profile, ops) else {
            return Err(Failure::Refused(CommandRefusal::RequestTooLarge));
        };
        self.ops.reserve(ops.len().saturating_add(KEEP_COUNT))?;
        Ok(size)
    }

    // Adds ops for which there is room, and with which a record has this size.
    pub(crate) fn push_all(&mut self, ops: Vec<Op>, size: usize)
        requires room { vec_len self.old.ops + (length ops.items + keep_count) ≤ vec_capacity self.old.ops }
        requires fits { size ≤ max_request_bytes }
        ensures ops { self.new.ops.items ≡ self.old.ops.items ++ ops.items }
        ensures size { self.new.size ≡ size }
        ensures text { self.new.text ≡ self.old.text }
        ensures keeps { CanKeep self.new }
    {
        let mut ops = ops;
        self.size = size;
        match self.ops.append(&mut ops) {
            Ok(()) => {}
            Err(_) => unreachable!(),
        }
    }

    /// Keeps the text that was written from this place on, with room for what ends a command, or cuts it off.
    pub fn keep(&mut self, mark: usize, written: Result<(), NoMemory>) -> Result<(), Failure>
        requires { mark ≤ vec_len self.old.text }
        ensures { Keeps mark written self.old self.new result }
    {
        if written.is_ok() && self.text.reserve(COMMAND_ROOM).is_ok() {
            return Ok(());
        }
        self.text.truncate(mark);
        Err(Failure::NoMemory)
    }

    /// Adds no lines, and takes the room for what ends a command.
    pub fn keep_none(&mut self) -> Result<(), Failure>
        ensures { Keeps (vec_len self.old.text) (Ok tt) self.old self.new result }
    {
        let mark = self.text.len();
        self.keep(mark, Ok(()))
    }

    /// Ends the answer by the `ACK` line of want of memory at this command, for which there is room.
    pub fn want_memory(&mut self, profile: Profile, index: u32, line: &[u8])
        requires { HasRoom ack_room self.old }
        ensures { AddsText (ack index (want_of_memory (name_of_line profile line.now))) self.old self.new }
    {
        let refusal = want_of_memory(profile, line);
        match write_ack(&mut self.text, index, &refusal) {
            Ok(()) => {}
            Err(_) => unreachable!(),
        }
    }

    /// Ends the answer by the `ACK` line of this refusal; `false` where there was no memory for it, and nothing was added.
    pub fn refuse(&mut self, index: u32, refusal: &Refusal) -> bool
        ensures { MatchBool result (AddsText (ack index refusal.now) self.old self.new) (AddsNothing self.old self.new) }
    {
        let mark = self.text.len();
        if write_ack(&mut self.text, index, refusal).is_ok() {
            return true;
        }
        self.text.truncate(mark);
        false
    }

    /// Adds what stands behind each command of a list that asks for it.
    pub fn end_command(&mut self)
        requires { HasRoom command_room self.old }
        ensures text { AddsText list_ok self.old self.new }
        ensures room { HasRoom ack_room self.new }
    {
        if write_list_ok(&mut self.text).is_err() {
            unreachable!();
        }
    }

    /// Ends the answer of a request that went well.
    pub fn end(&mut self)
        requires { HasRoom ack_room self.old }
        ensures { AddsText ok self.old self.new }
    {
        if write_ok(&mut self.text).is_err() {
            unreachable!();
        }
    }
}
