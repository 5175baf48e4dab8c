// The head of a journal file, as it is looked at beside the journal.

/// How many bytes it has.
pub(crate) const HEAD: usize = 32;

/// The offset of the layout in a file.
pub(crate) const LAYOUT_AT: u64 = 8;

/// The gate of a file that counts, and of a record.
pub(crate) const OPEN: u8 = 0xA5;

/// Any other gate.
pub(crate) const CLOSED: u8 = 0;

/// The offset of the generation.
pub(crate) const GENERATION_AT: usize = 12;

/// The number of four bytes at an offset; none past the end.
pub(crate) fn number_at(bytes: &[u8], at: usize) -> Option<u32> {
    if at > bytes.len() || bytes.len() - at < 4 {
        return None;
    }
    let mut number = [0; 4];
    number.copy_from_slice(&bytes[at..at + 4]);
    Some(u32::from_le_bytes(number))
}

/// The name in a head.
const NAME: [u8; 7] = *b"MPDJRNL";

/// The generation of a file with a head, whether or not it counts.
pub(crate) fn generation_of(file: &[u8]) -> Option<u64> {
    if file.len() < HEAD || file[1..8] != NAME[..] {
        return None;
    }
    let mut generation = [0; 8];
    generation.copy_from_slice(&file[GENERATION_AT..GENERATION_AT + 8]);
    Some(u64::from_le_bytes(generation))
}

/// What stands in the head of a file that counts.
#[derive(Clone, Copy)]
pub(crate) struct JournalHead {
    pub(crate) layout: u32,
    pub(crate) generation: u64,
}

impl JournalHead {
    /// Of the file that begins so; none where it doesn't count.
    pub(crate) fn of(file: &[u8]) -> Option<JournalHead> {
        if file.len() < HEAD || file[0] != OPEN {
            return None;
        }
        let (mut layout, mut generation) = ([0; 4], [0; 8]);
        layout.copy_from_slice(&file[8..12]);
        generation.copy_from_slice(&file[12..20]);
        Some(JournalHead {
            layout: u32::from_le_bytes(layout),
            generation: u64::from_le_bytes(generation),
        })
    }
}
