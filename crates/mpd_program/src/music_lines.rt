// Lines on standard error about files of the music.
use crate::error_lines::{ErrorLines, put_line};
use mpd_server::TimedLimit;

/// How many lines there are at most within a minute.
const MOST_LINES: u32 = 100;

const MINUTE: u64 = 60_000;

/// Lines of one reader of the music, of which within a minute no more than so many are written.
#[derive(Drop)]
pub(crate) struct MusicLines<'a> {
    rt: &'a HostRuntime,
    // None where a line may wait for its reader for ever.
    lines: Option<ErrorLines>,
    limit: TimedLimit,
}

impl<'a> MusicLines<'a> {
    /// Without `lines` a line waits until it is taken.
    pub(crate) fn new(rt: &'a HostRuntime, lines: Option<ErrorLines>) -> Self {
        MusicLines {
            rt,
            lines,
            limit: TimedLimit::new(rt, MOST_LINES, MINUTE),
        }
    }

    // Waits until a line is taken; `false` where none is any more.
    fn is_ready(&mut self) -> bool {
        match &mut self.lines {
            Some(lines) => lines.is_ready(),
            None => true,
        }
    }

    /// Whether what can't be read has a line. Where it is one more than a minute may have, one line says that others are left out.
    pub(crate) fn takes_line(&mut self) -> bool {
        if self.limit.take(self.rt).is_some() {
            return self.is_ready();
        }
        if self.limit.left_out() == 1 && self.is_ready() {
            put_line(
                self.rt,
                "music: what else can't be read within this minute is not told; an update counts it",
            );
        }
        false
    }
}
