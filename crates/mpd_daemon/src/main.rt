//! A music player daemon that speaks the MPD protocol, version 0.23: its program.
#![tactic(auto)]

mod standard_streams;

use mpd_program::{put_line, run_command_line, takes_line};
use standard_streams::take_standard_streams;
use std::process::ExitCode;

/// The status where `/dev/null` can't be opened: it was started wrongly.
const NO_STREAMS: u8 = 1;

fn main(rt: HostRuntime) -> ExitCode {
    let _streams = match take_standard_streams(&rt) {
        Ok(streams) => streams,
        Err(error) => {
            // Nothing is open yet but what it was started with, so that this goes to standard error or nowhere.
            let _printed = eprintln!(rt; "/dev/null: {error}");
            return ExitCode::from(NO_STREAMS);
        }
    };
    let exit = run_command_line(&rt, &rt);
    if !exit.is_silent() && takes_line(&rt) {
        put_line(&rt, &exit);
    }
    ExitCode::from(exit.code())
}
