// What the program says of itself on standard output.
use std::env;
use std::fs::File;
use std::io::{self, Read};

/// The version of the program, and that of the protocol.
const VERSION: &str = "0.1";

const PROTOCOL: &str = "0.23";

/// How many bytes of a build's note are told.
const NOTE_LIMIT: u64 = 1_024;

/// The tasks, as words of the command line.
pub(crate) const TASKS: &str =
    "mpd_daemon create CONFIG | console [CONFIG] | serve CONFIG | look [--salvage TO] CONFIG";

/// Says which tasks there are.
pub(crate) fn tell_help(rt: &HostRuntime) {
    let _printed = println!(rt; "usage: {TASKS}");
    let _printed = println!(rt; "  create CONFIG                   makes the journal");
    let _printed = println!(rt; "  serve CONFIG                    is the daemon");
    let _printed = println!(rt;
        "  console CONFIG                  serves one client on standard input and output"
    );
    let _printed = println!(rt;
        "  console                         one client over an empty journal in memory"
    );
    let _printed = println!(rt;
        "  look CONFIG                     says what stands in the journal"
    );
    let _printed = println!(rt;
        "  look --salvage TO CONFIG        writes what stands before its damage as a file TO"
    );
    let _printed = println!(rt; "  --version                       says which program this is");
    let _printed = println!(rt; "CONFIG is a TOML file: mpd_daemon(1) has its keys.");
}

// What the one who built the program left beside it, and where. The program itself can't know how it was built.
fn build_note(rt: &HostRuntime) -> io::Result<(String, String)> {
    let program = env::current_exe(rt)?;
    let path = format!(in rt.alloc(); "{}.build", program.as_str())?;
    let file = File::open(rt, path.as_str())?;
    let note = io::read_to_string(rt.alloc(), file.take(NOTE_LIMIT))?;
    Ok((path, note))
}

/// Says which program this is, and what is said of it beside it.
pub(crate) fn tell_version(rt: &HostRuntime) {
    let _printed = println!(rt; "mpd_daemon {VERSION}, protocol {PROTOCOL}");
    if let Ok((path, note)) = build_note(rt) {
        for line in note.as_str().lines() {
            let _printed = println!(rt; "{path}: {line}");
        }
    }
}
