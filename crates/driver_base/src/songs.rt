//! Files of the present folder, which has the songs.
use crate::fault::Fault;
use crate::given::read_bytes;
use crate::words::{first_word, number};
use std::fs::{self, OpenOptions};

fn shorten(host: &HostRuntime, name: &str, len: u64) -> Result<(), Fault> {
    let file = OpenOptions::new().write(true).open(host, name)?;
    Ok(file.set_len(len)?)
}

/// Does what a line asks for of a file.
pub fn take_song_line(host: &HostRuntime, word: &str, rest: &str) -> Result<(), Fault> {
    let (name, rest) = first_word(rest);
    match word {
        "folder" => Ok(fs::create_dir_all(host, name)?),
        "file" => Ok(fs::write(host, name, read_bytes(host.alloc(), rest)?)?),
        "remove" => Ok(fs::remove_file(host, name)?),
        "shorten" => shorten(host, name, number(rest)?),
        _ => Err(Fault::NoDirective),
    }
}
