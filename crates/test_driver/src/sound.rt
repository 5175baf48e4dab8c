//! What the workers of a loop have beside the stage.
use driver_base::Printer;
use song_files::FileSource;
use song_output::{Form, OpenSong, SoundOutput};
use stage_workers::Wake;
use std::alloc::Global;
use std::cell::RefCell;

/// How often the loop was woken.
#[derive(Drop)]
pub struct Woken {
    count: RefCell<u64>,
}

impl Wake for Woken {
    fn wake(&self) {
        if let Ok(mut count) = self.count.try_borrow_mut() {
            *count = count.saturating_add(1);
        }
    }
}

#[derive(Drop)]
pub struct Sound {
    /// The song that stays open between two orders.
    pub song: Option<OpenSong<FileSource>>,
    pub output: SoundOutput<Vec<u8>>,
    pub woken: Woken,
}

impl Sound {
    pub fn new(alloc: Global) -> Self {
        Sound {
            song: None,
            output: SoundOutput {
                writer: Vec::new(alloc),
                form: Form::Bare,
            },
            woken: Woken {
                count: RefCell::new(0),
            },
        }
    }

    /// Prints what the output took since, and how often the loop was woken.
    pub fn tell(&mut self, printer: &mut Printer) {
        if !self.output.writer.is_empty() {
            printer.hex("sound", self.output.writer.as_slice());
            self.output.writer.clear();
        }
        if let Ok(mut count) = self.woken.count.try_borrow_mut() {
            printer.count("woken", *count);
            *count = 0;
        }
    }
}
