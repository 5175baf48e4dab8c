//! What the words of the command line ask for.
ghost use Rattle.std.specs.Prelude.{◌≡◌, option_map, string_bytes};
ghost use Rattle.mpd_program.specs.Arguments.{task_of, task_of_four, task_seen};

use std::env::{self, Env};
use std::io;

/// What the program is asked to do. A path leads to a configuration.
#[derive(Debug, Drop)]
pub enum Task {
    /// `--help` or `-h`: say which tasks there are.
    Help,
    /// `--version`: say which program this is.
    Version,
    /// `console`: over two files in memory that nothing keeps.
    ConsoleInMemory,
    /// `console CONFIG`: over the journal of the configuration.
    Console(String),
    /// `create CONFIG`: make the journal of the configuration.
    Create(String),
    /// `serve CONFIG`: be the daemon of the configuration.
    Serve(String),
    /// `look CONFIG`: say what stands in the journal of the configuration.
    Look(String),
    /// `look --salvage TO CONFIG`: write at the path TO what stands in the journal of the configuration.
    Salvage(String, String),
}

impl Task {
    /// The task of the program's words behind its name: a first one, and at most one more.
    fn from_words(first: &str, path: Option<String>) -> Option<Task>
        ensures { option_map task_seen result ≡ task_of first.now (option_map string_bytes path) }
    {
        match path {
            None if first == "--help" || first == "-h" => Some(Task::Help),
            None if first == "--version" => Some(Task::Version),
            None if first == "console" => Some(Task::ConsoleInMemory),
            Some(path) if first == "console" => Some(Task::Console(path)),
            Some(path) if first == "create" => Some(Task::Create(path)),
            Some(path) if first == "serve" => Some(Task::Serve(path)),
            Some(path) if first == "look" => Some(Task::Look(path)),
            _ => None,
        }
    }

    /// The task of four words behind the program's name.
    fn from_four(first: &str, option: &str, to: String, path: String) -> Option<Task>
        ensures { option_map task_seen result ≡ task_of_four first.now option.now (string_bytes to) (string_bytes path) }
    {
        if first == "look" && option == "--salvage" {
            Some(Task::Salvage(to, path))
        } else {
            None
        }
    }

    /// The task of the command line; none where its words are not those of a task.
    pub fn from_args<R: Env + AllocGlobal>(rt: &R) -> io::Result<Option<Task>> {
        let mut args = env::args(rt)?;
        let _program = args.next();
        let Some(first) = args.next() else {
            return Ok(None);
        };
        let Some(second) = args.next() else {
            return Ok(Task::from_words(first.as_str(), None));
        };
        let Some(third) = args.next() else {
            return Ok(Task::from_words(first.as_str(), Some(second)));
        };
        let Some(fourth) = args.next() else {
            return Ok(None);
        };
        if args.next().is_some() {
            return Ok(None);
        }
        Ok(Task::from_four(first.as_str(), second.as_str(), third, fourth))
    }
}
