//! What the daemon takes of its configuration.
ghost use Rattle.std.specs.Prelude.{◌≡◌};
ghost use Rattle.mpd_program.specs.Configuration.{serve_settings};

use crate::config::{Config, profile_by};
use as_wave::Forms;
use profile::Profile;
use song_output::Form;
use std::marker::Model;

/// What `serve` takes of a configuration: where it listens, on an address or a socket's path or both, and where and in which form the
/// sound goes.
#[derive(Debug, Drop)]
pub struct ServeConfig {
    /// The folder of the songs.
    pub music: String,
    /// The journal's first file.
    pub journal_a: String,
    /// The journal's second file.
    pub journal_b: String,
    /// An address and port to listen on.
    pub tcp: Option<String>,
    /// The path of a socket to listen on.
    pub unix: Option<String>,
    /// Where the sound goes: a path that is no file of the journal, or `-` for standard output.
    pub output: String,
    /// In which form.
    pub form: Form,
    /// Which files are songs beside WAVE files of 16-bit PCM.
    pub formats: Forms,
    /// The socket of what reads songs of other forms.
    pub decoder: Option<String>,
    /// Whether the daemon knows more of MPD than the named subset: what stock clients ask for.
    pub stock_clients: bool,
    /// Whether the player goes on at the beginning of a life, and whether a song that played then plays on.
    pub resume: Option<bool>,
    /// Every how many seconds of play its place is kept.
    pub place_every: u32,
    /// Whether the log has a line for each file that a job left out.
    pub debug: bool,
}

impl Model for ServeConfig {
    ghost use Rattle.std.specs.Prelude.{option_map, string_bytes};
    ghost use Rattle.mpd_program.specs.Configuration.{ServeSettings};

    ghost Value = { ServeSettings };

    ghost view = { λ c. record {
      music = string_bytes c.music;
      journal_a = string_bytes c.journal_a;
      journal_b = string_bytes c.journal_b;
      tcp = option_map string_bytes c.tcp;
      unix = option_map string_bytes c.unix;
      output = string_bytes c.output;
      form = c.form;
      formats = c.formats;
      decoder = option_map string_bytes c.decoder;
      stock_clients = c.stock_clients;
      resume = c.resume;
      place_every = c.place_every;
      debug = c.debug;
    } };
}

impl ServeConfig {
    ghost use Rattle.mpd_program.specs.Configuration.{profile_by};

    /// What the daemon knows of MPD: all of it where stock clients are served.
    pub fn profile(&self) -> Profile
        ensures { result ≡ profile_by self.now.stock_clients }
    {
        profile_by(self.stock_clients)
    }

    /// What `serve` takes of this configuration; none where it has no `output`, or neither `tcp` nor `unix`, or where the output is a
    /// file of the journal by its text.
    pub fn of(config: Config) -> Option<ServeConfig>
        ensures { result ≡ serve_settings config }
    {
        let Config {
            music,
            journal_a,
            journal_b,
            key: _,
            tcp,
            unix,
            output,
            form,
            formats,
            decoder,
            stock_clients,
            resume,
            place_every,
            debug,
        } = config;
        let Some(output) = output else {
            return None;
        };
        if tcp.is_none() && unix.is_none() {
            return None;
        }
        if output.as_str() == journal_a.as_str() || output.as_str() == journal_b.as_str() {
            return None;
        }
        Some(ServeConfig {
            music,
            journal_a,
            journal_b,
            tcp,
            unix,
            output,
            form,
            formats,
            decoder,
            stock_clients,
            resume,
            place_every,
            debug,
        })
    }
}
