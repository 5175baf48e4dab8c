//! The configuration: a TOML document of texts, two switches, a number and a list of formats.
ghost use Rattle.std.specs.Prelude.{◌≡◌, ◌≤◌, ℕ, None, Some, IfOk, OnErr, IsErrOf, IsTrue, ◌↔◌, true, option_map, string_bytes};
ghost use Rattle.std.specs.Prelude.{count_by, is_none, length};
ghost use Rattle.std.specs.Option.{option_and_then};
ghost use Rattle.toml.specs.Data.{Members, get_member};
ghost use Rattle.toml.specs.View.{items_view, table_view, view};
ghost use Rattle.mpd_program.specs.Configuration.{is_known, is_wrong, names_one_file, all_known, settings_of, text_at, optional_text_at};
ghost use Rattle.mpd_program.specs.Configuration.{optional_path_at, key_at};
ghost use Rattle.mpd_program.specs.Configuration.{configuration, profile_by, IsTold};
ghost use Rattle.mpd_program.specs.Configuration.{form_at, form_of, formats_at, formats_in, is_text, resume_at, resume_of, seconds_at};
ghost use Rattle.mpd_program.specs.Configuration.{seconds_of, switch_at};
ghost use Rattle.mpd_program.specs.declared.config.ConfigError.TheVariants as errors;

use crate::config_key::ConfigKey;
use as_wave::Forms;
use hex::FromHex;
use profile::Profile;
use song_output::Form;
use std::alloc::{AllocError, Global};
use std::marker::Model;
use toml::{Table, Value};

/// Why there is no configuration.
#[derive(Clone, Copy, Debug, PartialEq, Eq)]
pub enum ConfigError {
    /// There was no memory.
    NoMemory,
    /// The text is no configuration: no TOML, a key that isn't known or is missing, or a value of another form.
    Bad,
}

impl From<AllocError> for ConfigError {
    ghost use Rattle.std.specs.Prelude.{◌≡◌};
    ghost use Rattle.mpd_program.specs.declared.config.ConfigError.TheVariants.{NoMemory};

    ghost from_gives = { λ _ e. e ≡ NoMemory };

    fn from(_error: AllocError) -> Self {
        ConfigError::NoMemory
    }
}

/// Where the daemon keeps its journal, and what it listens on and plays.
#[derive(Debug, Drop)]
pub struct Config {
    /// The folder of the songs.
    pub music: String,
    /// The journal's first file.
    pub journal_a: String,
    /// The journal's second file, which is not the first.
    pub journal_b: String,
    /// The key of the random order, 64 hexadecimal digits in the text.
    pub key: [u8; 32],
    /// An address and port to listen on.
    pub tcp: Option<String>,
    /// The path of a socket to listen on.
    pub unix: Option<String>,
    /// Where the sound goes: a path, or `-` for standard output.
    pub output: Option<String>,
    /// In which form: bare where the text says none.
    pub form: Form,
    /// Which files are songs beside WAVE files of 16-bit PCM: none where the text doesn't say.
    pub formats: Forms,
    /// The socket of what reads songs of other forms: none where the text doesn't say.
    pub decoder: Option<String>,
    /// Whether the daemon knows more of MPD than the named subset: what stock clients ask for: not where the text doesn't say.
    pub stock_clients: bool,
    /// How the player goes on at the beginning of a life: not at all where the text doesn't say, else a song that played plays on or is
    /// paused.
    pub resume: Option<bool>,
    /// Every how many seconds of play its place is kept: 30 where the text doesn't say, never where it is 0.
    pub place_every: u32,
    /// Whether the log has a line for each file that a job left out: not where the text doesn't say.
    pub debug: bool,
}

impl Model for Config {
    ghost use Rattle.std.specs.Prelude.{option_map, string_bytes};
    ghost use Rattle.mpd_program.specs.Configuration.{Settings};

    ghost Value = { Settings };

    ghost view = { λ c. record {
      music = string_bytes c.music;
      journal_a = string_bytes c.journal_a;
      journal_b = string_bytes c.journal_b;
      key = c.key;
      tcp = option_map string_bytes c.tcp;
      unix = option_map string_bytes c.unix;
      output = option_map string_bytes c.output;
      form = c.form;
      formats = c.formats;
      decoder = option_map string_bytes c.decoder;
      stock_clients = c.stock_clients;
      resume = c.resume;
      place_every = c.place_every;
      debug = c.debug;
    } };
}

impl Config {
    ghost use Rattle.mpd_program.specs.Configuration.{profile_by};

    /// What the daemon knows of MPD: all of it where stock clients are served.
    pub fn profile(&self) -> Profile
        ensures { result ≡ profile_by self.now.stock_clients }
    {
        profile_by(self.stock_clients)
    }

    /// Reads a configuration. The key stands in it for 32 bytes, in hexadecimal digits of either case.
    pub fn read(alloc: Global, text: &str) -> Result<Config, ConfigError>
        ensures ok { IfOk result (λ c. configuration text.now ≡ Some c) }
        ensures bad { IsErrOf result ConfigError.Bad → configuration text.now ≡ None }
    {
        let table = match toml::table_from_str(alloc, text) {
            Ok(table) => table,
            Err(error) if error.is_memory() => return Err(ConfigError::NoMemory),
            Err(_) => return Err(ConfigError::Bad),
        };
        Config::of_table(alloc, &table)
    }

    fn of_table(alloc: Global, table: &Table) -> Result<Config, ConfigError>
        ensures ok { IfOk result (λ c. settings_of (table_view table.now) ≡ Some c) }
        ensures bad { IsErrOf result ConfigError.Bad → settings_of (table_view table.now) ≡ None }
    {
        if !has_known_keys(table) {
            return Err(ConfigError::Bad);
        }
        let music = text(alloc, table, "music")?;
        let journal_a = text(alloc, table, "journal_a")?;
        let journal_b = text(alloc, table, "journal_b")?;
        let key = key(table, "key")?;
        let tcp = optional_text(alloc, table, "tcp")?;
        let unix = optional_path(alloc, table, "unix")?;
        let output = optional_text(alloc, table, "output")?;
        let form = form(table, "form")?;
        let formats = formats(table, "formats")?;
        let decoder = optional_path(alloc, table, "decoder")?;
        let stock_clients = switch(table, "stock_clients")?;
        let resume = resume(table, "resume")?;
        let place_every = seconds(table, "place_every")?;
        let debug = switch(table, "debug")?;
        if journal_a.as_str() == journal_b.as_str() {
            return Err(ConfigError::Bad);
        }
        Ok(Config {
            music,
            journal_a,
            journal_b,
            key,
            tcp,
            unix,
            output,
            form,
            formats,
            decoder,
            stock_clients,
            resume,
            place_every,
            debug,
        })
    }
}

// What the daemon knows of MPD, by the switch for stock clients.
pub(crate) fn profile_by(stock_clients: bool) -> Profile
    ensures { result ≡ profile_by stock_clients }
{
    if stock_clients {
        Profile::Wide
    } else {
        Profile::Named
    }
}

/// Whether a configuration may have this key.
pub(crate) fn is_known_key(key: &str) -> bool
    ensures { result ≡ is_known key.now }
{
    key == "music"
        || key == "journal_a"
        || key == "journal_b"
        || key == "key"
        || key == "tcp"
        || key == "unix"
        || key == "output"
        || key == "form"
        || key == "formats"
        || key == "decoder"
        || key == "stock_clients"
        || key == "resume"
        || key == "place_every"
        || key == "debug"
}

/// Whether what stands at a key, or that nothing does, isn't what is wanted there.
pub(crate) fn is_wrong(table: &Table, at: ConfigKey) -> bool
    ensures { result ≡ is_wrong at (table_view table.now) }
{
    match at {
        ConfigKey::Music => str_at(table, "music").is_none(),
        ConfigKey::JournalA => str_at(table, "journal_a").is_none(),
        ConfigKey::JournalB => str_at(table, "journal_b").is_none(),
        ConfigKey::Key => key(table, "key").is_err(),
        ConfigKey::Tcp => is_no_text(table, "tcp"),
        ConfigKey::Unix => is_no_path(table, "unix"),
        ConfigKey::Output => is_no_text(table, "output"),
        ConfigKey::Form => form(table, "form").is_err(),
        ConfigKey::Formats => formats(table, "formats").is_err(),
        ConfigKey::Decoder => is_no_path(table, "decoder"),
        ConfigKey::StockClients => switch(table, "stock_clients").is_err(),
        ConfigKey::Resume => resume(table, "resume").is_err(),
        ConfigKey::PlaceEvery => seconds(table, "place_every").is_err(),
        ConfigKey::Debug => switch(table, "debug").is_err(),
    }
}

/// Law: of each table that is no configuration something is told: a key that none may have, one at which something is wrong, or that both
/// files of the journal have one name.
pub fn wrong_lines_are_told()
    ensures { (members : Members) → settings_of members ≡ None → IsTold members }
{}

/// Whether both files of the journal have one name.
pub(crate) fn names_one_file(table: &Table) -> bool
    ensures { result ≡ names_one_file (table_view table.now) }
{
    match (str_at(table, "journal_a"), str_at(table, "journal_b")) {
        (Some(a), Some(b)) => a == b,
        _ => false,
    }
}

// Whether something stands at a key that may be missing, and it is no text.
fn is_no_text(table: &Table, key: &str) -> bool
    ensures { result ≡ is_none (optional_text_at key.now (table_view table.now)) }
{
    match table.get(key) {
        Some(value) => value.as_str().is_none(),
        None => false,
    }
}

// Whether something stands at a key that may be missing, and it is no path, which isn't empty.
fn is_no_path(table: &Table, key: &str) -> bool
    ensures { result ≡ is_none (optional_path_at key.now (table_view table.now)) }
{
    match str_at(table, key) {
        Some(path) => path.is_empty(),
        None => is_no_text(table, key),
    }
}

// Whether a configuration may have each key of the table.
#[tactic(auto, using(crate::proofs::ConfigurationLaws::known_by_keys))]
fn has_known_keys(table: &Table) -> bool
    ensures { result ≡ all_known (table_view table.now) }
{
    for name in table.keys() {
        if !is_known_key(name.as_str()) {
            return false;
        }
    }
    true
}

// The value at a key, if it is a text.
fn str_at<'a>(table: &'a Table, key: &str) -> Option<&'a str>
    ensures { option_map (λ s. s.now) result ≡ text_at key.now (table_view table.now) }
{
    match table.get(key) {
        Some(value) => value.as_str(),
        None => None,
    }
}

fn text(alloc: Global, table: &Table, key: &str) -> Result<String, ConfigError>
    ensures ok { IfOk result (λ s. text_at key.now (table_view table.now) ≡ Some (string_bytes s)) }
    ensures bad { IsErrOf result ConfigError.Bad → text_at key.now (table_view table.now) ≡ None }
{
    match str_at(table, key) {
        Some(text) => Ok(String::from_str(alloc, text)?),
        None => Err(ConfigError::Bad),
    }
}

fn optional_text(alloc: Global, table: &Table, key: &str) -> Result<Option<String>, ConfigError>
    ensures ok { IfOk result (λ s. optional_text_at key.now (table_view table.now) ≡ Some (option_map string_bytes s)) }
    ensures bad { IsErrOf result ConfigError.Bad → optional_text_at key.now (table_view table.now) ≡ None }
{
    let value = match table.get(key) {
        Some(value) => value,
        None => return Ok(None),
    };
    match value.as_str() {
        Some(text) => Ok(Some(String::from_str(alloc, text)?)),
        None => Err(ConfigError::Bad),
    }
}

// The path at a key that may be missing. None is empty.
fn optional_path(alloc: Global, table: &Table, key: &str) -> Result<Option<String>, ConfigError>
    ensures ok { IfOk result (λ s. optional_path_at key.now (table_view table.now) ≡ Some (option_map string_bytes s)) }
    ensures bad { IsErrOf result ConfigError.Bad → optional_path_at key.now (table_view table.now) ≡ None }
{
    match optional_text(alloc, table, key)? {
        Some(path) if path.is_empty() => Err(ConfigError::Bad),
        path => Ok(path),
    }
}

// The form that this text names.
fn form_named(text: &str) -> Option<Form>
    ensures { result ≡ form_of text.now }
{
    if text == "bare" {
        return Some(Form::Bare);
    }
    if text == "wave" {
        return Some(Form::Wave);
    }
    None
}

// The form at a key that may be missing.
fn form(table: &Table, key: &str) -> Result<Form, ConfigError>
    ensures ok { IfOk result (λ form. form_at key.now (table_view table.now) ≡ Some form) }
    ensures bad { OnErr result (form_at key.now (table_view table.now) ≡ None) }
{
    let value = match table.get(key) {
        Some(value) => value,
        None => return Ok(Form::Bare),
    };
    let text = match value.as_str() {
        Some(text) => text,
        None => return Err(ConfigError::Bad),
    };
    match form_named(text) {
        Some(form) => Ok(form),
        None => Err(ConfigError::Bad),
    }
}

// How many of these values are this text.
fn count_of(values: &[Value], name: &str) -> usize
    ensures count { result ≡ count_by (λ value. is_text name.now (view value)) values.now }
    ensures within { result ≤ length values.now }
{
    let mut count = 0;
    for value in values {
        if value.as_str() == Some(name) {
            count += 1;
        }
    }
    count
}

// The forms of files that these values name, of which WAVE files of 16-bit PCM are one.
#[tactic(auto, using(crate::proofs::FormatLaws::count_of_items, crate::proofs::FormatLaws::count_of_values))]
fn formats_in(values: &[Value]) -> Option<Forms>
    ensures { result ≡ formats_in (items_view values.now) }
{
    let wave = count_of(values, "wave");
    let wave_pcm = count_of(values, "wave-pcm");
    let flac = count_of(values, "flac");
    if wave == 1 && wave_pcm <= 1 && flac <= 1 && values.len() == 1 + wave_pcm + flac {
        return Some(Forms {
            wave_pcm: wave_pcm == 1,
            flac: flac == 1,
        });
    }
    None
}

// The formats at a key that may be missing.
fn formats(table: &Table, key: &str) -> Result<Forms, ConfigError>
    ensures ok { IfOk result (λ formats. formats_at key.now (table_view table.now) ≡ Some formats) }
    ensures bad { OnErr result (formats_at key.now (table_view table.now) ≡ None) }
{
    let value = match table.get(key) {
        Some(value) => value,
        None => {
            return Ok(Forms {
                wave_pcm: false,
                flac: false,
            });
        }
    };
    let values = match value.as_array() {
        Some(values) => values,
        None => return Err(ConfigError::Bad),
    };
    match formats_in(values) {
        Some(formats) => Ok(formats),
        None => Err(ConfigError::Bad),
    }
}

// The switch at a key that may be missing.
fn switch(table: &Table, key: &str) -> Result<bool, ConfigError>
    ensures ok { IfOk result (λ on. switch_at key.now (table_view table.now) ≡ Some on) }
    ensures bad { OnErr result (switch_at key.now (table_view table.now) ≡ None) }
{
    let value = match table.get(key) {
        Some(value) => value,
        None => return Ok(false),
    };
    match value.as_bool() {
        Some(on) => Ok(on),
        None => Err(ConfigError::Bad),
    }
}

// Whether a song that played plays on, by this text.
fn resume_named(text: &str) -> Option<bool>
    ensures { result ≡ resume_of text.now }
{
    if text == "paused" {
        return Some(false);
    }
    if text == "playing" {
        return Some(true);
    }
    None
}

// How the player goes on, at a key that may be missing.
fn resume(table: &Table, key: &str) -> Result<Option<bool>, ConfigError>
    ensures ok { IfOk result (λ resume. resume_at key.now (table_view table.now) ≡ Some resume) }
    ensures bad { OnErr result (resume_at key.now (table_view table.now) ≡ None) }
{
    let value = match table.get(key) {
        Some(value) => value,
        None => {
            return Ok(None);
        }
    };
    let text = match value.as_str() {
        Some(text) => text,
        None => return Err(ConfigError::Bad),
    };
    match resume_named(text) {
        Some(plays) => Ok(Some(plays)),
        None => Err(ConfigError::Bad),
    }
}

// So many seconds, up to an hour.
fn seconds_within(number: i64) -> Option<u32>
    ensures { result ≡ seconds_of number }
{
    if 0 <= number && number <= 3600 {
        Some(number as u32)
    } else {
        None
    }
}

// The seconds at a key that may be missing.
fn seconds(table: &Table, key: &str) -> Result<u32, ConfigError>
    ensures ok { IfOk result (λ seconds. seconds_at key.now (table_view table.now) ≡ Some seconds) }
    ensures bad { OnErr result (seconds_at key.now (table_view table.now) ≡ None) }
{
    let value = match table.get(key) {
        Some(value) => value,
        None => return Ok(30),
    };
    let number = match value.as_integer() {
        Some(number) => number,
        None => return Err(ConfigError::Bad),
    };
    match seconds_within(number) {
        Some(seconds) => Ok(seconds),
        None => Err(ConfigError::Bad),
    }
}

fn key(table: &Table, key: &str) -> Result<[u8; 32], ConfigError>
    ensures ok { IfOk result (λ k. key_at key.now (table_view table.now) ≡ Some k) }
    ensures bad { OnErr result (key_at key.now (table_view table.now) ≡ None) }
{
    match str_at(table, key) {
        Some(digits) => match <[u8; 32] as FromHex>::from_hex(digits) {
            Ok(bytes) => Ok(bytes),
            Err(_) => Err(ConfigError::Bad),
        },
        None => Err(ConfigError::Bad),
    }
}
