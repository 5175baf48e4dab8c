// What is said on standard error of a configuration that is none: a line for each fault, with the line of the text, the key and the value.
use crate::config::{is_known_key, is_wrong, names_one_file};
use crate::config_key::ConfigKey;
use crate::error_lines::{LoopLog, say};
use log::{Log, warn};
use profile::Profile;
use std::alloc::Global;
use std::fmt;
use toml::de::Error;
use toml::{Table, Value};

/// How many bytes of a value are told.
const MOST_TOLD: usize = 60;

/// How many lines that begin with a key are looked at.
const MOST_LOOKED_AT: u32 = 100;

/// How many keys that are none are told.
const MOST_UNKNOWN: u32 = 20;

/// The text of a configuration, and the path of its file.
#[derive(Drop)]
pub(crate) struct ConfigText {
    pub(crate) path: String,
    pub(crate) text: String,
}

// A line of the text, counted from 1; none where it isn't known.
#[derive(Clone, Copy)]
struct Place {
    line: Option<usize>,
}

impl fmt::Display for Place {
    fn fmt<W: fmt::Write>(&self, f: &mut fmt::Formatter<W>) -> fmt::Result {
        match self.line {
            Some(line) => write!(f, "line {line}: "),
            None => Ok(()),
        }
    }
}

impl ConfigText {
    /// Says on standard error what is wrong with a text that is no configuration.
    pub(crate) fn tell_wrong(&self, rt: &HostRuntime) {
        let table = match toml::table_from_str(rt.alloc(), self.text.as_str()) {
            Ok(table) => table,
            Err(error) => {
                self.tell_no_toml(rt, &error);
                return;
            }
        };
        self.tell_all_unknown(rt, &table);
        for key in &ConfigKey::ALL {
            if is_wrong(&table, *key) {
                self.tell_wanted(rt, &table, *key);
            }
        }
        if names_one_file(&table) {
            self.tell_value(
                rt,
                &table,
                ConfigKey::JournalB,
                "another file than journal_a",
            );
        }
    }

    /// Says on standard error what `serve` doesn't find in a configuration by which nothing can be served.
    pub(crate) fn tell_unserved(&self, rt: &HostRuntime) {
        let Ok(table) = toml::table_from_str(rt.alloc(), self.text.as_str()) else {
            return;
        };
        let path = self.path.as_str();
        let Some(output) = table.get("output") else {
            self.tell_wanted(rt, &table, ConfigKey::Output);
            return;
        };
        if table.get("tcp").is_none() && table.get("unix").is_none() {
            say(
                rt,
                format_args!(
                    "{path}: tcp and unix are missing: wanted is one of them, to listen on"
                ),
            );
        }
        if is_same(output, table.get("journal_a")) || is_same(output, table.get("journal_b")) {
            let wanted = "another file than those of the journal";
            self.tell_value(rt, &table, ConfigKey::Output, wanted);
        }
    }

    /// Says in the log which keys of a configuration do nothing under a profile.
    pub(crate) fn tell_unused(&self, rt: &HostRuntime, profile: Profile) {
        if profile == Profile::Wide {
            return;
        }
        let Ok(table) = toml::table_from_str(rt.alloc(), self.text.as_str()) else {
            return;
        };
        let path = self.path.as_str();
        for key in [ConfigKey::Resume, ConfigKey::PlaceEvery] {
            let name = key.name();
            if table.get(name).is_some() {
                let place = self.place_of(rt.alloc(), name);
                warn!(LoopLog::new(rt); "{path}: {place}{name} does nothing without stock_clients = true");
            }
        }
    }

    /// Says on standard error that what stands at a key, or that nothing does, isn't what is wanted there.
    pub(crate) fn tell_key(&self, rt: &HostRuntime, key: ConfigKey) {
        if let Ok(table) = toml::table_from_str(rt.alloc(), self.text.as_str()) {
            self.tell_wanted(rt, &table, key);
        }
    }

    // Where the text is no TOML: the parser's place and words, and the key of that line.
    fn tell_no_toml(&self, rt: &HostRuntime, error: &Error) {
        let (path, text, message) = (self.path.as_str(), self.text.as_str(), error.message());
        let start = match error.span() {
            Some(span) => span.start,
            None => 0,
        };
        let before = text.get(..start).unwrap_or("");
        let line = line_behind(before);
        let column = match before.rsplit_once('\n') {
            Some((_, last)) => last.chars().count().saturating_add(1),
            None => before.chars().count().saturating_add(1),
        };
        match text
            .split('\n')
            .nth(line.saturating_sub(1))
            .and_then(name_in)
        {
            Some(name) => say(
                rt,
                format_args!("{path}: line {line}, column {column}: {name:?}: {message}"),
            ),
            None => say(
                rt,
                format_args!("{path}: line {line}, column {column}: {message}"),
            ),
        }
    }

    // The keys that no configuration may have, the first ones of many.
    fn tell_all_unknown(&self, rt: &HostRuntime, table: &Table) {
        let (path, mut count) = (self.path.as_str(), 0u32);
        for (name, value) in table {
            if is_known_key(name.as_str()) {
                continue;
            }
            if count == MOST_UNKNOWN {
                say(
                    rt,
                    format_args!("{path}: there are further keys that are none"),
                );
                return;
            }
            count = count.saturating_add(1);
            self.tell_unknown(rt, name.as_str(), value);
        }
    }

    // A key that no configuration may have.
    fn tell_unknown(&self, rt: &HostRuntime, name: &str, value: &Value) {
        let (alloc, path) = (rt.alloc(), self.path.as_str());
        let place = self.place_of(alloc, name);
        match told(alloc, value) {
            Some(value) => say(
                rt,
                format_args!("{path}: {place}{name:?} = {value}: there is no such key"),
            ),
            None => say(
                rt,
                format_args!("{path}: {place}{name:?}: there is no such key"),
            ),
        }
    }

    // A key at which something else is wanted than stands there, or where nothing stands.
    fn tell_wanted(&self, rt: &HostRuntime, table: &Table, key: ConfigKey) {
        let (path, name, wanted) = (self.path.as_str(), key.name(), key.wanted());
        if table.get(name).is_some() {
            self.tell_value(rt, table, key, wanted);
        } else {
            say(
                rt,
                format_args!("{path}: {name} is missing: wanted is {wanted}"),
            );
        }
    }

    // What stands at a key, and what is wanted there. The key of the random order is no business of whoever reads the log.
    fn tell_value(&self, rt: &HostRuntime, table: &Table, key: ConfigKey, wanted: &str) {
        let (alloc, path, name) = (rt.alloc(), self.path.as_str(), key.name());
        let place = self.place_of(alloc, name);
        let value = match table.get(name) {
            Some(value) if key != ConfigKey::Key => told(alloc, value),
            _ => None,
        };
        match value {
            Some(value) => say(
                rt,
                format_args!("{path}: {place}{name} = {value}: wanted is {wanted}"),
            ),
            None => say(
                rt,
                format_args!("{path}: {place}{name}: wanted is {wanted}"),
            ),
        }
    }

    // Where a key is given a value: the first line that begins with it, if what stands before that is TOML by itself, so that the line is
    // no part of another value.
    fn place_of(&self, alloc: Global, name: &str) -> Place {
        let text = self.text.as_str();
        let (mut start, mut number, mut looked_at) = (0usize, 1usize, 0u32);
        for line in text.split('\n') {
            if looked_at < MOST_LOOKED_AT && name_in(line) == Some(name) {
                if is_whole(alloc, text, start) {
                    return Place { line: Some(number) };
                }
                looked_at = looked_at.saturating_add(1);
            }
            start = start.saturating_add(line.len()).saturating_add(1);
            number = number.saturating_add(1);
        }
        Place { line: None }
    }
}

// Whether the text up to this byte is TOML by itself.
fn is_whole(alloc: Global, text: &str, end: usize) -> bool {
    match text.get(..end) {
        Some(front) => toml::table_from_str(alloc, front).is_ok(),
        None => false,
    }
}

// Whether both are the same text.
fn is_same(value: &Value, other: Option<&Value>) -> bool {
    match (value.as_str(), other.and_then(Value::as_str)) {
        (Some(text), Some(other)) => text == other,
        _ => false,
    }
}

// A value as TOML has it, in one line, and of a long one its beginning; none for want of memory.
fn told(alloc: Global, value: &Value) -> Option<String> {
    let text = format!(in alloc; "{value}").ok()?;
    let whole = text.as_str();
    let front = whole.get(..whole.floor_char_boundary(MOST_TOLD))?;
    if front.contains('\n') {
        return format!(in alloc; "{front:?}").ok();
    }
    if front.len() < whole.len() {
        return format!(in alloc; "{front}..").ok();
    }
    Some(text)
}

// The number of the line that begins behind this text, from 1.
fn line_behind(before: &str) -> usize {
    let ends = before.as_bytes().iter().filter(|b| **b == b'\n').count();
    ends.saturating_add(1)
}

// The key at a line's beginning, up to a `.` or a `=`, or that of a table in brackets.
fn name_in(line: &str) -> Option<&str> {
    let line = line.trim_start();
    let front = match line.strip_prefix('[') {
        Some(header) => header.trim_start_matches('[').split_once(']')?.0,
        None => line.split_once('=')?.0,
    };
    let first = match front.split_once('.') {
        Some((first, _)) => first,
        None => front,
    };
    Some(bare(first.trim()))
}

// A key without the quotes round it.
fn bare(key: &str) -> &str {
    match unquoted(key, '"') {
        Some(inner) => inner,
        None => unquoted(key, '\'').unwrap_or(key),
    }
}

fn unquoted(key: &str, quote: char) -> Option<&str> {
    key.strip_prefix(quote)?.strip_suffix(quote)
}
