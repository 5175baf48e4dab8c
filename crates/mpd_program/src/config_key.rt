//! The keys of a configuration.
ghost use Rattle.std.specs.Prelude.{◌≡◌};
ghost use Rattle.mpd_program.specs.Configuration.{name_of};

/// A key that a configuration may have.
#[derive(Clone, Copy, Debug, PartialEq, Eq)]
pub enum ConfigKey {
    Music,
    JournalA,
    JournalB,
    Key,
    Tcp,
    Unix,
    Output,
    Form,
    Formats,
    Decoder,
    StockClients,
    Resume,
    PlaceEvery,
    Debug,
}

impl ConfigKey {
    /// In the order in which what is wrong with them is told.
    pub const ALL: [ConfigKey; 14] = [
        ConfigKey::Music,
        ConfigKey::JournalA,
        ConfigKey::JournalB,
        ConfigKey::Key,
        ConfigKey::Tcp,
        ConfigKey::Unix,
        ConfigKey::Output,
        ConfigKey::Form,
        ConfigKey::Formats,
        ConfigKey::Decoder,
        ConfigKey::StockClients,
        ConfigKey::Resume,
        ConfigKey::PlaceEvery,
        ConfigKey::Debug,
    ];

    /// As it stands in the text.
    pub fn name(self) -> &'static str
        ensures { result.now ≡ name_of self }
    {
        match self {
            ConfigKey::Music => "music",
            ConfigKey::JournalA => "journal_a",
            ConfigKey::JournalB => "journal_b",
            ConfigKey::Key => "key",
            ConfigKey::Tcp => "tcp",
            ConfigKey::Unix => "unix",
            ConfigKey::Output => "output",
            ConfigKey::Form => "form",
            ConfigKey::Formats => "formats",
            ConfigKey::Decoder => "decoder",
            ConfigKey::StockClients => "stock_clients",
            ConfigKey::Resume => "resume",
            ConfigKey::PlaceEvery => "place_every",
            ConfigKey::Debug => "debug",
        }
    }

    /// What is to stand there, in words.
    pub fn wanted(self) -> &'static str {
        match self {
            ConfigKey::Music => "the folder of the songs, a text in quotes",
            ConfigKey::JournalA => "the journal's first file, a text in quotes",
            ConfigKey::JournalB => "the journal's second file, a text in quotes",
            ConfigKey::Key => "64 hexadecimal digits in quotes",
            ConfigKey::Tcp => "an address and port in quotes, as \"127.0.0.1:6600\"",
            ConfigKey::Unix => "a socket's path in quotes, not empty",
            ConfigKey::Output => "a path in quotes, or \"-\" for standard output",
            ConfigKey::Form => "\"wave\" or \"bare\"",
            ConfigKey::Formats =>
                "a list of \"wave\" and perhaps \"wave-pcm\", \"flac\", each once",
            ConfigKey::Decoder => "the path of a decoder's socket in quotes, not empty",
            ConfigKey::Resume => "\"paused\" or \"playing\"",
            ConfigKey::PlaceEvery => "seconds from 0 to 3600, without quotes",
            ConfigKey::StockClients | ConfigKey::Debug => "true or false, without quotes",
        }
    }
}
