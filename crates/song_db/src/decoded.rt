// The names of files that a decoder beside the daemon reads.
ghost use Rattle.std.specs.Prelude.{◌≡◌, ◌-◌, drop, length, map};
ghost use Rattle.std.specs.Char.{to_ascii_lowercase};
ghost use Rattle.std.specs.List.{list_any};
ghost use Rattle.std.specs.Str.{bytes_eq};
ghost use Rattle.song_db.specs.Endings.{decoded_endings, has_ending};

// Their endings: first those of files whose sound is, as a rule, plain or packed without loss, then those of sound that is coded with
// loss, and of what may have either.
const ENDINGS: &[&str] = &[
    ".aif", ".aifc", ".aiff", ".ape", ".au", ".caf", ".dff", ".dsf", ".tak", ".tta", ".wv", ".aac",
    ".asf", ".m4a", ".m4b", ".mka", ".mp2", ".mp3", ".mp4", ".mpc", ".oga", ".ogg", ".opus",
    ".spx", ".wma",
];

/// Whether a path ends as the files that a decoder beside the daemon reads: in one of their endings, in any ASCII case.
pub fn is_decoded(path: &[u8]) -> bool
    ensures { result ≡ list_any (has_ending path.now) decoded_endings }
{
    for ending in decoded_endings() {
        if ends_in(path, ending.as_bytes()) {
            return true;
        }
    }
    false
}

fn decoded_endings() -> &'static [&'static str]
    ensures { map (λ ending. ending.now) result.now ≡ decoded_endings }
{
    ENDINGS
}

// Whether a path has this ending, in any ASCII case of either.
fn ends_in(path: &[u8], ending: &[u8]) -> bool
    ensures { result ≡ bytes_eq (map to_ascii_lowercase (drop (length path.now - length ending.now) path.now)) (map to_ascii_lowercase ending.now) }
{
    path[path.len().saturating_sub(ending.len())..].eq_ignore_ascii_case(ending)
}
