// What the first byte and the first line of a stream tell.
ghost use Rattle.std.specs.Prelude.{◌≡◌, false};
ghost use Rattle.client_session.specs.Lines.{HasNoNewline};
ghost use Rattle.http_guard.specs.FirstLine.{begins_with_control, begins_with_method, ends_with_version, is_http_line, is_not_text};
ghost use Rattle.http_guard.specs.FirstLine.{is_version, without_return, IsVerdict};

use client_session::LINE_LIMIT;
use memchr::memchr;

const NEWLINE: u8 = b'\n';

/// What the bytes of a stream so far tell.
#[derive(Clone, Copy, Debug, PartialEq, Eq)]
pub(crate) enum Verdict {
    /// Nothing yet.
    Unknown,
    /// It is shut out.
    ShutOut,
    /// It is let in.
    LetIn,
}

// Whether this is a control character that no text has.
fn is_not_text(byte: u8) -> bool
    ensures { result ≡ is_not_text byte }
{
    byte.is_ascii_control() && byte != b'\t' && byte != NEWLINE && byte != b'\r'
}

// Whether a stream begins with one.
fn begins_with_control(stream: &[u8]) -> bool
    ensures { result ≡ begins_with_control stream.now }
{
    match stream.split_first() {
        Some((first, _)) => is_not_text(*first),
        None => false,
    }
}

// Whether a line begins with a method of HTTP.
fn begins_with_method(line: &[u8]) -> bool
    ensures { result ≡ begins_with_method line.now }
{
    line.starts_with(b"GET ")
        || line.starts_with(b"POST ")
        || line.starts_with(b"PUT ")
        || line.starts_with(b"HEAD ")
        || line.starts_with(b"OPTIONS ")
        || line.starts_with(b"DELETE ")
        || line.starts_with(b"PATCH ")
        || line.starts_with(b"CONNECT ")
        || line.starts_with(b"TRACE ")
}

// A line without the carriage return at its end.
fn without_return(line: &[u8]) -> &[u8]
    ensures { result.now ≡ without_return line.now }
{
    if line.ends_with(b"\r") {
        &line[..line.len() - 1]
    } else {
        line
    }
}

// Whether this is a version of HTTP with the space before it.
fn is_version(text: &[u8]) -> bool
    ensures { result ≡ is_version text.now }
{
    text.len() == 9
        && text.starts_with(b" HTTP/")
        && text[6].is_ascii_digit()
        && text[7] == b'.'
        && text[8].is_ascii_digit()
}

// Whether a line ends with a version of HTTP.
fn ends_with_version(line: &[u8]) -> bool
    ensures { result ≡ ends_with_version line.now }
{
    let text = without_return(line);
    is_version(&text[text.len().saturating_sub(9)..])
}

// Whether a line is one of HTTP.
fn is_http_line(line: &[u8]) -> bool
    ensures { result ≡ is_http_line line.now }
{
    begins_with_method(line) || (line.len() <= LINE_LIMIT && ends_with_version(line))
}

// What a line tells that has not ended yet.
fn judge_start(start: &[u8]) -> Verdict
    requires one { HasNoNewline start.now }
    requires text { begins_with_control start.now ≡ false }
    ensures { IsVerdict start.now result }
{
    if begins_with_method(start) {
        Verdict::ShutOut
    } else if start.len() > LINE_LIMIT {
        Verdict::LetIn
    } else {
        Verdict::Unknown
    }
}

/// What the bytes of a stream so far tell, from its beginning on.
pub(crate) fn judge(seen: &[u8]) -> Verdict
    ensures { IsVerdict seen.now result }
{
    if begins_with_control(seen) {
        return Verdict::ShutOut;
    }
    let Some(end) = memchr(NEWLINE, seen) else {
        return judge_start(seen);
    };
    if is_http_line(&seen[..end]) {
        Verdict::ShutOut
    } else {
        Verdict::LetIn
    }
}
