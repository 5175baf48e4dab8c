//! The kinds of passes, by their words.
use driver_base::Fault;
use stage_workers::Kind;

pub fn kind_of(word: &str) -> Result<Kind, Fault> {
    match word {
        "clients" => Ok(Kind::Clients),
        "player" => Ok(Kind::Player),
        "scan" => Ok(Kind::Scan),
        _ => Err(Fault::NoDirective),
    }
}

pub fn name_of(kind: Kind) -> &'static str {
    match kind {
        Kind::Clients => "clients",
        Kind::Player => "player",
        Kind::Scan => "scan",
    }
}
