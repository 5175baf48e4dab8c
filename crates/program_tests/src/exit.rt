// How the program ends where it wants memory, which no shell can bring about.
use crate::assertions::{equal, same_text};
use mpd_program::Exit;
use std::io::ErrorKind;
use std::test::Fail;

#[test]
fn want_of_memory_is_told_apart(rt: HostRuntime) -> Result<(), Fail> {
    let fault = Exit::BadConfiguration;
    let found = fault.unless_memory(&ErrorKind::NotFound.into());
    let wanted = fault.unless_memory(&ErrorKind::OutOfMemory.into());
    equal(&rt, (found, wanted), (fault, Exit::NO_MEMORY));
    same_text(
        &rt,
        format!(in rt.alloc(); "{wanted}")?.as_str(),
        "journal refused: 7",
    );
    Ok(())
}
