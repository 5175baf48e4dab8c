// `command_text`: how a request prints.
use crate::assertions::same_text;
use command_text::{Lines, Request};
use std::alloc::Global;
use std::test::Fail;

fn list(alloc: Global) -> Result<Request, Fail> {
    let mut lines = Lines::new(alloc);
    for line in ["ping", "", "status"] {
        lines.push(line.as_bytes())?;
    }
    Ok(Request::OkList(lines))
}

#[test]
fn printed_request(rt: HostRuntime) -> Result<(), Fail> {
    let request = list(rt.alloc())?;
    let text = format!(in rt.alloc(); "{request:?}")?;
    same_text(
        &rt,
        text.as_str(),
        "OkList(Lines { text: [112, 105, 110, 103, 115, 116, 97, 116, 117, 115], lengths: [4, 0, 6] })",
    );
    Ok(())
}
