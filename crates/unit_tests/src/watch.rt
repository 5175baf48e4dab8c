// `idle_masks`: what is ready without room that was taken before.
use crate::assertions::equal;
use idle_masks::{Report, Reports, Subsystem, Subsystems, Watch, WatchError};
use std::alloc::Global;

// The next functions have no contract: the prover then reads the long ones of the watch here alone, and in no test.

/// Of two clients the second waits for the mixer, and that changes.
fn waiting(alloc: Global) -> Result<Watch, WatchError> {
    let mut watch = Watch::new(alloc);
    watch.join(1)?;
    watch.join(2)?;
    watch.wait(2, Subsystems::only(Subsystem::Mixer))?;
    watch.mark(Subsystems::only(Subsystem::Mixer));
    Ok(watch)
}

fn ready(watch: &mut Watch, alloc: Global) -> Result<Reports, WatchError> {
    watch.ready(alloc)
}

#[test]
fn who_is_told(rt: HostRuntime) -> Result<(), WatchError> {
    let mut watch = waiting(rt.alloc())?;
    let reports = ready(&mut watch, rt.alloc())?;
    let mixer = Report {
        client: 2,
        changed: Subsystems::only(Subsystem::Mixer),
    };
    equal(&rt, reports.as_slice(), &[mixer]);
    Ok(())
}
