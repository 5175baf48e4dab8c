// `play_queue`: calls that no program makes.
use crate::assertions::{equal, uri};
use play_queue::{Entry, Queue, QueueBuilder};
use song_db::RowUri;
use std::alloc::Global;
use std::test::Fail;

/// A queue at version 9 with entries of a.wav, whose ids are 7 and 3.
fn restored(alloc: Global) -> Result<Queue, Fail> {
    let mut builder = QueueBuilder::new(alloc, 9, 8)
        .ok()
        .ok_or("a version or a next id was refused")?;
    for (id, stamp) in [(7, 2), (3, 9)] {
        let entry = Entry {
            id,
            uri: RowUri::new(uri(alloc, "a.wav")?, 0),
            priority: 0,
            stamp,
        };
        builder.push(entry).ok().ok_or("an entry was refused")?;
    }
    Ok(builder.finish())
}

#[test]
fn calls_of_no_program(rt: HostRuntime) -> Result<(), Fail> {
    let mut queue = restored(rt.alloc())?;
    equal(&rt, (queue.version(), queue.next_id()), (9, 8));
    equal(&rt, (queue.pos_of(7), queue.pos_of(3)), (Some(0), Some(1)));
    equal(&rt, queue.delete_id(7), Ok(()));
    equal(&rt, queue.pos_of(3), Some(0));
    queue.clear();
    equal(&rt, (queue.version(), queue.is_empty()), (11, true));
    Ok(())
}
