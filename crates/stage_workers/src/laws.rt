//! What is promised of a shared stage: what each of its calls does while it holds the lock, one order played, one folder scanned.

pub use crate::player::play_once;
pub use crate::scan::scan_once;
pub use crate::under_lock::{
    chunk_limit, closed, count_replaced, count_songs, enter, enter_group, gave_room, keeps, locked,
    made_room, ordered, passed, put_off_due, rewound, running_job, scan_ordered, settled, taken,
    waits_for_room, withheld,
};
