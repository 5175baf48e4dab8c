/// What a call of the player changes of the saved half. The caller makes the edits, in the order of the fields.
#[derive(Clone, Copy, Debug, PartialEq, Eq)]
pub struct Changes {
    /// The new order number.
    pub order: Option<u64>,
    /// The position of the entry that `consume` takes out of the queue.
    pub removed: Option<usize>,
    /// The option `single` goes from `oneshot` to off.
    pub single_off: bool,
    /// The option `consume` goes from `oneshot` to off: it has taken an entry out.
    pub consume_off: bool,
}

impl Changes {
    /// Nothing saved is changed.
    pub const NONE: Changes = Changes {
        order: None,
        removed: None,
        single_off: false,
        consume_off: false,
    };
}
