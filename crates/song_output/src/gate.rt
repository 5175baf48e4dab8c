// Where a thread that reads and writes can be made to stand still, as tests do.

/// What is about to be done, or was done just now.
#[derive(Clone, Copy, Debug, PartialEq, Eq)]
pub enum Point {
    BeforeRead,
    AfterRead,
    BeforeWrite,
    AfterWrite,
}

/// Is told of each read of a file and of each write to the output, before it and after it.
pub trait Gate {
    /// It may take its time: what comes next waits for its return.
    fn at(&self, point: Point);
}

/// Lets all pass.
#[derive(Clone, Copy, Debug)]
pub struct OpenGate;

impl Gate for OpenGate {
    fn at(&self, _point: Point) {}
}
