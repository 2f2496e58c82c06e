// Who is told how far work is.

/// Work that goes on for a while, function by function.
#[derive(Clone, Copy, Debug, PartialEq, Eq)]
pub enum Work {
    Translation,
    Check,
}

/// Who is told how far work is while it goes on. No answer depends on what is told.
pub trait Progress {
    /// So many functions are done, of so many in all. By default nobody is told.
    fn done(&self, _work: Work, _functions: usize, _all: usize) {}

    /// The work is over, whatever it came to. By default nobody is told.
    fn over(&self) {}
}

/// Nobody: what is told is dropped.
#[derive(Clone, Copy, Debug)]
pub struct Nobody;

impl Progress for Nobody {}
