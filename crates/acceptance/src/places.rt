//! Where a function's steps aren't accepted.

/// What is asked of a function, in this order: the calls of its level, and its steps.
#[derive(Clone, Copy, Debug, PartialEq, Eq)]
pub enum Phase {
    Level,
    Exception,
    Local,
    Heap,
    Word,
    Equal,
}

/// The first node that isn't accepted, in preorder from 0, of the first step that has one. Node 0
/// also stands for a program that isn't of the step's form, or is ill-sorted, and for a call.
#[derive(Clone, Copy, Debug, PartialEq, Eq)]
pub struct Place {
    pub phase: Phase,
    pub node: u32,
}

/// The first of a unit that isn't accepted: the position where the list of its functions' names and
/// levels isn't the certificate's, or the position of a function, and the place in it.
#[derive(Clone, Copy, Debug, PartialEq, Eq)]
pub enum Refusal {
    List(usize),
    Function(usize, Place),
}
