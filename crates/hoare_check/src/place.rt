//! Where a triple isn't accepted.

/// Where a triple isn't accepted: the triple's position, from 0, and the first node of its
/// derivation, in preorder from 0, that is no instance of its rule. Node 0 is also told where there is
/// no such function, where the names of the logical variables aren't distinct or are those of
/// parameters or of the result, and where the precondition or the postcondition is no assertion.
#[derive(Clone, Copy, Debug, PartialEq, Eq)]
pub struct TripleAt {
    pub triple: u32,
    pub node: u32,
}
