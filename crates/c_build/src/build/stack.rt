//! A stack of values, the last one on top.

ghost use Rattle.std.specs.Prelude.{◌≡◌, [], ◌∷◌, IsErrOf, List, MatchOption, MatchResult, reverse};
ghost use Rattle.c_build.specs.declared.build.stack.BuildFault.TheVariants.{Memory, Missing};

use std::alloc::{AllocError, AllocFailed, Global};
use std::marker::Model;

/// Why no tree is built.
#[derive(Clone, Copy, Debug, PartialEq, Eq)]
pub(crate) enum BuildFault {
    /// A part of a tree is missing.
    Missing,
    /// Memory ran out.
    Memory,
}

impl From<AllocError> for BuildFault {
    ghost from_gives = { λ _ e. e ≡ Memory };

    fn from(_error: AllocError) -> BuildFault {
        BuildFault::Memory
    }
}

impl<T: Drop> From<AllocFailed<T>> for BuildFault {
    ghost from_gives = { λ _ e. e ≡ Memory };

    fn from(_error: AllocFailed<T>) -> BuildFault {
        BuildFault::Memory
    }
}

/// A stack: contracts see the list of its values, the top first.
#[derive(Drop)]
pub(crate) struct Stack<T> {
    items: Vec<T>,
}

impl<T> Model for Stack<T> {
    ghost Value = { List T };

    ghost view = { λ s. reverse s.items.items };
}

impl<T> Stack<T> {
    /// An empty stack.
    pub(crate) fn new(alloc: Global) -> Self
        ensures { result ≡ [] }
    {
        Stack {
            items: Vec::new(alloc),
        }
    }

    /// Takes the top, if there is one.
    pub(crate) fn pop(&mut self) -> Option<T>
        ensures { MatchOption result (self.old ≡ []) (λ top. self.old ≡ top ∷ self.new) }
    {
        self.items.pop()
    }
}

impl<T: Drop> Stack<T> {
    /// Puts a value on top.
    pub(crate) fn push(&mut self, top: T) -> Result<(), BuildFault>
        ensures { MatchResult result (λ _. self.new ≡ top ∷ self.old) (λ e. e ≡ Memory) }
    {
        self.items.push(top)?;
        Ok(())
    }

    /// The values, the top first.
    pub(crate) fn into_vec(self) -> Vec<T>
        ensures { result.items ≡ self }
    {
        let Stack { mut items } = self;
        items.reverse();
        items
    }
}

/// Lets go of what stands where a part of another form is wanted: a value, or that there is none.
pub(crate) fn misplaced<V: Drop, T>(_value: V) -> Result<T, BuildFault>
    ensures { IsErrOf result Missing }
{
    Err(BuildFault::Missing)
}
