//! Commands.

ghost use Rattle.std.specs.Prelude.{◌≤◌, ◌+◌, ◌*◌, IfSome, IfNone};
ghost use Rattle.simpl_lang.specs.CodeWeight.{weight};

use c_values::CType;
use core::mem::replace_with;
use expression_lang::{Exp, Path};

/// Why a guard stands where it does. `Tag` and `Wrap` are watched by a function's level, the others
/// always.
#[derive(Clone, Copy, Debug, PartialEq, Eq)]
pub enum GuardKind {
    /// A divisor isn't zero.
    Div,
    /// A signed result is of its type.
    Signed,
    /// A shift is of fewer bits than there are, and a signed left shift fits.
    Shift,
    /// A root is aligned, not null, and all of its object in the space.
    Pointer,
    /// An index is of an element that is there.
    Bounds,
    /// The end of a function with a result isn't reached.
    Unreached,
    /// A root is covered by a tag.
    Tag,
    /// An unsigned result is of its type.
    Wrap,
}

/// An expression that has to hold, and what it is about.
#[derive(Debug, Drop)]
pub struct Condition {
    pub kind: GuardKind,
    pub exp: Exp,
}

/// A command. What it does is defined in `specs/Exec`.
#[derive(Debug)]
pub enum Simpl {
    Skip,
    Throw,
    /// The local takes the value.
    Set(String, Exp),
    /// The part of the global takes the value.
    SetGlobal(String, Path, Exp),
    /// The part, by its path, of the object of the type at the pointer takes the value.
    Store(CType, Exp, Path, Exp),
    /// The local takes any value of its sort.
    Pick(String),
    Seq(Box<Simpl>, Box<Simpl>),
    Cond(Exp, Box<Simpl>, Box<Simpl>),
    Guard(Condition, Box<Simpl>),
    /// The second runs where the first ended by an exception.
    Catch(Box<Simpl>, Box<Simpl>),
    /// The conditions, in order, stand before each test.
    While(Vec<Condition>, Exp, Box<Simpl>),
    /// Where the result goes, the function, and its arguments.
    Call(Option<String>, String, Vec<Exp>),
}

// A derived drop would call itself once for each command inside another. This one takes no stack:
// it turns the command to the right, step by step, until it is one sequence.
impl Drop for Simpl {
    fn drop(mut self) {
        loop {
            match self {
                Simpl::Skip | Simpl::Throw => return,
                Simpl::Set(_name, _value) => return,
                Simpl::SetGlobal(_name, _path, _value) => return,
                Simpl::Store(_ty, _pointer, _path, _value) => return,
                Simpl::Pick(_name) => return,
                Simpl::Call(_target, _function, _arguments) => return,
                Simpl::Seq(first, last) | Simpl::Catch(first, last) => self = turned(first, last),
                Simpl::Cond(_test, first, last) => self = turned(first, last),
                Simpl::Guard(_condition, last) => self = Box::into_inner(last),
                Simpl::While(_conditions, _test, last) => self = Box::into_inner(last),
            }
        }
    }
}

/// The two in sequence, with nothing left to drop beside its parts. It is made in the room that
/// there is.
fn turned(mut first: Box<Simpl>, last: Box<Simpl>) -> Simpl
    ensures { weight result ≤ 2 * weight first.value + weight last.value }
{
    match replace_with(&mut *first, last, Simpl::turn) {
        Some(front) => Simpl::Seq(front, first),
        None => Box::into_inner(first),
    }
}

impl Simpl {
    /// What is left of this command before the other: one command, or a first and what comes behind
    /// it.
    fn turn(self, last: Box<Simpl>) -> (Simpl, Option<Box<Simpl>>)
        ensures front { IfSome result.1 (λ front. 1 + (2 * weight front.value + weight result.0)
            ≤ 2 * weight self + weight last.value) }
        ensures no_front { IfNone result.1 (weight result.0 ≤ 2 * weight self + weight last.value) }
    {
        match self {
            Simpl::Skip | Simpl::Throw => (Box::into_inner(last), None),
            Simpl::Set(_name, _value) => (Box::into_inner(last), None),
            Simpl::SetGlobal(_name, _path, _value) => (Box::into_inner(last), None),
            Simpl::Store(_ty, _pointer, _path, _value) => (Box::into_inner(last), None),
            Simpl::Pick(_name) => (Box::into_inner(last), None),
            Simpl::Call(_target, _function, _arguments) => (Box::into_inner(last), None),
            Simpl::Seq(first, middle) | Simpl::Catch(first, middle) => {
                (Simpl::Seq(middle, last), Some(first))
            }
            Simpl::Cond(_test, first, middle) => (Simpl::Seq(middle, last), Some(first)),
            Simpl::Guard(_condition, middle) => (Simpl::Seq(middle, last), None),
            Simpl::While(_conditions, _test, middle) => (Simpl::Seq(middle, last), None),
        }
    }
}
