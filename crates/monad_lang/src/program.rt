//! Programs as plain data. `specs/Program` has the language, and `specs/Run` what programs do.

ghost use Rattle.std.specs.Prelude.{◌≡◌, ◌≤◌, ◌+◌, ◌*◌, IfSome, IfNone};
ghost use Rattle.monad_lang.specs.CodeWeight.{weight};

use c_values::{CType, Program};
use core::mem::replace_with;
use expression_lang::{Binder, Exp, Kind, Level, Named, Path};

/// What is written.
#[derive(Debug, Drop)]
pub enum Place {
    /// The bytes of a part of an object: its type, its address and the path.
    Stored(CType, Exp, Path),
    /// The same in a typed heap.
    Written(CType, Exp, Path),
    /// A part of a global.
    Global(String, Path),
}

/// A name and the expression that it begins with.
#[derive(Debug, Drop)]
pub struct Start {
    pub name: String,
    pub exp: Exp,
}

/// A monadic program.
#[derive(Debug)]
pub enum Mon {
    /// Gives the values.
    Ret(Vec<Exp>),
    /// The first program, its values under the names, and then the second.
    Bind(Box<Mon>, Vec<String>, Box<Mon>),
    /// Fails where the expression is false.
    Guard(Exp),
    /// The first program where the expression holds, else the second.
    If(Exp, Box<Mon>, Box<Mon>),
    /// The place takes the value.
    Write(Place, Exp),
    /// Names with their start expressions, a guard and a test before each turn, and a body that
    /// gives the next values.
    Loop(Vec<Start>, Exp, Exp, Box<Mon>),
    Call(String, Vec<Exp>),
    /// Any value of the kind.
    Pick(Kind),
}

// A derived drop would call itself once for each program inside another. This one takes no stack: it turns the program to the
// right, step by step, until the first part of each sequence has no parts.
impl Drop for Mon {
    fn drop(mut self) {
        loop {
            match self {
                Mon::Ret(_values) => return,
                Mon::Guard(_condition) => return,
                Mon::Write(_place, _value) => return,
                Mon::Call(_function, _arguments) => return,
                Mon::Pick(_kind) => return,
                Mon::Bind(first, names, last) => self = turned(Head::Bind(names), first, last),
                Mon::If(test, first, last) => self = turned(Head::If(test), first, last),
                Mon::Loop(_starts, _guard, _test, last) => self = Box::into_inner(last),
            }
        }
    }
}

/// What a program of two parts has beside them.
#[derive(Drop)]
enum Head {
    Bind(Vec<String>),
    If(Exp),
}

impl Head {
    /// The program of these parts.
    fn over(self, first: Box<Mon>, last: Box<Mon>) -> Mon
        ensures { weight result ≡ 1 + (2 * weight first.value + weight last.value) }
    {
        match self {
            Head::Bind(names) => Mon::Bind(first, names, last),
            Head::If(test) => Mon::If(test, first, last),
        }
    }
}

/// What is left to drop of a program of two parts, turned to the right by one step. It is made in the room that there is.
fn turned(head: Head, mut first: Box<Mon>, last: Box<Mon>) -> Mon
    ensures { weight result ≤ 2 * weight first.value + weight last.value }
{
    match replace_with(&mut *first, (head, last), Mon::turn) {
        Some((own, front)) => own.over(front, first),
        None => Box::into_inner(first),
    }
}

impl Mon {
    /// What is left of this first part and what it stands before: one program, or what comes behind a front of its own.
    fn turn(self, beside: (Head, Box<Mon>)) -> (Mon, Option<(Head, Box<Mon>)>)
        ensures front { IfSome result.1
            (λ (own, front). 1 + (2 * weight front.value + weight result.0)
            ≤ 2 * weight self + weight beside.1.value) }
        ensures no_front { IfNone result.1
            (weight result.0 ≤ 2 * weight self + weight beside.1.value) }
    {
        let (head, last) = beside;
        match self {
            Mon::Ret(_values) => (Box::into_inner(last), None),
            Mon::Guard(_condition) => (Box::into_inner(last), None),
            Mon::Write(_place, _value) => (Box::into_inner(last), None),
            Mon::Call(_function, _arguments) => (Box::into_inner(last), None),
            Mon::Pick(_kind) => (Box::into_inner(last), None),
            Mon::Bind(first, names, middle) => {
                (head.over(middle, last), Some((Head::Bind(names), first)))
            }
            Mon::If(test, first, middle) => (
                head.over(middle, last),
                Some((Head::If(test), first)),
            ),
            Mon::Loop(_starts, _guard, _test, body) => (head.over(body, last), None),
        }
    }
}

/// A function's program.
#[derive(Debug, Drop)]
pub struct FinalFn {
    pub name: String,
    pub level: Level,
    pub params: Vec<Binder>,
    pub results: Vec<Kind>,
    pub body: Mon,
}

/// The programs of a text.
pub type FinalUnit = Program<FinalFn>;

impl Named for Start {
    ghost use Rattle.std.specs.Prelude.{string_bytes};

    ghost named = { λ start. string_bytes start.name };

    fn name(&self) -> &str {
        self.name.as_str()
    }
}

impl Named for FinalFn {
    ghost use Rattle.std.specs.Prelude.{string_bytes};

    ghost named = { λ f. string_bytes f.name };

    fn name(&self) -> &str {
        self.name.as_str()
    }
}
