//! Values of C types, and globals.

use crate::numbers::Number;
use crate::types::CType;
use crate::words::Word;

/// A value: of a scalar type a word, of a struct or an array the values of its parts. Programs on numbers have numbers
/// and truth values besides.
#[derive(Debug)]
pub enum Value {
    Word(Word),
    Number(Number),
    Truth(bool),
    Parts(Vec<Value>),
}

// A derived drop would call itself once for each level, and a value may be as deep as a type.
impl Drop for Value {
    fn drop(mut self) {
        loop {
            match self {
                Value::Word(_) | Value::Number(_) | Value::Truth(_) => return,
                Value::Parts(mut parts) => match parts.pop() {
                    Some(last) => self = last,
                    None => return,
                },
            }
        }
    }
}

/// A step into a struct or an array.
#[derive(Clone, Copy, Debug, PartialEq, Eq)]
pub enum PathStep {
    /// A member, from 0.
    Field(u32),
    /// An element, from 0.
    Index(u32),
}

/// A global, with the value that it begins with.
#[derive(Debug, Drop)]
pub struct GlobalVar {
    pub name: String,
    pub ty: CType,
    pub initial: Value,
}
