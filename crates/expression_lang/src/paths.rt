//! Paths from a root to a part of it.

use crate::expression::Exp;

/// A path: nothing more, or a member, from 0, or an element, and then a path.
#[derive(Debug)]
#[cycle(exp)]
pub enum Path {
    Here,
    Field(u32, Box<Path>),
    Index(Box<Exp>, Box<Path>),
}

// A derived drop would call itself once for each step, and a text may have long paths.
impl Drop for Path {
    #[cycle(drop_expression)]
    fn drop(mut self) {
        loop {
            match self {
                Path::Here => return,
                Path::Field(_member, rest) => self = Box::into_inner(rest),
                Path::Index(_index, rest) => self = Box::into_inner(rest),
            }
        }
    }
}
