//! Trees of the rules by which a program is shown to give what an assertion says.

use crate::entail::Entail;
use expression_lang::Exp;

/// A rule, with what it takes and a tree for each of its parts. What it asks of a program and an
/// assertion is defined by the table of `hoare_check`.
pub enum Deriv {
    /// What the values make of the postcondition follows.
    Ret(Box<Exp>, Box<Entail>),
    /// The first program gives this, from which alone the second gives the postcondition.
    Bind(Box<Exp>, Box<Deriv>, Box<Deriv>),
    /// The guard follows, and with it the postcondition.
    Guard(Box<Entail>, Box<Entail>),
    If(Box<Deriv>, Box<Deriv>),
    /// An invariant is kept.
    Loop {
        invariant: Box<Exp>,
        /// What the invariant says of the first values.
        first: Box<Exp>,
        begins: Box<Entail>,
        guarded: Box<Entail>,
        kept: Box<Deriv>,
        /// What the postcondition says of the last values.
        last: Box<Exp>,
        ends: Box<Entail>,
    },
    /// By a triple of the function that is called.
    Call {
        /// The triple's position, from 0.
        triple: u128,
        /// The values of its logical variables.
        logicals: Vec<Exp>,
        /// What its precondition says of the arguments.
        before: Box<Exp>,
        asked: Box<Entail>,
        /// What its postcondition says of the result.
        after: Box<Exp>,
        given: Box<Entail>,
    },
    Pick(Box<Entail>),
    /// What the postcondition says before an object of a typed heap is written follows.
    Write(Box<Exp>, Box<Entail>),
    /// What it says before a global is written follows.
    Gset(Box<Exp>, Box<Entail>),
}

// A derived drop would call itself once for each last part, and be written out wherever a tree may
// be let go.
impl Drop for Deriv {
    fn drop(mut self) {
        loop {
            match self {
                Deriv::Bind(_between, _first, last) => self = Box::into_inner(last),
                Deriv::If(_first, last) => self = Box::into_inner(last),
                Deriv::Loop {
                    invariant: _invariant,
                    first: _first,
                    begins: _begins,
                    guarded: _guarded,
                    kept,
                    last: _last,
                    ends: _ends,
                } => self = Box::into_inner(kept),
                Deriv::Call {
                    triple: _triple,
                    logicals: _logicals,
                    before: _before,
                    asked: _asked,
                    after: _after,
                    given: _given,
                } => return,
                Deriv::Ret(_exp, _shown) | Deriv::Write(_exp, _shown) => return,
                Deriv::Gset(_exp, _shown) => return,
                Deriv::Guard(_first, _last) => return,
                Deriv::Pick(_shown) => return,
            }
        }
    }
}
