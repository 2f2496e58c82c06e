//! Triples with their derivations.

use crate::deriv::Deriv;
use expression_lang::{Exp, Scalar};

/// A variable that stands for the same value before and after.
pub struct Logical {
    pub name: String,
    pub scalar: Scalar,
}

// A derived drop would be written out wherever one may be let go.
impl Drop for Logical {
    fn drop(self) {
        let Logical {
            name: _name,
            scalar: _scalar,
        } = self;
    }
}

/// A Hoare triple of a function, and how it is derived.
pub struct Triple {
    pub function: String,
    pub logicals: Vec<Logical>,
    pub before: Exp,
    pub after: Exp,
    pub derivation: Deriv,
}

// A derived drop would be written out wherever one may be let go.
impl Drop for Triple {
    fn drop(self) {
        let Triple {
            function: _function,
            logicals: _logicals,
            before: _before,
            after: _after,
            derivation: _derivation,
        } = self;
    }
}
