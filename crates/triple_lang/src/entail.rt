//! Trees of the rules by which an assertion is shown from facts.

use c_values::Number;
use expression_lang::Exp;

/// A fact, and how often it is taken.
pub struct Weighed {
    pub weight: Number,
    pub fact: Box<Exp>,
}

// A derived drop would be written out wherever one may be let go.
impl Drop for Weighed {
    fn drop(self) {
        let Weighed {
            weight: _weight,
            fact: _fact,
        } = self;
    }
}

/// A rule, with what it takes and a tree for each of its parts. What it asks of an assertion is
/// defined by the table of `entailment`.
pub enum Entail {
    /// It is known.
    Hyp,
    /// Both sides are the same.
    Same,
    /// It is of constants alone, and true.
    Compute,
    And(Box<Entail>, Box<Entail>),
    Imp(Box<Entail>),
    Or(Box<Entail>),
    Not(Box<Entail>),
    /// The least of a range, and the greatest.
    Between(Box<Entail>, Box<Entail>),
    /// Where this holds, and where it doesn't.
    Case(Box<Exp>, Box<Entail>, Box<Entail>),
    /// This first, which is then a fact.
    Cut(Box<Exp>, Box<Entail>, Box<Entail>),
    /// The facts contradict each other.
    Absurd(Box<Entail>),
    /// The first two are equal, and the third is the assertion with some of the first made the
    /// second.
    Rewrite(Box<Exp>, Box<Exp>, Box<Exp>, Box<Entail>, Box<Entail>),
    /// One step away from this.
    Step(Box<Exp>, Box<Entail>),
    /// The range has every value of a word in it.
    Range,
    /// The assertion's opposite, so often, and the facts, each so often, contradict each other.
    Linear(Number, Vec<Weighed>),
}

// A derived drop would call itself once for each last part, and be written out wherever a tree may
// be let go.
impl Drop for Entail {
    fn drop(mut self) {
        loop {
            match self {
                Entail::Hyp | Entail::Same | Entail::Compute | Entail::Range => return,
                Entail::Linear(_weight, _facts) => return,
                Entail::And(_first, last) | Entail::Between(_first, last) => {
                    self = Box::into_inner(last);
                }
                Entail::Imp(last) | Entail::Or(last) | Entail::Not(last) | Entail::Absurd(last) => {
                    self = Box::into_inner(last);
                }
                Entail::Case(_exp, _first, last) | Entail::Cut(_exp, _first, last) => {
                    self = Box::into_inner(last);
                }
                Entail::Rewrite(_left, _right, _rest, _first, last) => self = Box::into_inner(last),
                Entail::Step(_rest, last) => self = Box::into_inner(last),
            }
        }
    }
}
