//! The rules that take programs to programs that mean the same, by name.

use monad_lang::Mon;

/// A rule. What it asks of two programs is defined in `specs/Table`.
#[derive(Debug)]
pub enum Rule {
    Refl,
    /// With the program between.
    Trans(Box<Mon>),
    Bind,
    If,
    Loop,
    /// With the position of the value.
    RetOne(u32),
    BindRet,
    Assoc,
    IfConst,
    GuardKnown,
    Exp,
}

// A derived drop would be written out wherever a rule may be let go.
impl Drop for Rule {
    fn drop(self) {
        match self {
            Rule::Trans(_between) => {}
            Rule::Refl | Rule::Bind | Rule::If | Rule::Loop | Rule::RetOne(_) => {}
            Rule::BindRet | Rule::Assoc | Rule::IfConst | Rule::GuardKnown | Rule::Exp => {}
        }
    }
}
