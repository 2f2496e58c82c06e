//! What constant expressions have of the C that they are, as a contract of a function that does
//! nothing.

ghost use Rattle.c_lang.specs.Typed.{Expr};
ghost use Rattle.c_lang.specs.WellTyped.{Scope};
ghost use Rattle.constant_laws.specs.SameValue.{HasItsValue};

/// A typed constant expression has a constant value exactly where no step of it is undefined,
/// whatever the locals and the state are, and what it gives there is the word of that value.
pub fn constants_have_their_values()
    ensures { (g : Scope) (e : Expr) → HasItsValue g e }
{}
