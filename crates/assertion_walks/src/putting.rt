//! Whether an expression is another one with expressions in place of names. Nothing is built.

ghost use Rattle.std.specs.Prelude.{◌≡◌, ◌↔◌, IsTrue, Option};
ghost use Rattle.std.specs.Option.{option_map};
ghost use Rattle.c_values.specs.Name.{Name};
ghost use Rattle.expression_lang.specs.Changed.{changed};
ghost use Rattle.expression_lang.specs.CodeExpression.{exp_of};
ghost use Rattle.expression_lang.specs.Expression as plain;
ghost use Rattle.assertion_walks.specs.CodePut.{value_in, in_places_by};

use ac_expr::{children_of, same_head};
use expression_lang::Exp;

/// What may stand in place of a name: an expression, or another name's variable.
#[derive(Clone, Copy)]
pub enum Value<'a> {
    Exp(&'a Exp),
    Name(&'a str),
}

/// A table of values that are to stand in place of names.
pub trait Values {
    ghost value_of: { Self → Name → Option plain.Exp };

    /// What is to stand in place of a name, or none.
    fn value(&self, name: &str) -> Option<Value<'_>>
        ensures { option_map value_in result ≡ value_of self.now name.now };
}

// Whether an expression is the value.
fn is_value(value: Value<'_>, e: &Exp) -> bool
    ensures { IsTrue result ↔ (exp_of e.now ≡ value_in value.entry) }
{
    match value {
        Value::Exp(other) => e.same(other),
        Value::Name(name) => match e {
            Exp::Var(other) => name == other.as_str(),
            _ => false,
        },
    }
}

// What is to stand in place of an expression, or none.
fn instead<'a, V: Values>(values: &'a V, e: &Exp) -> Option<Value<'a>>
    ensures { option_map value_in result ≡ in_places_by (V.value_of values.now) (exp_of e.now) }
{
    match e {
        Exp::Var(name) => values.value(name.as_str()),
        _ => None,
    }
}

/// Whether the second expression is the first with each value in place of its name.
pub fn is_put<V: Values>(values: &V, whole: &Exp, other: &Exp) -> bool
    ensures { IsTrue result ↔ (exp_of other.now
        ≡ changed (in_places_by (V.value_of values.now)) (exp_of whole.now)) }
{
    if let Some(value) = instead(values, whole) {
        return is_value(value, other);
    }
    if !same_head(whole, other) {
        return false;
    }
    let mut ones = children_of(whole);
    let mut others = children_of(other);
    'along: loop {
        let Some((a, behind)) = ones.next() else {
            return others.next().is_none();
        };
        let Some((b, rest)) = others.next() else {
            return false;
        };
        if !is_put(values, a, b) {
            return false;
        }
        ones = behind;
        others = rest;
    }
}
