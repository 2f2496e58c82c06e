//! Whether an expression is another one with an expression in place of a name. Nothing is built.

ghost use Rattle.std.specs.Prelude.{◌≡◌, ◌↔◌, [], IsTrue};
ghost use Rattle.c_values.specs.Name.{Name};
ghost use Rattle.expression_lang.specs.Expression as plain;
ghost use Rattle.expression_lang.specs.CodeExpression.{exp_of};
ghost use Rattle.ac_expr.specs.Substituted.{substituted};
ghost use Rattle.ac_expr.specs.CodeHeads.{children_in};
ghost use Rattle.program_facts.specs.Substituted.{each_substituted};
ghost use Rattle.rule_eq.specs.CodePutting.{Says, LastIsAmong};
ghost use Rattle.rule_eq.specs.CodeTaken.{is_it};

use ac_expr::{Children, children_of, same_head};
use expression_lang::Exp;

/// What is known of expressions one after the other, once all but their last are compared.
#[derive(Clone, Copy)]
pub(crate) enum Putting<'a> {
    Differ,
    Same,
    /// They are as they are to be where the second is the first with the expression put in.
    AsLast(&'a Exp, &'a Exp),
}

// Whether an expression is the name.
fn is_it(name: &str, e: &Exp) -> bool
    ensures { result ≡ is_it name.now (exp_of e.now) }
{
    match e {
        Exp::Var(other) => name == other.as_str(),
        _ => false,
    }
}

/// Whether the second of two expressions is the first with the value in place of the name. It goes
/// along the last parts by a loop, since a text may have long chains.
#[cycle(putting)]
pub(crate) fn is_put(name: &str, value: &Exp, e: &Exp, right: &Exp) -> bool
    ensures { IsTrue result
        ↔ (exp_of right.now ≡ substituted name.now (exp_of value.now) (exp_of e.now)) }
{
    let mut left = e;
    let mut right = right;
    'down: loop {
        if is_it(name, left) {
            return right.same(value);
        }
        if !same_head(left, right) {
            return false;
        }
        match look(name, value, children_of(left), children_of(right)) {
            Putting::Differ => return false,
            Putting::Same => return true,
            Putting::AsLast(last, other) => {
                left = last;
                right = other;
            }
        }
    }
}

// The same of expressions one after the other, but for the last of them.
#[cycle(putting)]
fn look<'a>(name: &str, value: &Exp, left: Children<'a>, right: Children<'a>) -> Putting<'a>
    ensures says { Says name.now (exp_of value.now) result
        (children_in left.entry) (children_in right.entry) }
    ensures among { LastIsAmong result (children_in left.entry) }
{
    let mut ones = left;
    let mut others = right;
    'along: loop {
        let Some((a, behind)) = ones.next() else {
            return at_end(others);
        };
        let Some((b, rest)) = others.next() else {
            return Putting::Differ;
        };
        if behind.next().is_none() {
            return if rest.next().is_none() {
                Putting::AsLast(a, b)
            } else {
                Putting::Differ
            };
        }
        if !is_put(name, value, a, b) {
            return Putting::Differ;
        }
        ones = behind;
        others = rest;
    }
}

// The same where the first ones are at their end.
fn at_end<'a>(others: Children<'_>) -> Putting<'a>
    ensures says { (x : Name) (e : plain.Exp) → Says x e result [] (children_in others.entry) }
    ensures among { LastIsAmong result [] }
{
    if others.next().is_none() {
        Putting::Same
    } else {
        Putting::Differ
    }
}

/// Whether the second of two rows of expressions is the first with the value in place of the name.
pub(crate) fn are_put(name: &str, value: &Exp, left: Children<'_>, right: Children<'_>) -> bool
    ensures { IsTrue result ↔ (children_in right.entry
        ≡ each_substituted name.now (exp_of value.now) (children_in left.entry)) }
{
    match look(name, value, left, right) {
        Putting::Differ => false,
        Putting::Same => true,
        Putting::AsLast(last, other) => is_put(name, value, last, other),
    }
}
