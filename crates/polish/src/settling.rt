//! Which step is made at a sequence of two tidy programs.

ghost use Rattle.std.specs.Prelude.{◌≡◌, ◌||◌, map, string_bytes};
ghost use Rattle.expression_lang.specs.CodeExpression.{exp_of};
ghost use Rattle.monad_lang.specs.CodeProgram.{mon_of};
ghost use Rattle.monad_lang.specs.Form.{are_vars, is_bind_ret, is_true_guard};
ghost use Rattle.polish.specs.CodeNext.{is_var, is_nothing, gives_names, otherwise, settling_of};
ghost use Rattle.polish.specs.CodeNextView.{settling_in};

use crate::putting::first_put;
use expression_lang::Exp;
use monad_lang::{Mon, all_kept};

/// A step at a sequence.
#[derive(Clone, Copy)]
pub(crate) enum Settling {
    /// None.
    Stays,
    /// It gives back what it binds, or binds nothing.
    Gives,
    /// The first part is a guard that holds.
    Skips,
    /// The first part is a sequence, all of whose names stay.
    Turns,
    /// The value at this position is put in.
    Puts(usize),
}

// Whether expressions are variables of these names.
fn are_vars(names: &[String], exps: &[Exp]) -> bool
    ensures { result ≡ are_vars (map string_bytes names.now) (map exp_of exps.now) }
{
    let mut left = names;
    let mut right = exps;
    'along: while let Some((name, others)) = left.split_first() {
        let Some((exp, rest)) = right.split_first() else {
            return false;
        };
        if !is_var(name, exp) {
            return false;
        }
        left = others;
        right = rest;
    }
    right.is_empty()
}

fn is_var(name: &str, e: &Exp) -> bool
    ensures { result ≡ is_var name.now (exp_of e.now) }
{
    match e {
        Exp::Var(own) => name == own.as_str(),
        _ => false,
    }
}

/// Whether nothing is given to nobody.
pub(crate) fn is_nothing(first: &Mon, names: &[String]) -> bool
    ensures { result ≡ is_nothing (mon_of first.now) (map string_bytes names.now) }
{
    match first {
        Mon::Ret(values) => values.is_empty() && names.is_empty(),
        _ => false,
    }
}

// Whether a program gives the values of the names.
fn gives_names(names: &[String], rest: &Mon) -> bool
    ensures { result ≡ gives_names (map string_bytes names.now) (mon_of rest.now) }
{
    match rest {
        Mon::Ret(values) => are_vars(names, values),
        _ => false,
    }
}

/// Whether a sequence gives back what it binds, or binds nothing.
#[tactic(auto, using(crate::proofs::Nexts::is_given))]
pub(crate) fn is_bind_ret(first: &Mon, names: &[String], rest: &Mon) -> bool
    ensures { result
        ≡ is_bind_ret (mon_of first.now) (map string_bytes names.now) (mon_of rest.now) }
{
    is_nothing(first, names) || gives_names(names, rest)
}

fn is_true_guard(first: &Mon, names: &[String]) -> bool
    ensures { result ≡ is_true_guard (mon_of first.now) (map string_bytes names.now) }
{
    match first {
        Mon::Guard(Exp::Truth(true)) => names.is_empty(),
        _ => false,
    }
}

fn otherwise(first: &Mon, names: &[String], rest: &Mon) -> Settling
    ensures { settling_in result
        ≡ otherwise (mon_of first.now) (map string_bytes names.now) (mon_of rest.now) }
{
    match first {
        Mon::Bind(_, own, _) => {
            if all_kept(own, names, rest) {
                Settling::Turns
            } else {
                Settling::Stays
            }
        }
        Mon::Ret(values) => match first_put(values, names, rest) {
            Some(position) => Settling::Puts(position),
            None => Settling::Stays,
        },
        _ => Settling::Stays,
    }
}

/// The step that is made.
pub(crate) fn settling_of(first: &Mon, names: &[String], rest: &Mon) -> Settling
    ensures { settling_in result
        ≡ settling_of (mon_of first.now) (map string_bytes names.now) (mon_of rest.now) }
{
    if is_nothing(first, names) || gives_names(names, rest) {
        Settling::Gives
    } else if is_true_guard(first, names) {
        Settling::Skips
    } else {
        otherwise(first, names, rest)
    }
}
