//! Whether a program captures a name of an expression that is put in for a name.

ghost use Rattle.std.specs.Prelude.{◌≡◌, ◌||◌, map, string_bytes};
ghost use Rattle.c_values.specs.Name.{is_among};
ghost use Rattle.expression_lang.specs.CodeExpression.{exp_of};
ghost use Rattle.expression_lang.specs.Mentions.{names};
ghost use Rattle.ac_expr.specs.Lasting.{is_unnamed};
ghost use Rattle.monad_lang.specs.Names.{is_free};
ghost use Rattle.monad_lang.specs.Run.{start_names};
ghost use Rattle.monad_lang.specs.CodeProgram.{start_of, mon_of};
ghost use Rattle.rule_parts.specs.Captures.{captures};

use expression_lang::Exp;
use monad_lang::{Mon, Start, is_among, is_free, is_in, is_started};

/// Whether an expression has none of the names.
pub fn is_unnamed(names: &[String], e: &Exp) -> bool
    ensures { result ≡ is_unnamed (map string_bytes names.now) (exp_of e.now) }
{
    let mut rest = names;
    'along: while let Some((name, others)) = rest.split_first() {
        if is_in(name, e) {
            return false;
        }
        rest = others;
    }
    true
}

// The same of the names of a loop.
fn is_start_unnamed(starts: &[Start], e: &Exp) -> bool
    ensures { result ≡ is_unnamed (start_names (map start_of starts.now)) (exp_of e.now) }
{
    let mut rest = starts;
    'along: while let Some((start, others)) = rest.split_first() {
        if is_in(start.name.as_str(), e) {
            return false;
        }
        rest = others;
    }
    true
}

// Whether the name is free in a loop, where the loop doesn't bind it and doesn't begin with it.
fn is_free_inside(name: &str, guard: &Exp, test: &Exp, body: &Mon) -> bool
    ensures { result ≡ (names name.now (exp_of guard.now) || names name.now (exp_of test.now)
        || is_free name.now (mon_of body.now)) }
{
    is_in(name, guard) || is_in(name, test) || is_free(name, body)
}

/// Whether a binder of a name of the expression stands above a free place of the name. It goes along
/// the last parts by a loop. Behind a binder of a name of the expression it asks once whether the
/// name is free: where it isn't, nothing is captured there.
#[tactic(auto, using(crate::proofs::Capturing::bind_captures, crate::proofs::Capturing::turn_captures))]
pub fn captures(e: &Exp, name: &str, m: &Mon) -> bool
    ensures { result ≡ captures (exp_of e.now) name.now (mon_of m.now) }
{
    let mut rest = m;
    'along: loop {
        match rest {
            Mon::Ret(_) | Mon::Guard(_) | Mon::Write(_, _) | Mon::Call(_, _) | Mon::Pick(_) => {
                return false;
            }
            Mon::Bind(first, names, last) => {
                if captures(e, name, first) {
                    return true;
                }
                if is_among(name, names) {
                    return false;
                }
                if !is_unnamed(names, e) {
                    return is_free(name, last);
                }
                rest = &**last;
            }
            Mon::If(_, first, last) => {
                if captures(e, name, first) {
                    return true;
                }
                rest = &**last;
            }
            Mon::Loop(starts, guard, test, last) => {
                if is_started(name, starts) {
                    return false;
                }
                if !is_start_unnamed(starts, e) {
                    return is_free_inside(name, guard, test, last);
                }
                rest = &**last;
            }
        }
    }
}
