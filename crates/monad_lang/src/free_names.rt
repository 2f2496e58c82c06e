//! Names, and which are free in programs.

ghost use Rattle.std.specs.Prelude.{◌≡◌, ◌||◌, map, string_bytes};
ghost use Rattle.c_values.specs.Name.{is_among};
ghost use Rattle.expression_lang.specs.CodeExpression.{exp_of};
ghost use Rattle.expression_lang.specs.Mentions.{names};
ghost use Rattle.monad_lang.specs.CodeProgram.{place_of, start_of, mon_of};
ghost use Rattle.monad_lang.specs.Run.{start_names};
ghost use Rattle.monad_lang.specs.Form.{all_kept};
ghost use Rattle.monad_lang.specs.Names.{is_in_some, is_in_start, is_in_place, is_free};

use crate::program::{Mon, Place, Start};
use expression_lang::{Exp, IsName};

/// A test of names.
pub trait NameTest {
    ghost use Rattle.std.specs.Prelude.{Bool};
    ghost use Rattle.c_values.specs.Name.{Name};

    ghost holds: { Self → Name → Bool };

    /// Whether a name passes.
    fn holds(&self, name: &str) -> bool
        ensures { result ≡ holds self.now name.now };
}

/// Whether one of the names is this one.
pub fn is_among(name: &str, names: &[String]) -> bool
    ensures { result ≡ is_among name.now (map string_bytes names.now) }
{
    'names: for other in names {
        if name == other.as_str() {
            return true;
        }
    }
    false
}

/// Whether one of the starts has the name.
pub fn is_started(name: &str, starts: &[Start]) -> bool
    ensures { result ≡ is_among name.now (start_names (map start_of starts.now)) }
{
    'starts: for start in starts {
        if name == start.name.as_str() {
            return true;
        }
    }
    false
}

/// Whether an expression has the name.
pub fn is_in(name: &str, e: &Exp) -> bool
    ensures { result ≡ names name.now (exp_of e.now) }
{
    e.any(&IsName { name })
}

// Whether one of two expressions has the name.
fn is_in_either(name: &str, e: &Exp, other: &Exp) -> bool
    ensures { result ≡ (names name.now (exp_of e.now) || names name.now (exp_of other.now)) }
{
    is_in(name, e) || is_in(name, other)
}

/// Whether one of the expressions has the name.
pub fn is_in_some(name: &str, exps: &[Exp]) -> bool
    ensures { result ≡ is_in_some name.now (map exp_of exps.now) }
{
    let mut rest = exps;
    'along: while let Some((first, others)) = rest.split_first() {
        if is_in(name, first) {
            return true;
        }
        rest = others;
    }
    false
}

/// Whether an expression that a name starts with has the name.
pub fn is_in_start(name: &str, starts: &[Start]) -> bool
    ensures { result ≡ is_in_start name.now (map start_of starts.now) }
{
    let mut rest = starts;
    'along: while let Some((first, others)) = rest.split_first() {
        if is_in(name, &first.exp) {
            return true;
        }
        rest = others;
    }
    false
}

fn is_in_place(name: &str, place: &Place) -> bool
    ensures { result ≡ is_in_place name.now (place_of place.now) }
{
    match place {
        Place::Stored(_, pointer, path) | Place::Written(_, pointer, path) => {
            is_in(name, pointer) || path.any(&IsName { name })
        }
        Place::Global(_, path) => path.any(&IsName { name }),
    }
}

/// Whether the name is free in a program. It goes along the last parts by a loop, since a text may
/// have long sequences.
pub fn is_free(name: &str, m: &Mon) -> bool
    ensures { result ≡ is_free name.now (mon_of m.now) }
{
    let mut rest = m;
    'along: loop {
        match rest {
            Mon::Ret(values) => return is_in_some(name, values),
            Mon::Guard(condition) => return is_in(name, condition),
            Mon::Write(place, value) => return is_in_place(name, place) || is_in(name, value),
            Mon::Call(_, arguments) => return is_in_some(name, arguments),
            Mon::Pick(_) => return false,
            Mon::Bind(first, names, last) => {
                if is_free(name, first) {
                    return true;
                }
                if is_among(name, names) {
                    return false;
                }
                rest = &**last;
            }
            Mon::If(condition, first, last) => {
                if is_in(name, condition) || is_free(name, first) {
                    return true;
                }
                rest = &**last;
            }
            Mon::Loop(starts, guard, turn, last) => {
                if is_in_start(name, starts) {
                    return true;
                }
                if is_started(name, starts) {
                    return false;
                }
                if is_in_either(name, guard, turn) {
                    return true;
                }
                rest = &**last;
            }
        }
    }
}

/// Whether what is free of the names in the program is among the others.
pub fn all_kept(names: &[String], others: &[String], m: &Mon) -> bool
    ensures { result
        ≡ all_kept (map string_bytes names.now) (map string_bytes others.now) (mon_of m.now) }
{
    let mut rest = names;
    'along: while let Some((name, behind)) = rest.split_first() {
        if is_free(name, m) && !is_among(name, others) {
            return false;
        }
        rest = behind;
    }
    true
}
