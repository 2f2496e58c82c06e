//! Whether two commands are the same.

ghost use Rattle.std.specs.Prelude.{◌≡◌, ◌↔◌, IsTrue, string_bytes};
ghost use Rattle.std.specs.Option.{option_map};
ghost use Rattle.simpl_lang.specs.declared.command.Simpl.{size-Simpl};
ghost use Rattle.simpl_lang.specs.CodeCommand.{simpl_of};
ghost use Rattle.simpl_lang.specs.CodeFront.{IsStep};
ghost use Rattle.simpl_lang.specs.CodeCompared.{Says, LastIsSmaller};

use crate::command::Simpl;
use crate::conditions::{same_condition, same_conditions};
use expression_lang::{equal_types, same_exps};

impl Simpl {
    /// Whether two commands are the same. It goes along the last parts by a loop, since a text may
    /// have long sequences.
    #[cycle(comparison)]
    pub fn same(&self, other: &Simpl) -> bool
        ensures { IsTrue result ↔ (simpl_of self.now ≡ simpl_of other.now) }
    {
        let mut left = self;
        let mut right = other;
        'along: loop {
            match look(left, right) {
                Compared::Differ => return false,
                Compared::Same => return true,
                Compared::AsLast(last, other_last) => {
                    left = last;
                    right = other_last;
                }
            }
        }
    }
}

// What is known of two commands once all but their last parts are compared.
enum Compared<'a> {
    Differ,
    Same,
    // Whether they are the same is whether these, their last parts, are.
    AsLast(&'a Simpl, &'a Simpl),
}

#[cycle(comparison)]
fn look<'a>(a: &'a Simpl, b: &'a Simpl) -> Compared<'a>
    ensures says { Says result (simpl_of a.now) (simpl_of b.now) }
    ensures smaller { LastIsSmaller result (size-Simpl a.now) }
{
    match a {
        Simpl::Skip
        | Simpl::Throw
        | Simpl::Set(_, _)
        | Simpl::SetGlobal(_, _, _)
        | Simpl::Store(_, _, _, _)
        | Simpl::Pick(_)
        | Simpl::Call(_, _, _) => {
            if same_step(a, b) {
                Compared::Same
            } else {
                Compared::Differ
            }
        }
        Simpl::Seq(c, last) => match b {
            Simpl::Seq(d, other) if c.same(d) => Compared::AsLast(&**last, &**other),
            _ => Compared::Differ,
        },
        Simpl::Catch(c, last) => match b {
            Simpl::Catch(d, other) if c.same(d) => Compared::AsLast(&**last, &**other),
            _ => Compared::Differ,
        },
        Simpl::Cond(e, c, last) => match b {
            Simpl::Cond(f, d, other) if e.same(f) && c.same(d) => {
                Compared::AsLast(&**last, &**other)
            }
            _ => Compared::Differ,
        },
        Simpl::Guard(condition, last) => match b {
            Simpl::Guard(other_condition, other) if same_condition(condition, other_condition) => {
                Compared::AsLast(&**last, &**other)
            }
            _ => Compared::Differ,
        },
        Simpl::While(conditions, e, last) => match b {
            Simpl::While(others, f, other) if same_conditions(conditions, others) && e.same(f) => {
                Compared::AsLast(&**last, &**other)
            }
            _ => Compared::Differ,
        },
    }
}

// Whether two commands are the same of which the first has no commands in it.
fn same_step(a: &Simpl, b: &Simpl) -> bool
    requires { IsStep (simpl_of a.now) }
    ensures { IsTrue result ↔ (simpl_of a.now ≡ simpl_of b.now) }
{
    match a {
        Simpl::Skip => matches!(b, Simpl::Skip),
        Simpl::Throw => matches!(b, Simpl::Throw),
        Simpl::Set(x, e) => match b {
            Simpl::Set(y, f) => x.as_str() == y.as_str() && e.same(f),
            _ => false,
        },
        Simpl::SetGlobal(x, path, e) => match b {
            Simpl::SetGlobal(y, other, f) => {
                x.as_str() == y.as_str() && path.same(other) && e.same(f)
            }
            _ => false,
        },
        Simpl::Store(t, p, path, e) => match b {
            Simpl::Store(u, q, other, f) => {
                equal_types(t, u) && p.same(q) && path.same(other) && e.same(f)
            }
            _ => false,
        },
        Simpl::Pick(x) => match b {
            Simpl::Pick(y) => x.as_str() == y.as_str(),
            _ => false,
        },
        Simpl::Call(target, x, es) => match b {
            Simpl::Call(other, y, fs) => {
                same_target(target, other) && x.as_str() == y.as_str() && same_exps(es, fs)
            }
            _ => false,
        },
        _ => unreachable!(),
    }
}

fn same_target(target: &Option<String>, other: &Option<String>) -> bool
    ensures { IsTrue result
        ↔ (option_map string_bytes target.now ≡ option_map string_bytes other.now) }
{
    match target {
        None => other.is_none(),
        Some(name) => match other {
            Some(other) => name.as_str() == other.as_str(),
            None => false,
        },
    }
}
