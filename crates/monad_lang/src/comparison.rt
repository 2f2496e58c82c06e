//! Whether two programs are the same.

ghost use Rattle.std.specs.Prelude.{◌≡◌, ◌↔◌, IsTrue};
ghost use Rattle.expression_lang.specs.CodeExpression.{kind_of};
ghost use Rattle.monad_lang.specs.declared.program.Mon.{size-Mon};
ghost use Rattle.monad_lang.specs.CodeProgram.{place_of, mon_of};
ghost use Rattle.monad_lang.specs.CodeFront.{IsStep};
ghost use Rattle.monad_lang.specs.CodeCompared.{Says, LastIsSmaller};

use crate::program::{Mon, Place};
use crate::starts::same_starts;
use expression_lang::{Kind, equal_types, same_exps, same_names};

impl Mon {
    /// Whether two programs are the same. It goes along the last parts by a loop, since a text may
    /// have long sequences.
    #[cycle(comparison)]
    pub fn same(&self, other: &Mon) -> bool
        ensures { IsTrue result ↔ (mon_of self.now ≡ mon_of other.now) }
    {
        let mut left = self;
        let mut right = other;
        'along: loop {
            match look(left, right) {
                Compared::Differ => return false,
                Compared::Same => return true,
                Compared::AsLast(last, other_last) => {
                    left = last;
                    right = other_last;
                }
            }
        }
    }
}

// What is known of two programs once all but their last parts are compared.
enum Compared<'a> {
    Differ,
    Same,
    // Whether they are the same is whether these, their last parts, are.
    AsLast(&'a Mon, &'a Mon),
}

#[cycle(comparison)]
fn look<'a>(a: &'a Mon, b: &'a Mon) -> Compared<'a>
    ensures says { Says result (mon_of a.now) (mon_of b.now) }
    ensures smaller { LastIsSmaller result (size-Mon a.now) }
{
    match a {
        Mon::Ret(_) | Mon::Guard(_) | Mon::Write(_, _) | Mon::Call(_, _) | Mon::Pick(_) => {
            if same_step(a, b) {
                Compared::Same
            } else {
                Compared::Differ
            }
        }
        Mon::Bind(m, xs, last) => match b {
            Mon::Bind(n, ys, other) if m.same(n) && same_names(xs, ys) => {
                Compared::AsLast(&**last, &**other)
            }
            _ => Compared::Differ,
        },
        Mon::If(e, m, last) => match b {
            Mon::If(f, n, other) if e.same(f) && m.same(n) => {
                Compared::AsLast(&**last, &**other)
            }
            _ => Compared::Differ,
        },
        Mon::Loop(starts, guard, test, last) => match b {
            Mon::Loop(others, other_guard, other_test, other)
                if same_starts(starts, others)
                    && guard.same(other_guard)
                    && test.same(other_test) => { Compared::AsLast(&**last, &**other) }
            _ => Compared::Differ,
        },
    }
}

// Whether two programs are the same of which the first has no programs in it.
fn same_step(a: &Mon, b: &Mon) -> bool
    requires { IsStep (mon_of a.now) }
    ensures { IsTrue result ↔ (mon_of a.now ≡ mon_of b.now) }
{
    match a {
        Mon::Ret(es) => match b {
            Mon::Ret(fs) => same_exps(es, fs),
            _ => false,
        },
        Mon::Guard(e) => match b {
            Mon::Guard(f) => e.same(f),
            _ => false,
        },
        Mon::Write(place, e) => match b {
            Mon::Write(other, f) => same_place(place, other) && e.same(f),
            _ => false,
        },
        Mon::Call(x, es) => match b {
            Mon::Call(y, fs) => x.as_str() == y.as_str() && same_exps(es, fs),
            _ => false,
        },
        Mon::Pick(k) => match b {
            Mon::Pick(j) => same_kind(*k, *j),
            _ => false,
        },
        _ => unreachable!(),
    }
}

fn same_place(place: &Place, other: &Place) -> bool
    ensures { IsTrue result ↔ (place_of place.now ≡ place_of other.now) }
{
    match place {
        Place::Stored(t, p, path) => match other {
            Place::Stored(u, q, other_path) => equal_types(t, u)
                && p.same(q)
                && path.same(other_path),
            _ => false,
        },
        Place::Written(t, p, path) => match other {
            Place::Written(u, q, other_path) => equal_types(t, u)
                && p.same(q)
                && path.same(other_path),
            _ => false,
        },
        Place::Global(x, path) => match other {
            Place::Global(y, other_path) => x.as_str() == y.as_str() && path.same(other_path),
            _ => false,
        },
    }
}

fn same_kind(k: Kind, j: Kind) -> bool
    ensures { IsTrue result ↔ (kind_of k ≡ kind_of j) }
{
    k == j
}
