//! Forms of programs: on bytes, on typed heaps, and on numbers.

ghost use Rattle.std.specs.Prelude.{◌≡◌, Bool, map};
ghost use Rattle.expression_lang.specs.CodeExpression.{exp_of};
ghost use Rattle.monad_lang.specs.Program as plain;
ghost use Rattle.monad_lang.specs.Form.{some_has, start_has, place_has, program_has, is_stored, is_written, no_place, is_bytes, is_heaps, is_numbers};
ghost use Rattle.monad_lang.specs.CodeProgram.{place_of, start_of, mon_of};

use crate::program::{Mon, Place, Start};
use expression_lang::{Exp, IsLoad, IsRead, IsWordArithmetic, Test};

/// A test of what is written.
pub trait PlaceTest {
    ghost holds: { Self → plain.Place → Bool };

    /// Whether a place passes.
    fn holds(&self, place: &Place) -> bool
        ensures { result ≡ holds self.now (place_of place.now) };
}

/// A place in bytes.
#[derive(Clone, Copy)]
pub struct IsStored;

impl PlaceTest for IsStored {
    ghost holds = { λ _ place. is_stored place };

    fn holds(&self, place: &Place) -> bool {
        matches!(place, Place::Stored(_, _, _))
    }
}

/// A place in a typed heap.
#[derive(Clone, Copy)]
pub struct IsWritten;

impl PlaceTest for IsWritten {
    ghost holds = { λ _ place. is_written place };

    fn holds(&self, place: &Place) -> bool {
        matches!(place, Place::Written(_, _, _))
    }
}

/// No place.
#[derive(Clone, Copy)]
pub struct NoPlace;

impl PlaceTest for NoPlace {
    ghost holds = { λ _ place. no_place place };

    fn holds(&self, _place: &Place) -> bool {
        false
    }
}

impl Mon {
    /// Whether some expression has a part that passes the one test, or some write's place passes
    /// the other. It goes along the last parts by a loop, since a text may have long sequences.
    pub fn any<T: Test, P: PlaceTest>(&self, test: &T, places: &P) -> bool
        ensures { result ≡ program_has (T.holds test.now) (P.holds places.now) (mon_of self.now) }
    {
        let mut rest = self;
        'along: loop {
            match rest {
                Mon::Ret(values) => return some_pass(test, values),
                Mon::Guard(condition) => return condition.any(test),
                Mon::Write(place, value) => return write_passes(test, places, place, value),
                Mon::Call(_, arguments) => return some_pass(test, arguments),
                Mon::Pick(_) => return false,
                Mon::Bind(first, _, last) => {
                    if first.any(test, places) {
                        return true;
                    }
                    rest = &**last;
                }
                Mon::If(condition, first, last) => {
                    if condition.any(test) || first.any(test, places) {
                        return true;
                    }
                    rest = &**last;
                }
                Mon::Loop(starts, guard, turn, last) => {
                    if starts_pass(test, starts) || guard.any(test) || turn.any(test) {
                        return true;
                    }
                    rest = &**last;
                }
            }
        }
    }

    /// Whether there is no read or write of typed heaps.
    pub fn is_bytes(&self) -> bool
        ensures { result ≡ is_bytes (mon_of self.now) }
    {
        !self.any(&IsRead, &IsWritten)
    }

    /// Whether there is no load or store.
    pub fn is_heaps(&self) -> bool
        ensures { result ≡ is_heaps (mon_of self.now) }
    {
        !self.any(&IsLoad, &IsStored)
    }

    /// Whether the program is on typed heaps, and has no sum, difference, product, quotient,
    /// remainder, negation or order test of words.
    pub fn is_numbers(&self) -> bool
        ensures { result ≡ is_numbers (mon_of self.now) }
    {
        self.is_heaps() && !self.any(&IsWordArithmetic, &NoPlace)
    }
}

fn some_pass<T: Test>(test: &T, exps: &[Exp]) -> bool
    ensures { result ≡ some_has (T.holds test.now) (map exp_of exps.now) }
{
    let mut rest = exps;
    'along: while let Some((first, others)) = rest.split_first() {
        if first.any(test) {
            return true;
        }
        rest = others;
    }
    false
}

fn starts_pass<T: Test>(test: &T, starts: &[Start]) -> bool
    ensures { result ≡ start_has (T.holds test.now) (map start_of starts.now) }
{
    let mut rest = starts;
    'along: while let Some((first, others)) = rest.split_first() {
        if first.exp.any(test) {
            return true;
        }
        rest = others;
    }
    false
}

fn write_passes<T: Test, P: PlaceTest>(test: &T, places: &P, place: &Place, value: &Exp) -> bool
    ensures { let write = plain.Write (place_of place.now) (exp_of value.now) in
        result ≡ program_has (T.holds test.now) (P.holds places.now) write }
{
    places.holds(place) || place_passes(test, place) || value.any(test)
}

fn place_passes<T: Test>(test: &T, place: &Place) -> bool
    ensures { result ≡ place_has (T.holds test.now) (place_of place.now) }
{
    match place {
        Place::Stored(_, pointer, path) | Place::Written(_, pointer, path) => {
            pointer.any(test) || path.any(test)
        }
        Place::Global(_, path) => path.any(test),
    }
}
