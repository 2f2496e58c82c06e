//! Whether two expressions are the same, and two paths.

ghost use Rattle.std.specs.Prelude.{◌≡◌, ◌↔◌, IsTrue};
ghost use Rattle.c_values.specs.CodeTypes.{type_of};
ghost use Rattle.expression_lang.specs.declared.expression.Exp.{size-Exp};
ghost use Rattle.expression_lang.specs.CodeExpression.{exp_of, path_of};
ghost use Rattle.expression_lang.specs.CodeShapeView.{leaf_in, one_in, two_in, root_in, place_in};
ghost use Rattle.expression_lang.specs.CodeCompared.{Says, LastIsSmaller};

use crate::expression::Exp;
use crate::paths::Path;
use crate::shape::{Leaf, One, PlaceHead, RootTest, Shape, Two, shape_of};
use c_values::{CType, Number, Word, same_number, same_truth};

impl Exp {
    /// Whether two expressions are the same. It goes along the last parts by a loop, since a text
    /// may have long chains.
    #[cycle(comparison)]
    pub fn same(&self, other: &Exp) -> bool
        ensures { IsTrue result ↔ (exp_of self.now ≡ exp_of other.now) }
    {
        let mut left = self;
        let mut right = other;
        'along: loop {
            match look(left, right) {
                Compared::Differ => return false,
                Compared::Same => return true,
                Compared::AsLast(last, other_last) => {
                    left = last;
                    right = other_last;
                }
            }
        }
    }
}

// What is known of two expressions once all but their last parts are compared.
enum Compared<'a> {
    Differ,
    Same,
    // Whether they are the same is whether these, their last parts, are.
    AsLast(&'a Exp, &'a Exp),
}

// The frequent forms are told here, without a shape of either: facts are looked for by this.
#[cycle(comparison)]
fn look<'a>(a: &'a Exp, b: &'a Exp) -> Compared<'a>
    ensures says { Says result (exp_of a.now) (exp_of b.now) }
    ensures smaller { LastIsSmaller result (size-Exp a.now) }
{
    match a {
        Exp::Var(x) => match b {
            Exp::Var(y) if x == y => Compared::Same,
            _ => Compared::Differ,
        },
        Exp::Word(x) => match b {
            Exp::Word(y) if equal_words(*x, *y) => Compared::Same,
            _ => Compared::Differ,
        },
        Exp::Number(x) => match b {
            Exp::Number(y) if equal_numbers(*x, *y) => Compared::Same,
            _ => Compared::Differ,
        },
        Exp::Arith(f, x, last) => match b {
            Exp::Arith(g, y, other) if f == g && x.same(y) => Compared::AsLast(last, other),
            _ => Compared::Differ,
        },
        Exp::WordBinary(f, x, last) => match b {
            Exp::WordBinary(g, y, other) if f == g && x.same(y) => Compared::AsLast(last, other),
            _ => Compared::Differ,
        },
        Exp::Le(x, last) => match b {
            Exp::Le(y, other) if x.same(y) => Compared::AsLast(last, other),
            _ => Compared::Differ,
        },
        Exp::And(x, last) => match b {
            Exp::And(y, other) if x.same(y) => Compared::AsLast(last, other),
            _ => Compared::Differ,
        },
        _ => look_by_shape(a, b),
    }
}

// The same, of all forms.
#[cycle(comparison)]
#[tactic(auto, using(crate::proofs::ShapeLaws::whole_shape))]
fn look_by_shape<'a>(a: &'a Exp, b: &'a Exp) -> Compared<'a>
    ensures says { Says result (exp_of a.now) (exp_of b.now) }
    ensures smaller { LastIsSmaller result (size-Exp a.now) }
{
    match shape_of(a) {
        Shape::Leaf(f) => match shape_of(b) {
            Shape::Leaf(g) if same_leaf(f, g) => Compared::Same,
            _ => Compared::Differ,
        },
        Shape::One(f, last) => match shape_of(b) {
            Shape::One(g, other) if same_one(f, g) => Compared::AsLast(last, other),
            _ => Compared::Differ,
        },
        Shape::Two(f, x, last) => match shape_of(b) {
            Shape::Two(g, y, other) if same_two(f, g) && x.same(y) => Compared::AsLast(last, other),
            _ => Compared::Differ,
        },
        Shape::Between(low, last, high) => match shape_of(b) {
            Shape::Between(least, other, most)
                if equal_numbers(low, least) && equal_numbers(high, most) => {
                Compared::AsLast(last, other)
            }
            _ => Compared::Differ,
        },
        Shape::If(c, x, last) => match shape_of(b) {
            Shape::If(d, y, other) if c.same(d) && x.same(y) => Compared::AsLast(last, other),
            _ => Compared::Differ,
        },
        Shape::Padd(t, x, last) => match shape_of(b) {
            Shape::Padd(u, y, other) if equal_types(t, u) && x.same(y) => Compared::AsLast(
                last, other,
            ),
            _ => Compared::Differ,
        },
        Shape::Root(f, t, last) => match shape_of(b) {
            Shape::Root(g, u, other) if same_root(f, g) && equal_types(t, u) => {
                Compared::AsLast(last, other)
            }
            _ => Compared::Differ,
        },
        Shape::Place(f, t, last, p) => match shape_of(b) {
            Shape::Place(g, u, other, q) if same_place(f, g) && equal_types(t, u) && p.same(q) => {
                Compared::AsLast(last, other)
            }
            _ => Compared::Differ,
        },
        Shape::Global(x, p) => match shape_of(b) {
            Shape::Global(y, q) if x == y && p.same(q) => Compared::Same,
            _ => Compared::Differ,
        },
        Shape::Sel(last, p) => match shape_of(b) {
            Shape::Sel(other, q) if p.same(q) => Compared::AsLast(last, other),
            _ => Compared::Differ,
        },
        Shape::Upd(x, p, last) => match shape_of(b) {
            Shape::Upd(y, q, other) if x.same(y) && p.same(q) => Compared::AsLast(last, other),
            _ => Compared::Differ,
        },
    }
}

impl Path {
    /// Whether two paths are the same. It goes along them by a loop, since a text may have long
    /// ones.
    #[cycle(comparison)]
    pub fn same(&self, other: &Path) -> bool
        ensures { IsTrue result ↔ (path_of self.now ≡ path_of other.now) }
    {
        let mut left = self;
        let mut right = other;
        'along: loop {
            match left {
                Path::Here => return matches!(right, Path::Here),
                Path::Field(k, rest) => match right {
                    Path::Field(other_k, other_rest) if *k == *other_k => {
                        left = &**rest;
                        right = &**other_rest;
                    }
                    _ => return false,
                },
                Path::Index(e, rest) => match right {
                    Path::Index(other_e, other_rest) if e.same(other_e) => {
                        left = &**rest;
                        right = &**other_rest;
                    }
                    _ => return false,
                },
            }
        }
    }
}

fn same_leaf(f: Leaf<'_>, g: Leaf<'_>) -> bool
    ensures { IsTrue result ↔ (leaf_in f.entry ≡ leaf_in g.entry) }
{
    match f {
        Leaf::Var(x) => match g {
            Leaf::Var(y) => x == y,
            _ => false,
        },
        Leaf::Word(x) => match g {
            Leaf::Word(y) => equal_words(x, y),
            _ => false,
        },
        Leaf::Number(x) => match g {
            Leaf::Number(y) => equal_numbers(x, y),
            _ => false,
        },
        Leaf::Truth(x) => match g {
            Leaf::Truth(y) => equal_truths(x, y),
            _ => false,
        },
    }
}

fn same_one(f: One, g: One) -> bool
    ensures { IsTrue result ↔ (one_in f ≡ one_in g) }
{
    f == g
}

fn same_two(f: Two, g: Two) -> bool
    ensures { IsTrue result ↔ (two_in f ≡ two_in g) }
{
    f == g
}

fn same_root(f: RootTest, g: RootTest) -> bool
    ensures { IsTrue result ↔ (root_in f ≡ root_in g) }
{
    f == g
}

fn same_place(f: PlaceHead, g: PlaceHead) -> bool
    ensures { IsTrue result ↔ (place_in f ≡ place_in g) }
{
    f == g
}

fn equal_words(v: Word, w: Word) -> bool
    ensures { IsTrue result ↔ (v ≡ w) }
{
    v.width() == w.width() && v.bits() == w.bits()
}

#[tactic(auto, using(crate::proofs::Decided::number_is, crate::proofs::Decided::is_number))]
fn equal_numbers(m: Number, n: Number) -> bool
    ensures { IsTrue result ↔ (m ≡ n) }
{
    same_number(m, n)
}

#[tactic(auto, using(crate::proofs::Decided::truth_is, crate::proofs::Decided::is_truth))]
fn equal_truths(a: bool, b: bool) -> bool
    ensures { IsTrue result ↔ (a ≡ b) }
{
    same_truth(a, b)
}

/// Whether two types are the same.
#[tactic(auto, using(crate::proofs::Decided::type_is, crate::proofs::Decided::is_type))]
pub fn equal_types(t: &CType, u: &CType) -> bool
    ensures { IsTrue result ↔ (type_of t.now ≡ type_of u.now) }
{
    t == u
}
