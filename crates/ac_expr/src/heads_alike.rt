//! Heads of expressions that are compared, and children of expressions one after the other.

ghost use Rattle.std.specs.Prelude.{◌≡◌, ◌↔◌, [], ◌∷◌, IsTrue, IfSome, IfNone};
ghost use Rattle.expression_lang.specs.CodeExpression.{exp_of, path_of};
ghost use Rattle.expression_lang.specs.CodeShapeView.{leaf_in, one_in, two_in, root_in, place_in};
ghost use Rattle.ac_expr.specs.Heads.{children, head, path_children, path_head};
ghost use Rattle.ac_expr.specs.CodeHeads.{children_in};

use c_values::{Number, same_number, same_truth};
use expression_lang::{
    Exp, Leaf, One, Path, PlaceHead, RootTest, Shape, Two, equal_types, shape_of,
};

/// Whether two expressions have the same head.
#[tactic(auto, using(crate::proofs::HeadShapes::heads_same, crate::proofs::HeadShapes::shapes_same))]
pub fn same_head(a: &Exp, b: &Exp) -> bool
    ensures { IsTrue result ↔ (head (exp_of b.now) ≡ head (exp_of a.now)) }
{
    match shape_of(a) {
        Shape::Leaf(f) => match shape_of(b) {
            Shape::Leaf(g) => same_leaf(f, g),
            _ => false,
        },
        Shape::One(f, _) => match shape_of(b) {
            Shape::One(g, _) => same_one(f, g),
            _ => false,
        },
        Shape::Two(f, _, _) => match shape_of(b) {
            Shape::Two(g, _, _) => same_two(f, g),
            _ => false,
        },
        Shape::Between(low, _, high) => match shape_of(b) {
            Shape::Between(least, _, most) => same_ends(low, high, least, most),
            _ => false,
        },
        Shape::If(_, _, _) => matches!(shape_of(b), Shape::If(_, _, _)),
        Shape::Padd(t, _, _) => match shape_of(b) {
            Shape::Padd(u, _, _) => equal_types(u, t),
            _ => false,
        },
        Shape::Root(f, t, _) => match shape_of(b) {
            Shape::Root(g, u, _) => same_root(f, g) && equal_types(u, t),
            _ => false,
        },
        Shape::Place(f, t, _, p) => match shape_of(b) {
            Shape::Place(g, u, _, q) => same_place(f, g) && equal_types(u, t) && same_steps(p, q),
            _ => false,
        },
        Shape::Global(x, p) => match shape_of(b) {
            Shape::Global(y, q) => x == y && same_steps(p, q),
            _ => false,
        },
        Shape::Sel(_, p) => match shape_of(b) {
            Shape::Sel(_, q) => same_steps(p, q),
            _ => false,
        },
        Shape::Upd(_, p, _) => match shape_of(b) {
            Shape::Upd(_, q, _) => same_steps(p, q),
            _ => false,
        },
    }
}

fn same_one(f: One, g: One) -> bool
    ensures { IsTrue result ↔ (one_in g ≡ one_in f) }
{
    f == g
}

fn same_two(f: Two, g: Two) -> bool
    ensures { IsTrue result ↔ (two_in g ≡ two_in f) }
{
    f == g
}

fn same_root(f: RootTest, g: RootTest) -> bool
    ensures { IsTrue result ↔ (root_in g ≡ root_in f) }
{
    f == g
}

fn same_place(f: PlaceHead, g: PlaceHead) -> bool
    ensures { IsTrue result ↔ (place_in g ≡ place_in f) }
{
    f == g
}

fn same_ends(low: Number, high: Number, least: Number, most: Number) -> bool
    ensures { IsTrue result ↔ ((least ≡ low) × (most ≡ high)) }
{
    same_number(low, least) && same_number(high, most)
}

fn same_leaf(f: Leaf<'_>, g: Leaf<'_>) -> bool
    ensures { IsTrue result ↔ (leaf_in g.entry ≡ leaf_in f.entry) }
{
    match f {
        Leaf::Var(x) => match g {
            Leaf::Var(y) => x == y,
            _ => false,
        },
        Leaf::Word(x) => match g {
            Leaf::Word(y) => x.width() == y.width() && x.bits() == y.bits(),
            _ => false,
        },
        Leaf::Number(x) => match g {
            Leaf::Number(y) => same_number(x, y),
            _ => false,
        },
        Leaf::Truth(x) => match g {
            Leaf::Truth(y) => same_truth(x, y),
            _ => false,
        },
    }
}

/// Whether two paths are the same but for their indexes.
pub fn same_steps(p: &Path, q: &Path) -> bool
    ensures { IsTrue result ↔ (path_head (path_of q.now) ≡ path_head (path_of p.now)) }
{
    let mut left = p;
    let mut right = q;
    'along: loop {
        match left {
            Path::Here => return matches!(right, Path::Here),
            Path::Field(k, rest) => match right {
                Path::Field(other_k, other_rest) if *k == *other_k => {
                    left = &**rest;
                    right = &**other_rest;
                }
                _ => return false,
            },
            Path::Index(_, rest) => match right {
                Path::Index(_, other_rest) => {
                    left = &**rest;
                    right = &**other_rest;
                }
                _ => return false,
            },
        }
    }
}

/// Expressions one after the other, as the children of an expression are: the indexes of a path are
/// among them.
#[derive(Clone, Copy)]
pub enum Children<'a> {
    None,
    One(&'a Exp),
    Two(&'a Exp, &'a Exp),
    Three(&'a Exp, &'a Exp, &'a Exp),
    Listed(&'a [Exp]),
    Indexes(&'a Path),
    AndIndexes(&'a Exp, &'a Path),
    IndexesAnd(&'a Path, &'a Exp),
    Between(&'a Exp, &'a Path, &'a Exp),
}

/// The children of an expression.
#[tactic(auto, using(crate::proofs::HeadShapes::children_by_shape))]
pub fn children_of(e: &Exp) -> Children<'_>
    ensures { children_in result ≡ children (exp_of e.now) }
{
    match shape_of(e) {
        Shape::Leaf(_) => Children::None,
        Shape::One(_, a) => Children::One(a),
        Shape::Two(_, a, b) => Children::Two(a, b),
        Shape::Between(_, a, _) => Children::One(a),
        Shape::If(c, a, b) => Children::Three(c, a, b),
        Shape::Padd(_, p, n) => Children::Two(p, n),
        Shape::Root(_, _, p) => Children::One(p),
        Shape::Place(_, _, p, path) => Children::AndIndexes(p, path),
        Shape::Global(_, path) => Children::Indexes(path),
        Shape::Sel(whole, path) => Children::AndIndexes(whole, path),
        Shape::Upd(whole, path, part) => Children::Between(whole, path, part),
    }
}

impl<'a> Children<'a> {
    /// The first, and those behind it.
    pub fn next(self) -> Option<(&'a Exp, Children<'a>)>
        ensures some { IfSome result (λ (first, rest). children_in self.entry
            ≡ exp_of first.now ∷ children_in rest) }
        ensures none { IfNone result (children_in self.entry ≡ []) }
    {
        match self {
            Children::None => None,
            Children::One(a) => Some((a, Children::None)),
            Children::Two(a, b) => Some((a, Children::One(b))),
            Children::Three(a, b, c) => Some((a, Children::Two(b, c))),
            Children::Listed(exps) => match exps.split_first() {
                Some((first, rest)) => Some((first, Children::Listed(rest))),
                None => None,
            },
            Children::Indexes(path) => match first_index(path) {
                Some((first, rest)) => Some((first, Children::Indexes(rest))),
                None => None,
            },
            Children::AndIndexes(a, path) => Some((a, Children::Indexes(path))),
            Children::IndexesAnd(path, a) => match first_index(path) {
                Some((first, rest)) => Some((first, Children::IndexesAnd(rest, a))),
                None => Some((a, Children::None)),
            },
            Children::Between(a, path, b) => Some((a, Children::IndexesAnd(path, b))),
        }
    }
}

// The first index of a path, and the path behind it.
fn first_index(path: &Path) -> Option<(&Exp, &Path)>
    ensures some { IfSome result (λ (index, rest).
        path_children (path_of path.now) ≡ exp_of index.now ∷ path_children (path_of rest.now)) }
    ensures none { IfNone result (path_children (path_of path.now) ≡ []) }
{
    let mut rest = path;
    'steps: loop {
        match rest {
            Path::Here => return None,
            Path::Field(_, next) => rest = &**next,
            Path::Index(index, next) => return Some((index, &**next)),
        }
    }
}
