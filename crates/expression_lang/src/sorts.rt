//! Which expressions are well-sorted.

ghost use Rattle.std.specs.Prelude.{◌≡◌};
ghost use Rattle.std.specs.Option.{option_map};
ghost use Rattle.c_values.specs.Layout.{shape_of};
ghost use Rattle.c_values.specs.CodeTypes.{type_of};
ghost use Rattle.expression_lang.specs.Sort.{sort_of, shape_along, is_one_step, is_truth};
ghost use Rattle.expression_lang.specs.CodeExpression.{exp_of, path_of};
ghost use Rattle.expression_lang.specs.declared.arity.Arity.TheVariants.{Leaf, Choice, Place, Part, Update};
ghost use Rattle.expression_lang.specs.CodeArity.{arity_of};
ghost use Rattle.expression_lang.specs.CodeSort.{sort_value, scope_by};
ghost use Rattle.expression_lang.specs.CodeSortRules.{leaf_sort};

use crate::arity::{Arity, arity_in};
use crate::expression::Exp;
use crate::names::Scope;
use crate::operands::{first, second};
use crate::parts::{element, global, member};
use crate::paths::Path;
use crate::sort::{Scalar, Sort};
use crate::sort_rules::{
    address_sort, binary_sort, choice_sort, connective_sort, is_number, is_root, is_truth, literal,
    number, part_sort, parts_in, truth, unary_sort, where_same,
};
use c_values::{CType, GlobalVar, Layout, is_object};

/// The sort of an expression. There is none exactly where it isn't well-sorted. Its types may be
/// any types. At each level of the expression it takes up to 440 bytes of the stack.
#[cycle(sorts)]
#[tactic(auto, using(crate::proofs::OperandSorts::leaf_sorted, crate::proofs::OperandSorts::unary_sorted, crate::proofs::OperandSorts::binary_sorted, crate::proofs::OperandSorts::connective_sorted))]
pub fn sort_of<'a, N: Scope>(
    e: &'a Exp,
    names: &N,
    l: &'a Layout,
    globals: &'a [GlobalVar],
) -> Option<Sort<'a>>
    ensures { option_map sort_value result
        ≡ sort_of (scope_by l.now (N.scalars names.now) globals.now)
        (exp_of e.now) }
{
    match arity_in(e) {
        Arity::Leaf => leaf_sort(e, names),
        Arity::Unary => unary_sort(e, sort_of(first(e), names, l, globals), l),
        Arity::Binary => binary_sort(
            e,
            sort_of(first(e), names, l, globals),
            sort_of(second(e), names, l, globals),
            l,
        ),
        Arity::Connective => connective_sort(
            is_truth(sort_of(first(e), names, l, globals)),
            is_truth_value(second(e), names, l, globals),
        ),
        Arity::Choice => choice_sort_of(e, names, l, globals),
        Arity::Place => place_sort(e, names, l, globals),
        Arity::Part => global_sort(e, names, l, globals),
        Arity::Update => update_sort(e, names, l, globals),
    }
}

// The sort of a name or a constant.
#[inline(never)]
fn leaf_sort<'a, N: Scope>(e: &Exp, names: &N) -> Option<Sort<'a>>
    requires { arity_of (exp_of e.now) ≡ Leaf }
    ensures { option_map sort_value result ≡ leaf_sort (N.scalars names.now) (exp_of e.now) }
{
    match e {
        Exp::Var(x) => match names.scalar(x.as_str()) {
            Some(scalar) => Some(Sort::Of(scalar)),
            None => None,
        },
        Exp::Word(w) => literal(*w),
        Exp::Number(_) => number(true),
        Exp::Truth(_) => truth(true),
        _ => unreachable!(),
    }
}

#[cycle(sorts)]
#[inline(never)]
fn choice_sort_of<'a, N: Scope>(
    e: &'a Exp,
    names: &N,
    l: &'a Layout,
    globals: &'a [GlobalVar],
) -> Option<Sort<'a>>
    requires { arity_of (exp_of e.now) ≡ Choice }
    ensures { option_map sort_value result
        ≡ sort_of (scope_by l.now (N.scalars names.now) globals.now)
        (exp_of e.now) }
{
    match e {
        Exp::If(c, a, b) => choice_sort(
            sort_of(c, names, l, globals),
            sort_of(a, names, l, globals),
            sort_of(b, names, l, globals),
        ),
        _ => unreachable!(),
    }
}

// The sort of what is at a place, or of its address.
#[cycle(sorts)]
#[inline(never)]
fn place_sort<'a, N: Scope>(
    e: &'a Exp,
    names: &N,
    l: &'a Layout,
    globals: &'a [GlobalVar],
) -> Option<Sort<'a>>
    requires { arity_of (exp_of e.now) ≡ Place }
    ensures { option_map sort_value result
        ≡ sort_of (scope_by l.now (N.scalars names.now) globals.now)
        (exp_of e.now) }
{
    let root = sort_of(first(e), names, l, globals);
    match e {
        Exp::At(t, _, path) => {
            address_sort(is_root(l, t, root), along(path, t, names, l, globals), l)
        }
        Exp::Load(t, _, path) => {
            part_sort(is_root(l, t, root), along(path, t, names, l, globals), l)
        }
        Exp::Read(t, _, path) => {
            part_sort(is_root(l, t, root), along(path, t, names, l, globals), l)
        }
        Exp::Sel(_, path) => match parts_in(root) {
            Some(t) => part_sort(is_one_step(path), along(path, t, names, l, globals), l),
            None => None,
        },
        _ => unreachable!(),
    }
}

// The sort of a part of a global.
#[cycle(sorts)]
#[inline(never)]
fn global_sort<'a, N: Scope>(
    e: &'a Exp,
    names: &N,
    l: &'a Layout,
    globals: &'a [GlobalVar],
) -> Option<Sort<'a>>
    requires { arity_of (exp_of e.now) ≡ Part }
    ensures { option_map sort_value result
        ≡ sort_of (scope_by l.now (N.scalars names.now) globals.now)
        (exp_of e.now) }
{
    match e {
        Exp::Global(x, path) => match global(globals, x.as_str()) {
            Some(t) => part_sort(is_object(l, t), along(path, t, names, l, globals), l),
            None => None,
        },
        _ => unreachable!(),
    }
}

// The sort of a value with a part replaced.
#[cycle(sorts)]
#[inline(never)]
fn update_sort<'a, N: Scope>(
    e: &'a Exp,
    names: &N,
    l: &'a Layout,
    globals: &'a [GlobalVar],
) -> Option<Sort<'a>>
    requires { arity_of (exp_of e.now) ≡ Update }
    ensures { option_map sort_value result
        ≡ sort_of (scope_by l.now (N.scalars names.now) globals.now)
        (exp_of e.now) }
{
    let whole = sort_of(first(e), names, l, globals);
    match e {
        Exp::Upd(_, path, v) => match parts_in(whole) {
            Some(t) => {
                let part = part_sort(true, along(path, t, names, l, globals), l);
                where_same(part, sort_of(v, names, l, globals), whole)
            }
            None => None,
        },
        _ => unreachable!(),
    }
}

// Whether an expression is a truth value. It goes along the right sides of `and`, `or` and `imp` by
// a loop, since the test of a switch is an `or` of as many equations as there are labels.
#[cycle(sorts)]
#[inline(never)]
#[tactic(auto, using(crate::proofs::OperandSorts::rest_decides, crate::proofs::OperandSorts::first_decides))]
fn is_truth_value<'a, N: Scope>(
    e: &'a Exp,
    names: &N,
    l: &'a Layout,
    globals: &'a [GlobalVar],
) -> bool
    ensures { result
        ≡ is_truth (sort_of (scope_by l.now (N.scalars names.now) globals.now) (exp_of e.now)) }
{
    let mut rest = e;
    'operands: while let Arity::Connective = arity_in(rest) {
        if !is_truth(sort_of(first(rest), names, l, globals)) {
            return false;
        }
        rest = second(rest);
    }
    is_truth(sort_of(rest, names, l, globals))
}

/// The type at the end of a path. It goes along the path by a loop, since a text may have long
/// paths.
#[cycle(sorts)]
#[tactic(auto, using(crate::proofs::AlongSteps::next_field, crate::proofs::AlongSteps::no_field, crate::proofs::AlongSteps::next_element, crate::proofs::AlongSteps::no_element, crate::proofs::AlongSteps::no_number,))]
pub fn along<'a, N: Scope>(
    path: &'a Path,
    t: &'a CType,
    names: &N,
    l: &'a Layout,
    globals: &'a [GlobalVar],
) -> Option<&'a CType>
    ensures { option_map (λ u. shape_of l.now (type_of u.now)) result
        ≡ shape_along (scope_by l.now (N.scalars names.now) globals.now) (path_of path.now)
        (shape_of l.now (type_of t.now)) }
{
    let mut rest = path;
    let mut whole = t;
    'steps: loop {
        match rest {
            Path::Here => return Some(whole),
            Path::Field(k, next) => {
                let Some(part) = member(l, whole, *k) else {
                    return None;
                };
                whole = part;
                rest = &**next;
            }
            Path::Index(index, next) => {
                if !is_number(sort_of(index, names, l, globals)) {
                    return None;
                }
                let Some(part) = element(l, whole) else {
                    return None;
                };
                whole = part;
                rest = &**next;
            }
        }
    }
}

// Whether there is one step and nothing more.
fn is_one_step(path: &Path) -> bool
    ensures { result ≡ is_one_step (path_of path.now) }
{
    match path {
        Path::Here => false,
        Path::Field(_, rest) | Path::Index(_, rest) => match &**rest {
            Path::Here => true,
            Path::Field(_, _) | Path::Index(_, _) => false,
        },
    }
}
