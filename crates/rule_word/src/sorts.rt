//! Sorts of well-sorted expressions, which heads along first operands show.

ghost use Rattle.std.specs.Prelude.{◌≡◌, ◌↔◌, IsTrue, true, map};
ghost use Rattle.std.specs.Option.{option_map};
ghost use Rattle.c_values.specs.CodeTypes.{type_of};
ghost use Rattle.c_values.specs.CodeValue.{global_of};
ghost use Rattle.c_values.specs.Layout.{shape_of, global_type};
ghost use Rattle.c_values.specs.Path.{Field, step_spot};
ghost use Rattle.expression_lang.specs.Sort.{sort_of, sort_at, of_shape, of_type, word_width, is_truth, scalar_sort, word_sort_of};
ghost use Rattle.expression_lang.specs.CodeSort.{scalar_of, sort_value};
ghost use Rattle.expression_lang.specs.CodeAlong.{shape_at, element_in};
ghost use Rattle.expression_lang.specs.CodeExpression.{exp_of, path_of, kind_of};
ghost use Rattle.rule_word.specs.LeftWidth.{left_width, shape_there};
ghost use Rattle.rule_word.specs.Scopes.{names_in, sort_seen, view_for};
ghost use Rattle.rule_word.specs.CodeFits.{IsSorted};
ghost use Rattle.rule_word.specs.CodeSorts.{left_truth, left_kind, is_this, is_truth_head, is_first};
ghost use Rattle.rule_word.specs.CodeKinds.{binders_in, scope_in};

use crate::kinds::Kinds;
use crate::rule::Context;
use c_values::{CType, Layout, address_width, width_of as integer_width};
use expression_lang::parts::global;
use expression_lang::{Exp, Kind, Path, Scalar, Scope, Sort, sort_of};

/// Whether a well-sorted expression has the sort of a kind's words.
pub(crate) fn is_of_kind(e: &Exp, kind: Kind, context: Context<'_>, names: &Kinds<'_>) -> bool
    requires { IsSorted (scope_in context names.now) (exp_of e.now) }
    ensures { IsTrue result
        ↔ (sort_of (scope_in context.entry names.now) (exp_of e.now)
        ≡ sort_seen (view_for (kind_of kind))) }
{
    has_left_kind(e, kind, context, names)
}

// The same, as heads along first operands show it.
fn has_left_kind(e: &Exp, kind: Kind, context: Context<'_>, names: &Kinds<'_>) -> bool
    ensures { result ≡ left_kind (scope_in context.entry names.now) (exp_of e.now) (kind_of kind) }
{
    match kind {
        Kind::Word(width) => has_width(e, width, context, names),
        Kind::Nat(width) => has_width(e, width, context, names),
        Kind::Int(width) => has_width(e, width, context, names),
        Kind::Bool => is_left_truth(e, context, names),
    }
}

// Whether a word has this width.
fn has_width(e: &Exp, width: u8, context: Context<'_>, names: &Kinds<'_>) -> bool
    ensures { result
        ≡ is_this width (left_width (scope_in context.entry names.now) (exp_of e.now)) }
{
    match left_width(e, context, names) {
        Some(own) => own == width,
        None => false,
    }
}

// Whether an expression is a truth value.
fn is_left_truth(e: &Exp, context: Context<'_>, names: &Kinds<'_>) -> bool
    ensures { result ≡ left_truth (scope_in context.entry names.now) (exp_of e.now) }
{
    let mut rest = e;
    'firsts: loop {
        match rest {
            Exp::If(_, first, _) => rest = &**first,
            Exp::Var(x) => return is_truth(names.scalar(x.as_str())),
            _ => return is_truth_head(rest),
        }
    }
}

// The same, where it is no choice and no name.
fn is_truth_head(e: &Exp) -> bool
    ensures { result ≡ is_truth_head (exp_of e.now) }
{
    match e {
        Exp::Truth(_) | Exp::WordCompare(_, _, _) | Exp::Lt(_, _) | Exp::Le(_, _) => true,
        Exp::Between(_, _, _) | Exp::Eq(_, _) | Exp::And(_, _) | Exp::Or(_, _) => true,
        Exp::Imp(_, _) | Exp::Not(_) | Exp::Tagged(_, _) | Exp::PtrOk(_, _) => true,
        _ => false,
    }
}

/// The width of a word.
pub(crate) fn left_width(e: &Exp, context: Context<'_>, names: &Kinds<'_>) -> Option<u8>
    ensures { result ≡ left_width (scope_in context.entry names.now) (exp_of e.now) }
{
    let mut rest = e;
    'firsts: loop {
        match rest {
            Exp::WordBinary(_, first, _) => rest = &**first,
            Exp::WordShift(_, first, _) => rest = &**first,
            Exp::WordUnary(_, first) => rest = &**first,
            Exp::If(_, first, _) => rest = &**first,
            _ => return head_width(rest, context, names),
        }
    }
}

// The same, where the head shows it.
fn head_width(e: &Exp, context: Context<'_>, names: &Kinds<'_>) -> Option<u8>
    requires { is_first (exp_of e.now) ≡ true }
    ensures { result ≡ left_width (scope_in context.entry names.now) (exp_of e.now) }
{
    match e {
        Exp::Var(x) => name_width(x.as_str(), names),
        Exp::Word(w) => Some(w.width()),
        Exp::Cast(_, width, _) | Exp::ToWord(width, _) => Some(*width),
        Exp::Padd(_, _, _) | Exp::At(_, _, _) => Some(address_width(context.layout.target())),
        Exp::Load(t, _, path) | Exp::Read(t, _, path) => width_there(path, t, context.layout),
        Exp::Global(x, path) => global_width(x.as_str(), path, context),
        Exp::Sel(_, _) | Exp::Upd(_, _, _) => sorted_width(e, context, names),
        _ => None,
    }
}

fn name_width(name: &str, names: &Kinds<'_>) -> Option<u8>
    ensures { result
        ≡ word_width (scalar_sort (names_in word_sort_of (binders_in names.now) name.now)) }
{
    width_in(names.scalar(name))
}

fn width_in(scalar: Option<Scalar>) -> Option<u8>
    ensures { result ≡ word_width (scalar_sort (option_map scalar_of scalar)) }
{
    match scalar {
        Some(Scalar::Word(width)) => Some(width),
        Some(Scalar::Num | Scalar::Truth) | None => None,
    }
}

fn is_truth(scalar: Option<Scalar>) -> bool
    ensures { result ≡ is_truth (scalar_sort (option_map scalar_of scalar)) }
{
    match scalar {
        Some(Scalar::Truth) => true,
        Some(Scalar::Word(_) | Scalar::Num) | None => false,
    }
}

// The width of a word that is no part of a program.
fn sorted_width(e: &Exp, context: Context<'_>, names: &Kinds<'_>) -> Option<u8>
    ensures { result ≡ word_width (sort_of (scope_in context.entry names.now) (exp_of e.now)) }
{
    width_of(sort_of(e, names, context.layout, context.globals))
}

fn width_of(sort: Option<Sort<'_>>) -> Option<u8>
    ensures { result ≡ word_width (option_map sort_value sort.entry) }
{
    match sort {
        Some(Sort::Of(Scalar::Word(width))) => Some(width),
        Some(Sort::Of(Scalar::Num | Scalar::Truth)) | Some(Sort::Parts(_)) | None => None,
    }
}

// The width of a part of a global.
fn global_width(name: &str, path: &Path, context: Context<'_>) -> Option<u8>
    ensures { result
        ≡ word_width (of_type (global_type (map global_of context.entry.globals.now) name.now)
        (λ t. of_shape (shape_there (path_of path.now)
        (shape_of context.entry.layout.now t)) sort_at)) }
{
    match global(context.globals, name) {
        Some(t) => width_there(path, t, context.layout),
        None => None,
    }
}

// The width of the word at the end of a path.
fn width_there(path: &Path, t: &CType, l: &Layout) -> Option<u8>
    ensures { result
        ≡ word_width (of_shape (shape_there (path_of path.now)
        (shape_of l.now (type_of t.now))) sort_at) }
{
    match type_there(path, t, l) {
        Some(part) => width_at(l, part),
        None => None,
    }
}

// The width of a word of a type.
#[tactic(auto, using(crate::proofs::TypeWidths::struct_width))]
fn width_at(l: &Layout, t: &CType) -> Option<u8>
    ensures { result ≡ word_width (sort_at (shape_of l.now (type_of t.now))) }
{
    let target = l.target();
    match t {
        CType::Int(integer) => Some(integer_width(target, *integer)),
        CType::Ptr(_) => Some(address_width(target)),
        CType::Struct(_) | CType::Array(_, _) | CType::Void => None,
    }
}

// The type at the end of a path, whatever its indexes. It goes along the path by a loop, since a
// text may have long paths.
#[tactic(auto, using(crate::proofs::StepsThere::next_field, crate::proofs::StepsThere::no_field, crate::proofs::StepsThere::next_element, crate::proofs::StepsThere::no_element))]
fn type_there<'a>(path: &'a Path, t: &'a CType, l: &'a Layout) -> Option<&'a CType>
    ensures { option_map (λ u. shape_of l.now (type_of u.now)) result
        ≡ shape_there (path_of path.now) (shape_of l.now (type_of t.now)) }
{
    let mut rest = path;
    let mut whole = t;
    'steps: loop {
        match rest {
            Path::Here => return Some(whole),
            Path::Field(k, next) => {
                let Some(part) = member(l, whole, *k) else {
                    return None;
                };
                whole = part;
                rest = &**next;
            }
            Path::Index(_, next) => {
                let Some(part) = element(l, whole) else {
                    return None;
                };
                whole = part;
                rest = &**next;
            }
        }
    }
}

// The type of a member.
fn member<'a>(l: &'a Layout, t: &'a CType, k: u32) -> Option<&'a CType>
    ensures { option_map (λ u. shape_of l.now (type_of u.now)) result
        ≡ shape_at (step_spot (shape_of l.now (type_of t.now)) (Field k)) }
{
    let CType::Struct(name) = t else {
        return None;
    };
    match l.member(name.as_str(), k) {
        Some((_, ty)) => Some(ty),
        None => None,
    }
}

// The type of the elements.
fn element<'a>(l: &Layout, t: &'a CType) -> Option<&'a CType>
    ensures { option_map (λ u. shape_of l.now (type_of u.now)) result
        ≡ element_in (shape_of l.now (type_of t.now)) }
{
    // Its structs are no arrays.
    let _ = l.target();
    match t {
        CType::Array(element, _) => Some(&**element),
        CType::Struct(_) => None,
        CType::Int(_) | CType::Void | CType::Ptr(_) => None,
    }
}
