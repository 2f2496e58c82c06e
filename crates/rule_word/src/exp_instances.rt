//! What a rule asks of two expressions, the left of which is well-sorted and of the sort that is
//! seen. One function for each rule.

ghost use Rattle.std.specs.Prelude.{◌≡◌, ◌↔◌, true, Some, None, IsTrue};
ghost use Rattle.expression_lang.specs.Sort.{word_sort_of, scalar_sort};
ghost use Rattle.expression_lang.specs.CodeExpression.{exp_of, kind_of};
ghost use Rattle.rule_word.specs.Rule as names;
ghost use Rattle.rule_word.specs.Scopes.{names_in, view_for};
ghost use Rattle.rule_word.specs.Table.{is_operator, constant};
ghost use Rattle.rule_word.specs.CodeRule.{rule_of, view_of};
ghost use Rattle.rule_word.specs.CodeKinds.{binders_in};
ghost use Rattle.rule_word.specs.CodeRows.{row_at, FitsAt, HasKinds};

use crate::kinds::Kinds;
use crate::ranges::is_in_range;
use crate::rule::{Context, Point, Rule, View};
use crate::sorts::is_of_kind;
use ac_expr::same_head;
use c_values::{NumberOp, UnaryOp, WordOp, WordTest, int, nat, same_number};
use expression_lang::{CastOp, Exp, Kind};

/// Whether what a rule asks of two expressions holds.
#[inline(never)]
pub(crate) fn is_exp_asked(
    rule: &Rule,
    left: &Exp,
    view: View,
    right: &Exp,
    context: Context<'_>,
    point: Point<'_>,
) -> bool
    requires fits { FitsAt context point (exp_of left.now) view }
    requires kinds { HasKinds point.names.now }
    ensures { IsTrue result
        ↔ (row_at context.entry point.entry (rule_of rule.now) (exp_of left.now) view
        (exp_of right.now)).holds }
{
    match rule {
        Rule::Var => is_var(left, view, right, context, point),
        Rule::Const => is_const(left, view, right, context, point),
        Rule::Nat => is_nat(left, view, right, context, point),
        Rule::Int => is_int(left, view, right, context, point),
        Rule::Word(kind) => is_word(*kind, left, view, right, context, point),
        Rule::Unat => is_unat(left, view, right, context, point),
        Rule::Sint => is_sint(left, view, right, context, point),
        Rule::Add => is_add(left, view, right, context, point),
        Rule::Sub => is_sub(left, view, right, context, point),
        Rule::Mul => is_mul(left, view, right, context, point),
        Rule::Neg => is_neg(left, view, right, context, point),
        Rule::Udiv => is_udiv(left, view, right, context, point),
        Rule::Umod => is_umod(left, view, right, context, point),
        Rule::Sdiv => is_sdiv(left, view, right, context, point),
        Rule::Smod => is_smod(left, view, right, context, point),
        Rule::Order => is_order(left, view, right, context, point),
        Rule::Eq(kind) => is_eq(*kind, left, view, right, context, point),
        Rule::Zext => is_zext(left, view, right, context, point),
        Rule::Sext => is_sext(left, view, right, context, point),
        Rule::Logic => is_logic(left, view, right, context, point),
        Rule::Cond => is_cond(left, view, right, context, point),
        Rule::Op => is_op(left, view, right, context, point),
        Rule::Ret | Rule::Guard | Rule::If | Rule::Global | Rule::Pick | Rule::Write => false,
        Rule::Bind(_) | Rule::Loop(_) | Rule::Call | Rule::PickNat | Rule::PickInt => false,
        Rule::Recast(_) => false,
    }
}

// Whether a name of a kind is seen so.
fn is_view_for(kind: Kind, view: View) -> bool
    ensures { IsTrue result
        ↔ (view_for (kind_of kind)
        ≡ view_of (scalar_sort (Some (word_sort_of (kind_of kind)))) view) }
{
    match kind {
        Kind::Word(_) | Kind::Bool => matches!(view, View::AsIs),
        Kind::Nat(width) => match view {
            View::Unsigned(own) => own == width,
            View::AsIs | View::Signed(_) => false,
        },
        Kind::Int(width) => match view {
            View::Signed(own) => own == width,
            View::AsIs | View::Unsigned(_) => false,
        },
    }
}

// Whether a name is in scope, and seen so.
fn is_name_seen(name: &str, view: View, names: &Kinds<'_>) -> bool
    ensures { IsTrue result ↔ (names_in view_for (binders_in names.now) name.now
        ≡ Some (view_of (scalar_sort (names_in word_sort_of
        (binders_in names.now) name.now)) view)) }
{
    match names.get(name) {
        Some(kind) => is_view_for(kind, view),
        None => false,
    }
}

fn is_var(left: &Exp, view: View, right: &Exp, context: Context<'_>, point: Point<'_>) -> bool
    ensures { IsTrue result
        ↔ (row_at context.entry point.entry names.Var (exp_of left.now) view
        (exp_of right.now)).holds }
{
    match left {
        Exp::Var(x) => match right {
            Exp::Var(y) => {
                y.as_str() == x.as_str() && is_name_seen(x.as_str(), view, point.names)
            }
            _ => false,
        },
        _ => false,
    }
}

// Whether a constant is the same one.
fn is_same_constant(left: &Exp, right: &Exp) -> bool
    ensures { IsTrue result
        ↔ (constant (names.AsIs None) (exp_of left.now) ≡ Some (exp_of right.now)) }
{
    match left {
        Exp::Word(_) | Exp::Number(_) | Exp::Truth(_) => right.same(left),
        _ => false,
    }
}

fn is_const(left: &Exp, view: View, right: &Exp, context: Context<'_>, point: Point<'_>) -> bool
    ensures { IsTrue result
        ↔ (row_at context.entry point.entry names.Const (exp_of left.now) view
        (exp_of right.now)).holds }
{
    match view {
        View::AsIs => is_same_constant(left, right),
        View::Unsigned(_) => match left {
            Exp::Word(w) => match right {
                Exp::Number(n) => same_number(nat(*w), *n),
                _ => false,
            },
            _ => false,
        },
        View::Signed(_) => match left {
            Exp::Word(w) => match right {
                Exp::Number(n) => same_number(int(*w), *n),
                _ => false,
            },
            _ => false,
        },
    }
}

#[tactic(auto, using(crate::proofs::Asked::nat_fits))]
fn is_nat(left: &Exp, view: View, right: &Exp, context: Context<'_>, point: Point<'_>) -> bool
    requires { FitsAt context point (exp_of left.now) view }
    ensures { IsTrue result
        ↔ (row_at context.entry point.entry names.Nat (exp_of left.now) view
        (exp_of right.now)).holds }
{
    match left {
        Exp::ToNat(_) => matches!(view, View::AsIs),
        _ => false,
    }
}

#[tactic(auto, using(crate::proofs::Asked::int_fits))]
fn is_int(left: &Exp, view: View, right: &Exp, context: Context<'_>, point: Point<'_>) -> bool
    requires { FitsAt context point (exp_of left.now) view }
    ensures { IsTrue result
        ↔ (row_at context.entry point.entry names.Int (exp_of left.now) view
        (exp_of right.now)).holds }
{
    match left {
        Exp::ToInt(_) => matches!(view, View::AsIs),
        _ => false,
    }
}

fn is_word(
    kind: Kind,
    left: &Exp,
    view: View,
    right: &Exp,
    context: Context<'_>,
    point: Point<'_>,
) -> bool
    requires { FitsAt context point (exp_of left.now) view }
    ensures { IsTrue result
        ↔ (row_at context.entry point.entry (names.Word (kind_of kind)) (exp_of left.now) view
        (exp_of right.now)).holds }
{
    match view {
        View::AsIs => match right {
            Exp::ToWord(width, _) => match kind {
                Kind::Nat(own) | Kind::Int(own) => {
                    own == *width && is_of_kind(left, kind, context, point.names)
                }
                Kind::Word(_) | Kind::Bool => false,
            },
            _ => false,
        },
        View::Unsigned(_) | View::Signed(_) => false,
    }
}

fn is_unat(left: &Exp, view: View, right: &Exp, context: Context<'_>, point: Point<'_>) -> bool
    ensures { IsTrue result
        ↔ (row_at context.entry point.entry names.Unat (exp_of left.now) view
        (exp_of right.now)).holds }
{
    match view {
        View::Unsigned(_) => matches!(right, Exp::ToNat(_)),
        _ => false,
    }
}

fn is_sint(left: &Exp, view: View, right: &Exp, context: Context<'_>, point: Point<'_>) -> bool
    ensures { IsTrue result
        ↔ (row_at context.entry point.entry names.Sint (exp_of left.now) view
        (exp_of right.now)).holds }
{
    match view {
        View::Signed(_) => matches!(right, Exp::ToInt(_)),
        _ => false,
    }
}

fn is_add(left: &Exp, view: View, right: &Exp, context: Context<'_>, point: Point<'_>) -> bool
    requires fits { FitsAt context point (exp_of left.now) view }
    requires kinds { HasKinds point.names.now }
    ensures { IsTrue result
        ↔ (row_at context.entry point.entry names.Add (exp_of left.now) view
        (exp_of right.now)).holds }
{
    match left {
        Exp::WordBinary(WordOp::Wadd, _, _) => match right {
            Exp::Arith(NumberOp::Add, _, _) => is_in_range(left, view, right, context, point),
            _ => false,
        },
        _ => false,
    }
}

fn is_sub(left: &Exp, view: View, right: &Exp, context: Context<'_>, point: Point<'_>) -> bool
    requires fits { FitsAt context point (exp_of left.now) view }
    requires kinds { HasKinds point.names.now }
    ensures { IsTrue result
        ↔ (row_at context.entry point.entry names.Sub (exp_of left.now) view
        (exp_of right.now)).holds }
{
    match left {
        Exp::WordBinary(WordOp::Wsub, _, _) => match right {
            Exp::Arith(NumberOp::Sub, _, _) => is_in_range(left, view, right, context, point),
            _ => false,
        },
        _ => false,
    }
}

fn is_mul(left: &Exp, view: View, right: &Exp, context: Context<'_>, point: Point<'_>) -> bool
    requires fits { FitsAt context point (exp_of left.now) view }
    requires kinds { HasKinds point.names.now }
    ensures { IsTrue result
        ↔ (row_at context.entry point.entry names.Mul (exp_of left.now) view
        (exp_of right.now)).holds }
{
    match left {
        Exp::WordBinary(WordOp::Wmul, _, _) => match right {
            Exp::Arith(NumberOp::Mul, _, _) => is_in_range(left, view, right, context, point),
            _ => false,
        },
        _ => false,
    }
}

fn is_neg(left: &Exp, view: View, right: &Exp, context: Context<'_>, point: Point<'_>) -> bool
    requires fits { FitsAt context point (exp_of left.now) view }
    requires kinds { HasKinds point.names.now }
    ensures { IsTrue result
        ↔ (row_at context.entry point.entry names.Neg (exp_of left.now) view
        (exp_of right.now)).holds }
{
    match left {
        Exp::WordUnary(UnaryOp::Wneg, _) => match right {
            Exp::Negate(_) => is_in_range(left, view, right, context, point),
            _ => false,
        },
        _ => false,
    }
}

fn is_udiv(left: &Exp, view: View, right: &Exp, context: Context<'_>, point: Point<'_>) -> bool
    ensures { IsTrue result
        ↔ (row_at context.entry point.entry names.Udiv (exp_of left.now) view
        (exp_of right.now)).holds }
{
    match left {
        Exp::WordBinary(WordOp::Wudiv, _, _) => match right {
            Exp::Arith(NumberOp::Div, _, _) => matches!(view, View::Unsigned(_)),
            _ => false,
        },
        _ => false,
    }
}

fn is_umod(left: &Exp, view: View, right: &Exp, context: Context<'_>, point: Point<'_>) -> bool
    ensures { IsTrue result
        ↔ (row_at context.entry point.entry names.Umod (exp_of left.now) view
        (exp_of right.now)).holds }
{
    match left {
        Exp::WordBinary(WordOp::Wumod, _, _) => match right {
            Exp::Arith(NumberOp::Mod, _, _) => matches!(view, View::Unsigned(_)),
            _ => false,
        },
        _ => false,
    }
}

fn is_sdiv(left: &Exp, view: View, right: &Exp, context: Context<'_>, point: Point<'_>) -> bool
    requires fits { FitsAt context point (exp_of left.now) view }
    requires kinds { HasKinds point.names.now }
    ensures { IsTrue result
        ↔ (row_at context.entry point.entry names.Sdiv (exp_of left.now) view
        (exp_of right.now)).holds }
{
    match left {
        Exp::WordBinary(WordOp::Wsdiv, _, _) => match right {
            Exp::Arith(NumberOp::Div, _, _) => match view {
                View::Signed(_) => is_in_range(left, view, right, context, point),
                View::AsIs | View::Unsigned(_) => false,
            },
            _ => false,
        },
        _ => false,
    }
}

fn is_smod(left: &Exp, view: View, right: &Exp, context: Context<'_>, point: Point<'_>) -> bool
    ensures { IsTrue result
        ↔ (row_at context.entry point.entry names.Smod (exp_of left.now) view
        (exp_of right.now)).holds }
{
    match left {
        Exp::WordBinary(WordOp::Wsmod, _, _) => match right {
            Exp::Arith(NumberOp::Mod, _, _) => matches!(view, View::Signed(_)),
            _ => false,
        },
        _ => false,
    }
}

#[tactic(auto, using(crate::proofs::Asked::order_fits))]
fn is_order(left: &Exp, view: View, right: &Exp, context: Context<'_>, point: Point<'_>) -> bool
    requires { FitsAt context point (exp_of left.now) view }
    ensures { IsTrue result
        ↔ (row_at context.entry point.entry names.Order (exp_of left.now) view
        (exp_of right.now)).holds }
{
    match left {
        Exp::WordCompare(WordTest::Wult | WordTest::Wslt, _, _) => match right {
            Exp::Lt(_, _) => matches!(view, View::AsIs),
            _ => false,
        },
        Exp::WordCompare(WordTest::Wule | WordTest::Wsle, _, _) => match right {
            Exp::Le(_, _) => matches!(view, View::AsIs),
            _ => false,
        },
        _ => false,
    }
}

fn is_eq(
    kind: Kind,
    left: &Exp,
    view: View,
    right: &Exp,
    context: Context<'_>,
    point: Point<'_>,
) -> bool
    ensures { IsTrue result
        ↔ (row_at context.entry point.entry (names.Eq (kind_of kind)) (exp_of left.now) view
        (exp_of right.now)).holds }
{
    match left {
        Exp::Eq(_, _) => match right {
            Exp::Eq(_, _) => matches!(view, View::AsIs),
            _ => false,
        },
        _ => false,
    }
}

#[tactic(auto, using(crate::proofs::Asked::cast_fits_width))]
fn is_zext(left: &Exp, view: View, right: &Exp, context: Context<'_>, point: Point<'_>) -> bool
    requires { FitsAt context point (exp_of left.now) view }
    ensures { IsTrue result
        ↔ (row_at context.entry point.entry names.Zext (exp_of left.now) view
        (exp_of right.now)).holds }
{
    match left {
        Exp::Cast(CastOp::Zext, _, _) => match view {
            View::Unsigned(_) | View::Signed(_) => true,
            View::AsIs => false,
        },
        _ => false,
    }
}

#[tactic(auto, using(crate::proofs::Asked::cast_fits_width))]
fn is_sext(left: &Exp, view: View, right: &Exp, context: Context<'_>, point: Point<'_>) -> bool
    requires { FitsAt context point (exp_of left.now) view }
    ensures { IsTrue result
        ↔ (row_at context.entry point.entry names.Sext (exp_of left.now) view
        (exp_of right.now)).holds }
{
    match left {
        Exp::Cast(CastOp::Sext, _, _) => matches!(view, View::Signed(_)),
        _ => false,
    }
}

fn is_logic(left: &Exp, view: View, right: &Exp, context: Context<'_>, point: Point<'_>) -> bool
    ensures { IsTrue result
        ↔ (row_at context.entry point.entry names.Logic (exp_of left.now) view
        (exp_of right.now)).holds }
{
    if !matches!(view, View::AsIs) {
        return false;
    }
    match left {
        Exp::And(_, _) => matches!(right, Exp::And(_, _)),
        Exp::Or(_, _) => matches!(right, Exp::Or(_, _)),
        Exp::Imp(_, _) => matches!(right, Exp::Imp(_, _)),
        Exp::Not(_) => matches!(right, Exp::Not(_)),
        _ => false,
    }
}

fn is_cond(left: &Exp, view: View, right: &Exp, context: Context<'_>, point: Point<'_>) -> bool
    ensures { IsTrue result
        ↔ (row_at context.entry point.entry names.Cond (exp_of left.now) view
        (exp_of right.now)).holds }
{
    match left {
        Exp::If(_, _, _) => matches!(right, Exp::If(_, _, _)),
        _ => false,
    }
}

// Whether no other rule is for an expression's head.
fn is_operator(e: &Exp) -> bool
    ensures { result ≡ is_operator (exp_of e.now) }
{
    match e {
        Exp::Var(_) | Exp::Word(_) | Exp::Number(_) | Exp::Truth(_) => false,
        Exp::And(_, _) | Exp::Or(_, _) | Exp::Imp(_, _) | Exp::Not(_) => false,
        Exp::If(_, _, _) => false,
        _ => true,
    }
}

fn is_op(left: &Exp, view: View, right: &Exp, context: Context<'_>, point: Point<'_>) -> bool
    ensures { IsTrue result
        ↔ (row_at context.entry point.entry names.Op (exp_of left.now) view
        (exp_of right.now)).holds }
{
    matches!(view, View::AsIs) && is_operator(left) && same_head(left, right)
}
