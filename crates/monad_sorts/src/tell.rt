//! What can be told of the scalar of an expression without the names in scope.

ghost use Rattle.std.specs.Prelude.{◌≡◌, ◌<◌, Option, None, map, IfSome};
ghost use Rattle.std.specs.Option.{option_map};
ghost use Rattle.c_values.specs.Name.{Name};
ghost use Rattle.expression_lang.specs.Sort as plain;
ghost use Rattle.expression_lang.specs.declared.expression.Exp.{size-Exp};
ghost use Rattle.expression_lang.specs.CodeExpression.{exp_of};
ghost use Rattle.monad_sorts.specs.CodeTold.{told, told_at, all_told, starts_told, operand_of};
ghost use Rattle.monad_sorts.specs.CodeInside.{setting_in, scalar_by};
ghost use Rattle.monad_lang.specs.CodeProgram.{start_of};

use crate::places::{address_scalar, global_scalar, part_scalar};
use crate::settings::Setting;
use expression_lang::{Exp, Scalar};
use monad_lang::Start;

/// What is told of the scalar of a value.
#[derive(Clone, Copy)]
pub enum Told<'a> {
    /// It is this one, or there is none.
    Known(Option<Scalar>),
    /// It is that of a name.
    AsName(&'a str),
}

/// The scalar of an expression, if it is well-sorted. It goes from operand to operand by a loop,
/// since a text may have long expressions.
pub(crate) fn tell<'a>(e: &'a Exp, setting: Setting<'_>) -> Told<'a>
    ensures { (names : Name → Option plain.Scalar) →
        scalar_by names result ≡ told (setting_in setting.entry names).scope (exp_of e.now) }
{
    let mut rest = e;
    'along: while let Some(operand) = operand_of(rest) {
        rest = operand;
    }
    tell_at_once(rest, setting)
}

// The operand that has an expression's scalar: of two, the second, which is a constant more often.
fn operand_of(e: &Exp) -> Option<&Exp>
    ensures same { option_map (λ a. exp_of a.now) result ≡ operand_of (exp_of e.now) }
    ensures smaller { IfSome result (λ a. size-Exp a.now < size-Exp e.now) }
{
    match e {
        Exp::WordBinary(_, _, operand)
        | Exp::WordShift(_, operand, _)
        | Exp::WordUnary(_, operand)
        | Exp::If(_, _, operand) => Some(&**operand),
        _ => None,
    }
}

// The scalar of an expression that has none of an operand's.
fn tell_at_once<'a>(e: &'a Exp, setting: Setting<'_>) -> Told<'a>
    requires { operand_of (exp_of e.now) ≡ None }
    ensures { (names : Name → Option plain.Scalar) →
        scalar_by names result ≡ told (setting_in setting.entry names).scope (exp_of e.now) }
{
    match e {
        Exp::Var(name) => Told::AsName(name.as_str()),
        Exp::Word(word) => Told::Known(Some(Scalar::Word(word.width()))),
        Exp::Cast(_, width, _) | Exp::ToWord(width, _) => Told::Known(Some(Scalar::Word(*width))),
        Exp::Number(_) | Exp::ToNat(_) | Exp::ToInt(_) | Exp::Arith(_, _, _) | Exp::Negate(_) =>
            Told::Known(Some(Scalar::Num)),
        Exp::Truth(_)
        | Exp::WordCompare(_, _, _)
        | Exp::Lt(_, _)
        | Exp::Le(_, _)
        | Exp::Between(_, _, _)
        | Exp::Eq(_, _)
        | Exp::And(_, _)
        | Exp::Or(_, _)
        | Exp::Imp(_, _)
        | Exp::Not(_)
        | Exp::Tagged(_, _)
        | Exp::PtrOk(_, _) => Told::Known(Some(Scalar::Truth)),
        Exp::Padd(_, _, _) | Exp::At(_, _, _) => Told::Known(address_scalar(setting.layout)),
        Exp::Load(t, _, path) | Exp::Read(t, _, path) => {
            Told::Known(part_scalar(setting.layout, t, path))
        }
        Exp::Global(name, path) => Told::Known(global_scalar(
            setting.layout,
            setting.globals,
            name.as_str(),
            path,
        )),
        Exp::Sel(_, _) | Exp::Upd(_, _, _) => Told::Known(None),
        _ => unreachable!(),
    }
}

/// The scalar of one of several expressions.
pub(crate) fn tell_exp<'a>(es: &'a [Exp], position: usize, setting: Setting<'_>) -> Told<'a>
    ensures { (names : Name → Option plain.Scalar) → scalar_by names result
        ≡ told_at (all_told (setting_in setting.entry names).scope (map exp_of es.now)) position }
{
    match es.get(position) {
        Some(e) => tell(e, setting),
        None => Told::Known(None),
    }
}

/// The scalar that one of several names begins with.
pub(crate) fn tell_start<'a>(starts: &'a [Start], position: usize, setting: Setting<'_>) -> Told<'a>
    ensures { (names : Name → Option plain.Scalar) → scalar_by names result
        ≡ told_at (starts_told (setting_in setting.entry names).scope (map start_of starts.now))
        position }
{
    match starts.get(position) {
        Some(start) => tell(&start.exp, setting),
        None => Told::Known(None),
    }
}
