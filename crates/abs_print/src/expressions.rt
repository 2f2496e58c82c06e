//! Expressions and paths.

ghost use Rattle.std.specs.Prelude.{◌≡◌, ◌++◌, [], ◌∷◌, codes, OnOk};
ghost use Rattle.c_values.specs.CodeTypes.{type_of};
ghost use Rattle.expression_lang.specs.CodeExpression.{exp_of, path_of};
ghost use Rattle.expression_lang.specs.CodeShape.{shape_of};
ghost use Rattle.expression_lang.specs.CodeShapeView.{one_in, two_in, root_in, place_in};
ghost use Rattle.expression_text.specs.declared.heads.Head.TheVariants as H;
ghost use Rattle.expression_text.specs.Head.{head_word};
ghost use Rattle.expression_text.specs.Numbers.{number_text};
ghost use Rattle.expression_text.specs.Row as rows;
ghost use Rattle.expression_text.specs.ExpText.{element_word};
ghost use Rattle.abs_print.specs.Texts.{each_after, listed};
ghost use Rattle.abs_print.specs.Expressions.{headed, type_text, exp_text, step_texts};
ghost use Rattle.abs_print.specs.CodeFronts.{begun, one_parts, two_parts, front};

use crate::endings::push_endings;
use crate::last_parts::{Left, behind};
use crate::leaves::{push_field, push_leaf};
use crate::signs::sign;
use crate::texts::{Shown, push, push_natural, push_number};
use crate::types::push_type;
use c_values::{CType, Number};
use expression_lang::{Exp, One, Path, PlaceHead, RootTest, Shape, Two, shape_of};
use expression_text::{Head, one_head, place_head, root_head, two_head};
use std::alloc::AllocError;

impl Shown for Exp {
    ghost use Rattle.expression_lang.specs.CodeExpression.{exp_of};
    ghost use Rattle.abs_print.specs.Expressions.{exp_text};

    ghost text = { λ e. exp_text (exp_of e) };

    fn push_to(&self, out: &mut Vec<u8>) -> Result<(), AllocError> {
        push_exp(out, self)
    }
}

/// An expression. It goes along the last parts by a loop, since there may be long chains.
#[cycle(expressions)]
pub(crate) fn push_exp(out: &mut Vec<u8>, e: &Exp) -> Result<(), AllocError>
    ensures { OnOk result (out.new.items ≡ out.old.items ++ exp_text (exp_of e.now)) }
{
    let mut endings = Vec::new(*out.allocator());
    let mut rest = e;
    'along: loop {
        push_front(out, rest)?;
        match behind(rest) {
            Left::Nothing => return push_endings(out, endings),
            Left::Last(last, ending) => {
                endings.push(ending)?;
                rest = last;
            }
        }
    }
}

// The front of an expression, which is all before the last part. Where there is no part, or steps
// stand behind it, that is all.
#[cycle(expressions)]
fn push_front(out: &mut Vec<u8>, e: &Exp) -> Result<(), AllocError>
    ensures { OnOk result (out.new.items ≡ out.old.items ++ front (shape_of (exp_of e.now))) }
{
    match shape_of(e) {
        Shape::Leaf(leaf) => push_leaf(out, leaf),
        Shape::One(one, _) => push_one(out, one),
        Shape::Two(two, a, _) => push_two(out, two, a),
        Shape::Between(low, _, _) => push_low(out, low),
        Shape::If(c, a, _) => push_if(out, c, a),
        Shape::Padd(ty, p, _) => push_padd(out, ty, p),
        Shape::Root(root, ty, _) => push_root(out, root, ty),
        Shape::Place(place, ty, p, path) => push_place(out, place, ty, p, path),
        Shape::Global(name, path) => push_global(out, name, path),
        Shape::Sel(whole, path) => push_sel(out, whole, path),
        Shape::Upd(whole, path, _) => push_upd(out, whole, path),
    }
}

// The front of a list of a word and one part, and a width between where there is one.
fn push_one(out: &mut Vec<u8>, one: One) -> Result<(), AllocError>
    ensures { OnOk result (out.new.items ≡ out.old.items ++ begun (one_parts (one_in one))) }
{
    push_word(out, one_head(one))?;
    match one {
        One::Cast(_, width) | One::ToWord(width) => {
            push_natural(out, u64::from(width))?;
            push(out, " ")
        }
        One::WordUnary(_) | One::ToNat | One::ToInt | One::Negate | One::Not => Ok(()),
    }
}

// The front of a list that begins with a word.
fn push_word(out: &mut Vec<u8>, head: Head) -> Result<(), AllocError>
    ensures { OnOk result (out.new.items ≡ out.old.items ++ begun (head_word head ∷ [])) }
{
    push(out, "(")?;
    push(out, head.word())?;
    push(out, " ")
}

// The front of an operation with two operands.
#[cycle(expressions)]
fn push_two(out: &mut Vec<u8>, two: Two, a: &Exp) -> Result<(), AllocError>
    ensures { OnOk result (out.new.items
        ≡ out.old.items ++ begun (two_parts (two_in two) (exp_text (exp_of a.now)))) }
{
    match sign(two) {
        Some(sign) => {
            push(out, "(")?;
            push_exp(out, a)?;
            push(out, " ")?;
            push(out, sign)?;
            push(out, " ")
        }
        None => {
            push_word(out, two_head(two))?;
            push_exp(out, a)?;
            push(out, " ")
        }
    }
}

fn push_low(out: &mut Vec<u8>, low: Number) -> Result<(), AllocError>
    ensures { OnOk result
        (out.new.items ≡ out.old.items ++ begun (number_text low ∷ codes "<=" ∷ [])) }
{
    push(out, "(")?;
    push_number(out, low)?;
    push(out, " <= ")
}

#[cycle(expressions)]
fn push_if(out: &mut Vec<u8>, c: &Exp, a: &Exp) -> Result<(), AllocError>
    ensures { OnOk result (out.new.items ≡ out.old.items ++ begun (head_word H.If
        ∷ exp_text (exp_of c.now) ∷ exp_text (exp_of a.now) ∷ [])) }
{
    push(out, "(if ")?;
    push_exp(out, c)?;
    push(out, " ")?;
    push_exp(out, a)?;
    push(out, " ")
}

#[cycle(expressions)]
fn push_padd(out: &mut Vec<u8>, ty: &CType, p: &Exp) -> Result<(), AllocError>
    ensures { OnOk result (out.new.items ≡ out.old.items ++ begun (head_word H.Padd
        ∷ type_text (type_of ty.now) ∷ exp_text (exp_of p.now) ∷ [])) }
{
    push(out, "(padd ")?;
    push_type(out, ty)?;
    push(out, " ")?;
    push_exp(out, p)?;
    push(out, " ")
}

fn push_root(out: &mut Vec<u8>, root: RootTest, ty: &CType) -> Result<(), AllocError>
    ensures { OnOk result (out.new.items ≡ out.old.items
        ++ begun (head_word (rows.root_head (root_in root)) ∷ type_text (type_of ty.now) ∷ [])) }
{
    push_word(out, root_head(root))?;
    push_type(out, ty)?;
    push(out, " ")
}

#[cycle(expressions)]
fn push_place(
    out: &mut Vec<u8>,
    place: PlaceHead,
    ty: &CType,
    p: &Exp,
    path: &Path,
) -> Result<(), AllocError>
    ensures { OnOk result (out.new.items
        ≡ out.old.items ++ headed (rows.place_head (place_in place)) (type_text (type_of ty.now)
        ∷ exp_text (exp_of p.now) ∷ step_texts (path_of path.now))) }
{
    push_word(out, place_head(place))?;
    push_type(out, ty)?;
    push(out, " ")?;
    push_exp(out, p)?;
    push_steps(out, path)?;
    push(out, ")")
}

#[cycle(expressions)]
fn push_global(out: &mut Vec<u8>, name: &str, path: &Path) -> Result<(), AllocError>
    ensures { OnOk result (out.new.items
        ≡ out.old.items ++ headed H.Global (name.now ∷ step_texts (path_of path.now))) }
{
    push(out, "(global ")?;
    push(out, name)?;
    push_steps(out, path)?;
    push(out, ")")
}

#[cycle(expressions)]
fn push_sel(out: &mut Vec<u8>, whole: &Exp, path: &Path) -> Result<(), AllocError>
    ensures { OnOk result (out.new.items ≡ out.old.items
        ++ headed H.Sel (exp_text (exp_of whole.now) ∷ step_texts (path_of path.now))) }
{
    push(out, "(sel ")?;
    push_exp(out, whole)?;
    push_steps(out, path)?;
    push(out, ")")
}

#[cycle(expressions)]
fn push_upd(out: &mut Vec<u8>, whole: &Exp, path: &Path) -> Result<(), AllocError>
    ensures { OnOk result (out.new.items ≡ out.old.items ++ begun (head_word H.Upd
        ∷ exp_text (exp_of whole.now) ∷ listed (step_texts (path_of path.now)) ∷ [])) }
{
    push(out, "(upd ")?;
    push_exp(out, whole)?;
    push(out, " ")?;
    push_list_of_steps(out, path)?;
    push(out, " ")
}

#[cycle(expressions)]
fn push_list_of_steps(out: &mut Vec<u8>, path: &Path) -> Result<(), AllocError>
    ensures { OnOk result
        (out.new.items ≡ out.old.items ++ listed (step_texts (path_of path.now))) }
{
    match path {
        Path::Here => push(out, "()"),
        Path::Field(member, rest) => {
            push(out, "(")?;
            push_field(out, *member)?;
            push_steps(out, rest)?;
            push(out, ")")
        }
        Path::Index(index, rest) => {
            push(out, "(")?;
            push_element(out, index)?;
            push_steps(out, rest)?;
            push(out, ")")
        }
    }
}

/// The steps of a path, each after a space. It goes along the path by a loop, since a text may have
/// long paths.
#[cycle(expressions)]
pub(crate) fn push_steps(out: &mut Vec<u8>, path: &Path) -> Result<(), AllocError>
    ensures { OnOk result
        (out.new.items ≡ out.old.items ++ each_after (codes " ") (step_texts (path_of path.now))) }
{
    let mut rest = path;
    'steps: loop {
        match rest {
            Path::Here => return Ok(()),
            Path::Field(member, next) => {
                push(out, " ")?;
                push_field(out, *member)?;
                rest = &**next;
            }
            Path::Index(index, next) => {
                push(out, " ")?;
                push_element(out, index)?;
                rest = &**next;
            }
        }
    }
}

// A step into an element.
#[cycle(expressions)]
fn push_element(out: &mut Vec<u8>, index: &Exp) -> Result<(), AllocError>
    ensures { OnOk result (out.new.items
        ≡ out.old.items ++ listed (element_word ∷ exp_text (exp_of index.now) ∷ [])) }
{
    push(out, "(i ")?;
    push_exp(out, index)?;
    push(out, ")")
}
