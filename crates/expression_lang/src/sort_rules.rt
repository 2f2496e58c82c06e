//! The sort of an expression, from the sorts of its operands.

ghost use Rattle.std.specs.Prelude.{◌≡◌, ◌^◌, true, ◌&&◌, nat_lt, IfSome};
ghost use Rattle.std.specs.Option.{option_map};
ghost use Rattle.c_values.specs.Types.{address_width};
ghost use Rattle.c_values.specs.Layout.{IsLayout, is_object, is_complete, shape_of};
ghost use Rattle.c_values.specs.CodeTypes.{type_of};
ghost use Rattle.c_values.specs.CodeNumber.{number_op_of};
ghost use Rattle.expression_lang.specs.Sort.{is_width, word_width, is_number, is_truth, is_word_of, is_unary, word_sort, number_sort, truth_sort, where_holds, of_words, of_word, are_same, cast_fits, of_shape, sort_at};
ghost use Rattle.expression_lang.specs.declared.arity.Arity.TheVariants.{Unary, Binary};
ghost use Rattle.expression_lang.specs.CodeArity.{arity_of};
ghost use Rattle.expression_lang.specs.CodeSortRules.{unary_sort, binary_sort};
ghost use Rattle.expression_lang.specs.CodeAlong.{parts_type};
ghost use Rattle.expression_lang.specs.CodeExpression.{exp_of, cast_op_of};
ghost use Rattle.expression_lang.specs.CodeSort.{sort_value};

use crate::expression::{CastOp, Exp};
use crate::sort::{Scalar, Sort};
use c_values::{CType, Layout, NumberOp, Word, address_width, is_object, width_of};

/// The sort of words of so many bits.
pub(crate) fn word<'a>(width: u8) -> Option<Sort<'a>>
    ensures { option_map sort_value result ≡ word_sort width }
{
    Some(Sort::Of(Scalar::Word(width)))
}

/// The sort of numbers, where a test holds.
pub(crate) fn number<'a>(holds: bool) -> Option<Sort<'a>>
    ensures { option_map sort_value result ≡ where_holds holds number_sort }
{
    if holds {
        Some(Sort::Of(Scalar::Num))
    } else {
        None
    }
}

/// The sort of truth values, where a test holds.
pub(crate) fn truth<'a>(holds: bool) -> Option<Sort<'a>>
    ensures { option_map sort_value result ≡ where_holds holds truth_sort }
{
    if holds {
        Some(Sort::Of(Scalar::Truth))
    } else {
        None
    }
}

/// Whether words have this width.
pub(crate) fn is_width(width: u8) -> bool
    ensures { result ≡ is_width width }
{
    matches!(width, 8 | 16 | 32 | 64)
}

/// The width of a word's sort.
pub(crate) fn word_width(sort: Option<Sort<'_>>) -> Option<u8>
    ensures { result ≡ word_width (option_map sort_value sort.entry) }
{
    match sort {
        Some(Sort::Of(Scalar::Word(width))) => Some(width),
        Some(Sort::Of(Scalar::Num | Scalar::Truth)) | Some(Sort::Parts(_)) | None => None,
    }
}

/// Whether it is the sort of words of a width.
pub fn is_word_of(width: u8, sort: Option<Sort<'_>>) -> bool
    ensures { result ≡ is_word_of width (option_map sort_value sort.entry) }
{
    match sort {
        Some(Sort::Of(Scalar::Word(own))) => own == width,
        Some(Sort::Of(Scalar::Num | Scalar::Truth)) | Some(Sort::Parts(_)) | None => false,
    }
}

/// Whether it is the sort of numbers.
pub fn is_number(sort: Option<Sort<'_>>) -> bool
    ensures { result ≡ is_number (option_map sort_value sort.entry) }
{
    match sort {
        Some(Sort::Of(Scalar::Num)) => true,
        Some(Sort::Of(Scalar::Word(_) | Scalar::Truth)) | Some(Sort::Parts(_)) | None => false,
    }
}

/// Whether it is the sort of truth values.
pub fn is_truth(sort: Option<Sort<'_>>) -> bool
    ensures { result ≡ is_truth (option_map sort_value sort.entry) }
{
    match sort {
        Some(Sort::Of(Scalar::Truth)) => true,
        Some(Sort::Of(Scalar::Word(_) | Scalar::Num)) | Some(Sort::Parts(_)) | None => false,
    }
}

/// Whether there are two sorts, and they are the same.
pub fn are_same(a: Option<Sort<'_>>, b: Option<Sort<'_>>) -> bool
    ensures { result ≡ are_same (option_map sort_value a.entry) (option_map sort_value b.entry) }
{
    match a {
        Some(Sort::Of(scalar)) => match b {
            Some(Sort::Of(other)) => scalar == other,
            Some(Sort::Parts(_)) | None => false,
        },
        Some(Sort::Parts(t)) => match b {
            Some(Sort::Parts(u)) => t == u,
            Some(Sort::Of(_)) | None => false,
        },
        None => false,
    }
}

/// Of two words of one width: a word of that width.
pub(crate) fn word_of_words<'a>(a: Option<Sort<'a>>, b: Option<Sort<'a>>) -> Option<Sort<'a>>
    ensures { option_map sort_value result ≡ of_words (word_width (option_map sort_value a.entry))
        (word_width (option_map sort_value b.entry)) word_sort }
{
    match word_width(a) {
        Some(width) if is_word_of(width, b) => word(width),
        Some(_) | None => None,
    }
}

/// Of two words of one width: a truth value.
pub(crate) fn truth_of_words<'a>(a: Option<Sort<'a>>, b: Option<Sort<'a>>) -> Option<Sort<'a>>
    ensures { option_map sort_value result ≡ of_words (word_width (option_map sort_value a.entry))
        (word_width (option_map sort_value b.entry)) (λ n. truth_sort) }
{
    match word_width(a) {
        Some(width) => truth(is_word_of(width, b)),
        None => None,
    }
}

/// Of a word, where a test holds: a word of its width.
pub(crate) fn word_of_word<'a>(holds: bool, a: Option<Sort<'a>>) -> Option<Sort<'a>>
    ensures { option_map sort_value result
        ≡ where_holds holds (of_word (word_width (option_map sort_value a.entry)) word_sort) }
{
    if !holds {
        return None;
    }
    match word_width(a) {
        Some(width) => word(width),
        None => None,
    }
}

/// Of a word: a number.
pub(crate) fn number_of_word<'a>(a: Option<Sort<'a>>) -> Option<Sort<'a>>
    ensures { option_map sort_value result ≡ of_word (word_width (option_map sort_value a.entry))
        (λ n. number_sort) }
{
    number(word_width(a).is_some())
}

/// Of a word: a word of another width.
pub(crate) fn cast_sort<'a>(op: CastOp, width: u8, a: Option<Sort<'a>>) -> Option<Sort<'a>>
    ensures { option_map sort_value result ≡ of_word (word_width (option_map sort_value a.entry))
        (λ from. where_holds (is_width width && cast_fits (cast_op_of op) from width)
        (word_sort width)) }
{
    match word_width(a) {
        Some(from) => {
            if is_width(width) && cast_fits(op, from, width) {
                word(width)
            } else {
                None
            }
        }
        None => None,
    }
}

fn cast_fits(op: CastOp, from: u8, to: u8) -> bool
    ensures { result ≡ cast_fits (cast_op_of op) from to }
{
    match op {
        CastOp::Zext | CastOp::Sext => from < to,
        CastOp::Trunc => to < from,
    }
}

/// Of a number: a word.
pub(crate) fn word_of_number<'a>(width: u8, a: Option<Sort<'a>>) -> Option<Sort<'a>>
    ensures { option_map sort_value result
        ≡ where_holds (is_width width && is_number (option_map sort_value a.entry))
        (word_sort width) }
{
    if is_width(width) && is_number(a) {
        word(width)
    } else {
        None
    }
}

/// Whether an operation has one operand alone.
pub(crate) fn is_unary(op: NumberOp) -> bool
    ensures { result ≡ is_unary (number_op_of op) }
{
    match op {
        NumberOp::Neg => true,
        NumberOp::Add | NumberOp::Sub | NumberOp::Mul | NumberOp::Div | NumberOp::Mod => false,
    }
}

// The sort of what lies at a place of a type.
fn sort_at<'a>(l: &Layout, t: &'a CType) -> Option<Sort<'a>>
    ensures { is_complete (shape_of l.now (type_of t.now)) ≡ true → option_map sort_value result
        ≡ sort_at (shape_of l.now (type_of t.now)) }
{
    let target = l.target();
    match t {
        CType::Int(integer) => word(width_of(target, *integer)),
        CType::Ptr(_) => word(address_width(target)),
        CType::Struct(_) => Some(Sort::Parts(t)),
        CType::Array(_, _) => Some(Sort::Parts(t)),
        CType::Void => None,
    }
}

/// Whether a root can be of a type: it is a complete object type, and the address has a pointer's
/// width.
pub fn is_root(l: &Layout, t: &CType, address: Option<Sort<'_>>) -> bool
    ensures { result ≡ (is_object l.now (type_of t.now) && is_word_of (address_width l.now.target)
        (option_map sort_value address.entry)) }
{
    is_object(l, t) && is_word_of(address_width(l.target()), address)
}

/// The sort of a word.
pub(crate) fn literal<'a>(w: Word) -> Option<Sort<'a>>
    ensures { option_map sort_value result
        ≡ where_holds (is_width w.width && nat_lt w.bits (2 ^ w.width)) (word_sort w.width) }
{
    // Its bits are those of its width.
    let _ = w.bits();
    word(w.width())
}

/// The sort of the address of a part, where a test holds and there is a part.
pub(crate) fn address_sort<'a>(holds: bool, part: Option<&CType>, l: &Layout) -> Option<Sort<'a>>
    ensures { option_map sort_value result ≡ where_holds holds (of_shape
        (option_map (λ u. shape_of l.now (type_of u.now)) part.entry)
        (λ s. word_sort (address_width l.now.target))) }
{
    if holds && part.is_some() {
        word(address_width(l.target()))
    } else {
        None
    }
}

/// The sort of a part of a complete type, where a test holds and there is a part.
pub fn part_sort<'a>(holds: bool, part: Option<&'a CType>, l: &Layout) -> Option<Sort<'a>>
    ensures sort { (holds ≡ true →
        IfSome (option_map (λ u. shape_of l.now (type_of u.now)) part.entry)
        (λ s. is_complete s ≡ true)) →
        option_map sort_value result
        ≡ where_holds holds
        (of_shape (option_map (λ u. shape_of l.now (type_of u.now)) part.entry) sort_at) }
    ensures layout { IsLayout l.now }
{
    let _ = l.target();
    if !holds {
        return None;
    }
    match part {
        Some(t) => sort_at(l, t),
        None => None,
    }
}

/// The type whose parts a sort is of.
pub(crate) fn parts_in<'a>(sort: Option<Sort<'a>>) -> Option<&'a CType>
    ensures { option_map (λ t. type_of t.now) result
        ≡ parts_type (option_map sort_value sort.entry) }
{
    match sort {
        Some(Sort::Parts(t)) => Some(t),
        Some(Sort::Of(_)) | None => None,
    }
}

/// A sort, where two others are the same.
pub(crate) fn where_same<'a>(
    a: Option<Sort<'_>>,
    b: Option<Sort<'_>>,
    sort: Option<Sort<'a>>,
) -> Option<Sort<'a>>
    ensures { option_map sort_value result ≡ where_holds
        (are_same (option_map sort_value a.entry) (option_map sort_value b.entry))
        (option_map sort_value sort.entry) }
{
    if are_same(a, b) { sort } else { None }
}

/// The sort of an operation on one operand.
#[inline(never)]
pub(crate) fn unary_sort<'a>(e: &Exp, a: Option<Sort<'a>>, l: &Layout) -> Option<Sort<'a>>
    requires { arity_of (exp_of e.now) ≡ Unary }
    ensures { option_map sort_value result
        ≡ unary_sort l.now (exp_of e.now) (option_map sort_value a.entry) }
{
    match e {
        Exp::WordUnary(_, _) => word_of_word(true, a),
        Exp::Cast(op, width, _) => cast_sort(*op, *width, a),
        Exp::ToNat(_) => number_of_word(a),
        Exp::ToInt(_) => number_of_word(a),
        Exp::ToWord(width, _) => word_of_number(*width, a),
        Exp::Negate(_) => number(is_number(a)),
        Exp::Between(_, _, _) => truth(is_number(a)),
        Exp::Not(_) => truth(is_truth(a)),
        Exp::Tagged(t, _) => truth(is_root(l, t, a)),
        Exp::PtrOk(t, _) => truth(is_root(l, t, a)),
        _ => unreachable!(),
    }
}

/// The sort of an operation on two operands.
#[inline(never)]
pub(crate) fn binary_sort<'a>(
    e: &Exp,
    a: Option<Sort<'a>>,
    b: Option<Sort<'a>>,
    l: &Layout,
) -> Option<Sort<'a>>
    requires { arity_of (exp_of e.now) ≡ Binary }
    ensures { option_map sort_value result
        ≡ binary_sort l.now (exp_of e.now) (option_map sort_value a.entry)
        (option_map sort_value b.entry) }
{
    match e {
        Exp::WordBinary(_, _, _) => word_of_words(a, b),
        Exp::WordShift(_, _, _) => word_of_word(is_number(b), a),
        Exp::WordCompare(_, _, _) => truth_of_words(a, b),
        Exp::Arith(op, _, _) => number(!is_unary(*op) && is_number(a) && is_number(b)),
        Exp::Lt(_, _) => truth(is_number(a) && is_number(b)),
        Exp::Le(_, _) => truth(is_number(a) && is_number(b)),
        Exp::Eq(_, _) => truth(are_same(a, b)),
        Exp::Padd(t, _, _) => {
            if is_root(l, t, a) && is_number(b) {
                word(address_width(l.target()))
            } else {
                None
            }
        }
        _ => unreachable!(),
    }
}

/// The sort of a connective, by whether each operand is a truth value.
pub(crate) fn connective_sort<'a>(a: bool, b: bool) -> Option<Sort<'a>>
    ensures { option_map sort_value result ≡ where_holds (a && b) truth_sort }
{
    truth(a && b)
}

/// The sort of a choice between two of one sort.
pub(crate) fn choice_sort<'a>(
    c: Option<Sort<'_>>,
    a: Option<Sort<'a>>,
    b: Option<Sort<'_>>,
) -> Option<Sort<'a>>
    ensures { option_map sort_value result ≡ where_holds
        (is_truth (option_map sort_value c.entry)
        && are_same (option_map sort_value a.entry) (option_map sort_value b.entry))
        (option_map sort_value a.entry) }
{
    if is_truth(c) {
        where_same(a, b, a)
    } else {
        None
    }
}
