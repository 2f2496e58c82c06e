//! The values of expressions of constants alone.

ghost use Rattle.std.specs.Prelude.{◌≡◌, ◌<◌, ◌^◌, ◌&&◌, ◌||◌, true, not, neg_ℤ, int_lt, int_le, Option, None, Some, IfSome};
ghost use Rattle.std.specs.Option.{option_map};
ghost use Rattle.c_values.specs.Types.{address_width};
ghost use Rattle.c_values.specs.CodeTypes.{target_of, type_of};
ghost use Rattle.c_values.specs.CodeNumber.{number_op_of};
ghost use Rattle.c_values.specs.CodeWord.{word_op_of, shift_op_of, unary_op_of, word_test_of};
ghost use Rattle.c_values.specs.Layout.{shape_of, space, is_object};
ghost use Rattle.c_values.specs.Number.{is_between, number_op};
ghost use Rattle.c_values.specs.Path.{step_spot};
ghost use Rattle.c_values.specs.Value.{Truth, Bits, same_value};
ghost use Rattle.c_values.specs.Word.{word, word_shift, word_unary, unsigned, signed};
ghost use Rattle.c_memory.specs.CodePlace.{place_of, place_from};
ghost use Rattle.c_memory.specs.CodeStep.{step_of};
ghost use Rattle.expression_lang.specs.Evaluation.{cast_op, if_truth};
ghost use Rattle.expression_lang.specs.CodeExpression.{exp_of, path_of, cast_op_of};
ghost use Rattle.expression_lang.specs.Sort.{is_width};
ghost use Rattle.ac_expr.specs.CodeConstant.{constant_in};
ghost use Rattle.ac_expr.specs.CodeConstants.{by_truth, by_word, by_number, by_words, by_numbers, by_truths, narrow, join_words, test_words, of_width, address_of, by_address, pointer, moved_by, object_ok, number_of, computed, computed_at, as_constant};

use c_memory::{Place, Step, element_address, place_at};
use c_values::views::word;
use c_values::{
    CType, Layout, Number, NumberOp, ShiftOp, Target, UnaryOp, Word, WordOp, WordTest,
    address_width, align_of, cast, int, is_object, nat, number_op, same_number, same_truth,
    size_of, word_op, word_shift, word_test, word_unary,
};
use expression_lang::{CastOp, Exp, Path};

/// A value without parts.
#[derive(Clone, Copy)]
pub(crate) enum Constant {
    Word(Word),
    Number(Number),
    Truth(bool),
}

// A number, which has 128 bits.
fn narrow(n: Number) -> Option<Constant>
    ensures { option_map constant_in result ≡ narrow n }
{
    let _magnitude = n.magnitude();
    Some(Constant::Number(n))
}

fn join_words(op: WordOp, a: Constant, b: Constant) -> Option<Constant>
    ensures { option_map constant_in result
        ≡ by_words (join_words (word_op_of op)) (constant_in a) (constant_in b) }
{
    match a {
        Constant::Word(v) => match b {
            Constant::Word(w) => {
                if v.width() == w.width() {
                    Some(Constant::Word(word_op(op, v, w)))
                } else {
                    None
                }
            }
            _ => None,
        },
        _ => None,
    }
}

fn test_words(op: WordTest, a: Constant, b: Constant) -> Option<Constant>
    ensures { option_map constant_in result
        ≡ by_words (test_words (word_test_of op)) (constant_in a) (constant_in b) }
{
    match a {
        Constant::Word(v) => match b {
            Constant::Word(w) => {
                if v.width() == w.width() {
                    Some(Constant::Truth(word_test(op, v, w)))
                } else {
                    None
                }
            }
            _ => None,
        },
        _ => None,
    }
}

fn shift(op: ShiftOp, a: Constant, b: Constant) -> Option<Constant>
    ensures { option_map constant_in result
        ≡ by_word (λ w. by_number (λ n. Some (Bits (word_shift (shift_op_of op) w n)))
        (constant_in b)) (constant_in a) }
{
    match a {
        Constant::Word(w) => match b {
            Constant::Number(n) => Some(Constant::Word(word_shift(op, w, n))),
            _ => None,
        },
        _ => None,
    }
}

fn operated(op: UnaryOp, a: Constant) -> Option<Constant>
    ensures { option_map constant_in result
        ≡ by_word (λ w. Some (Bits (word_unary (unary_op_of op) w))) (constant_in a) }
{
    match a {
        Constant::Word(w) => Some(Constant::Word(word_unary(op, w))),
        _ => None,
    }
}

// Whether words may have so many bits.
fn is_width(width: u8) -> bool
    ensures { result ≡ is_width width }
{
    width == 8 || width == 16 || width == 32 || width == 64
}

fn recast(op: CastOp, width: u8, a: Constant) -> Option<Constant>
    ensures { option_map constant_in result
        ≡ by_word (λ w. of_width width (cast_op (cast_op_of op) width w)) (constant_in a) }
{
    match a {
        Constant::Word(w) => {
            if is_width(width) {
                Some(Constant::Word(match op {
                    CastOp::Zext | CastOp::Trunc => cast(false, width, w),
                    CastOp::Sext => cast(true, width, w),
                }))
            } else {
                None
            }
        }
        _ => None,
    }
}

fn as_nat(a: Constant) -> Option<Constant>
    ensures { option_map constant_in result
        ≡ by_word (λ w. narrow (unsigned w)) (constant_in a) }
{
    match a {
        Constant::Word(w) => narrow(nat(w)),
        _ => None,
    }
}

fn as_int(a: Constant) -> Option<Constant>
    ensures { option_map constant_in result
        ≡ by_word (λ w. narrow (signed w)) (constant_in a) }
{
    match a {
        Constant::Word(w) => narrow(int(w)),
        _ => None,
    }
}

fn as_word(width: u8, a: Constant) -> Option<Constant>
    ensures { option_map constant_in result
        ≡ by_number (λ n. of_width width (word width n)) (constant_in a) }
{
    match a {
        Constant::Number(n) => {
            if is_width(width) {
                Some(Constant::Word(word(width, n)))
            } else {
                None
            }
        }
        _ => None,
    }
}

fn calculated(op: NumberOp, a: Constant, b: Constant) -> Option<Constant>
    ensures { option_map constant_in result
        ≡ by_numbers (λ m n. narrow (number_op (number_op_of op) m n)) (constant_in a)
        (constant_in b) }
{
    match a {
        Constant::Number(m) => match b {
            Constant::Number(n) => match number_op(op, m, n) {
                Some(exact) => narrow(exact),
                None => None,
            },
            _ => None,
        },
        _ => None,
    }
}

fn negated(a: Constant) -> Option<Constant>
    ensures { option_map constant_in result
        ≡ by_number (λ n. narrow (neg_ℤ n)) (constant_in a) }
{
    match a {
        Constant::Number(n) => {
            let magnitude = n.magnitude();
            narrow(Number::new(!n.negative() && magnitude > 0, magnitude))
        }
        _ => None,
    }
}

// Whether a number is less than another.
fn is_less(a: Number, b: Number) -> bool
    ensures { result ≡ int_lt a b }
{
    if a.negative() {
        !b.negative() || b.magnitude() < a.magnitude()
    } else {
        !b.negative() && a.magnitude() < b.magnitude()
    }
}

// Whether a number is at most another.
fn is_at_most(a: Number, b: Number) -> bool
    ensures { result ≡ int_le a b }
{
    if a.negative() {
        !b.negative() || b.magnitude() <= a.magnitude()
    } else {
        !b.negative() && a.magnitude() <= b.magnitude()
    }
}

fn less(a: Constant, b: Constant) -> Option<Constant>
    ensures { option_map constant_in result
        ≡ by_numbers (λ m n. Some (Truth (int_lt m n))) (constant_in a) (constant_in b) }
{
    match a {
        Constant::Number(m) => match b {
            Constant::Number(n) => Some(Constant::Truth(is_less(m, n))),
            _ => None,
        },
        _ => None,
    }
}

fn at_most(a: Constant, b: Constant) -> Option<Constant>
    ensures { option_map constant_in result
        ≡ by_numbers (λ m n. Some (Truth (int_le m n))) (constant_in a) (constant_in b) }
{
    match a {
        Constant::Number(m) => match b {
            Constant::Number(n) => Some(Constant::Truth(is_at_most(m, n))),
            _ => None,
        },
        _ => None,
    }
}

fn between(low: Number, a: Constant, high: Number) -> Option<Constant>
    ensures { option_map constant_in result
        ≡ by_number (λ n. Some (Truth (is_between low n high))) (constant_in a) }
{
    match a {
        Constant::Number(n) => { Some(Constant::Truth(is_at_most(low, n) && is_at_most(n, high))) }
        _ => None,
    }
}

// Whether two values are the same.
fn is_same(a: Constant, b: Constant) -> bool
    ensures { result ≡ same_value (constant_in a) (constant_in b) }
{
    match a {
        Constant::Word(v) => match b {
            Constant::Word(w) => v.width() == w.width() && v.bits() == w.bits(),
            _ => false,
        },
        Constant::Number(m) => match b {
            Constant::Number(n) => same_number(m, n),
            _ => false,
        },
        Constant::Truth(x) => match b {
            Constant::Truth(y) => same_truth(x, y),
            _ => false,
        },
    }
}

fn both(a: Constant, b: Constant) -> Option<Constant>
    ensures { option_map constant_in result
        ≡ by_truths (λ x y. x && y) (constant_in a) (constant_in b) }
{
    match a {
        Constant::Truth(x) => match b {
            Constant::Truth(y) => Some(Constant::Truth(x && y)),
            _ => None,
        },
        _ => None,
    }
}

fn either(a: Constant, b: Constant) -> Option<Constant>
    ensures { option_map constant_in result
        ≡ by_truths (λ x y. x || y) (constant_in a) (constant_in b) }
{
    match a {
        Constant::Truth(x) => match b {
            Constant::Truth(y) => Some(Constant::Truth(x || y)),
            _ => None,
        },
        _ => None,
    }
}

fn implied(a: Constant, b: Constant) -> Option<Constant>
    ensures { option_map constant_in result
        ≡ by_truths (λ x y. not x || y) (constant_in a) (constant_in b) }
{
    match a {
        Constant::Truth(x) => match b {
            Constant::Truth(y) => Some(Constant::Truth(!x || y)),
            _ => None,
        },
        _ => None,
    }
}

fn denied(a: Constant) -> Option<Constant>
    ensures { option_map constant_in result
        ≡ by_truth (λ x. Some (Truth (not x))) (constant_in a) }
{
    match a {
        Constant::Truth(x) => Some(Constant::Truth(!x)),
        _ => None,
    }
}

fn chosen(c: Constant, a: Constant, b: Constant) -> Option<Constant>
    ensures { option_map constant_in result
        ≡ by_truth (λ x. Some (if_truth x (constant_in a) (constant_in b))) (constant_in c) }
{
    match c {
        Constant::Truth(x) => Some(if x { a } else { b }),
        _ => None,
    }
}

// How many addresses there are.
fn space(target: Target) -> u128
    ensures { result ≡ 2 ^ address_width (target_of target) }
{
    match target {
        Target::Ilp32 => 1 << 32,
        Target::Lp64 => 1 << 64,
    }
}

// The address of a pointer.
fn address(l: &Layout, a: Constant) -> Option<u64>
    ensures value { result ≡ address_of l.now (constant_in a) }
    ensures fits { IfSome result (λ address. address < space l.now) }
{
    let target = l.target();
    match a {
        Constant::Word(w) => {
            if w.width() == address_width(target) && u128::from(w.bits()) < space(target) {
                Some(w.bits())
            } else {
                None
            }
        }
        _ => None,
    }
}

fn pointer(l: &Layout, address: u64) -> Option<Constant>
    requires { address < space l.now }
    ensures { option_map constant_in result ≡ pointer l.now address }
{
    Some(Constant::Word(Word::new(address_width(l.target()), address)))
}

fn moved(l: &Layout, t: &CType, a: Constant, b: Constant) -> Option<Constant>
    ensures { option_map constant_in result
        ≡ by_address l.now (λ a. by_number (moved_by l.now (type_of t.now) a) (constant_in b))
        (constant_in a) }
{
    let address = address(l, a)?;
    match b {
        Constant::Number(n) => {
            if is_object(l, t) {
                pointer(l, element_address(l.target(), address, n, size_of(l, t)))
            } else {
                None
            }
        }
        _ => None,
    }
}

// Whether an object of the type may lie at a pointer.
fn object_ok(l: &Layout, t: &CType, a: Constant) -> Option<Constant>
    ensures { option_map constant_in result
        ≡ by_address l.now (object_ok l.now (type_of t.now)) (constant_in a) }
{
    let address = address(l, a)?;
    if !is_object(l, t) {
        return None;
    }
    let end = u128::from(address) + u128::from(size_of(l, t));
    Some(Constant::Truth(
        address % u64::from(align_of(l, t)) == 0 && address != 0 && end <= space(l.target()),
    ))
}

// Where one step leads.
fn place_after<'a>(l: &'a Layout, t: &'a CType, address: u64, step: Step) -> Option<Place<'a>>
    requires object { is_object l.now (type_of t.now) ≡ true }
    requires address { address < space l.now }
    ensures place { option_map (λ p. place_of l.now p.address (type_of p.ty.now)) result
        ≡ place_from (space l.now) address
        (step_spot (shape_of l.now (type_of t.now)) (step_of step)) }
    ensures object { IfSome result (λ p. is_object l.now (type_of p.ty.now) ≡ true) }
    ensures address { IfSome result (λ p. p.address < space l.now) }
{
    place_at(l, t, address, &[step])
}

// The number that a constant is.
fn number_of(a: Option<Constant>) -> Option<Number>
    ensures { result ≡ number_of (option_map constant_in a) }
{
    match a? {
        Constant::Number(n) => Some(n),
        _ => None,
    }
}

/// The constant that an expression of constants alone is, as far as 128 bits go. There is none
/// where a part of it is no constant, or isn't of the sort that its head asks for. It takes no
/// memory.
pub fn constant_of(e: &Exp, l: &Layout) -> Option<Exp>
    ensures { option_map exp_of result ≡ as_constant (computed l.now (exp_of e.now)) }
{
    match computed(e, l)? {
        Constant::Word(w) => Some(Exp::Word(w)),
        Constant::Number(n) => Some(Exp::Number(n)),
        Constant::Truth(b) => Some(Exp::Truth(b)),
    }
}

/// The value of an expression of constants alone, as far as 128 bits go. There is none where a part
/// of it is no constant, or isn't of the sort that its head asks for.
#[cycle(computed)]
pub(crate) fn computed(e: &Exp, l: &Layout) -> Option<Constant>
    ensures { option_map constant_in result ≡ computed l.now (exp_of e.now) }
{
    match e {
        Exp::Word(w) => Some(Constant::Word(*w)),
        Exp::Number(n) => narrow(*n),
        Exp::Truth(b) => Some(Constant::Truth(*b)),
        Exp::WordUnary(op, a) => operated(*op, computed(a, l)?),
        Exp::Cast(op, width, a) => recast(*op, *width, computed(a, l)?),
        Exp::ToNat(a) => as_nat(computed(a, l)?),
        Exp::ToInt(a) => as_int(computed(a, l)?),
        Exp::ToWord(width, a) => as_word(*width, computed(a, l)?),
        Exp::Negate(a) => negated(computed(a, l)?),
        Exp::Between(low, a, high) => between(*low, computed(a, l)?, *high),
        Exp::Not(a) => denied(computed(a, l)?),
        Exp::PtrOk(t, a) => object_ok(l, t, computed(a, l)?),
        Exp::WordBinary(op, a, b) => join_words(*op, computed(a, l)?, computed(b, l)?),
        Exp::WordShift(op, a, n) => shift(*op, computed(a, l)?, computed(n, l)?),
        Exp::WordCompare(op, a, b) => test_words(*op, computed(a, l)?, computed(b, l)?),
        Exp::Arith(op, a, b) => calculated(*op, computed(a, l)?, computed(b, l)?),
        Exp::Lt(a, b) => less(computed(a, l)?, computed(b, l)?),
        Exp::Le(a, b) => at_most(computed(a, l)?, computed(b, l)?),
        Exp::Eq(a, b) => Some(Constant::Truth(is_same(computed(a, l)?, computed(b, l)?))),
        Exp::And(a, b) => both(computed(a, l)?, computed(b, l)?),
        Exp::Or(a, b) => either(computed(a, l)?, computed(b, l)?),
        Exp::Imp(a, b) => implied(computed(a, l)?, computed(b, l)?),
        Exp::Padd(t, p, n) => moved(l, t, computed(p, l)?, computed(n, l)?),
        Exp::If(c, a, b) => {
            let test = computed(c, l)?;
            let first = computed(a, l)?;
            chosen(test, first, computed(b, l)?)
        }
        Exp::At(t, p, path) => {
            let address = address(l, computed(p, l)?)?;
            if is_object(l, t) {
                along(l, t, address, path)
            } else {
                None
            }
        }
        _ => None,
    }
}

// The address at the end of a path. It goes along the path by a loop.
#[cycle(computed)]
fn along(l: &Layout, t: &CType, address: u64, path: &Path) -> Option<Constant>
    requires object { is_object l.now (type_of t.now) ≡ true }
    requires address { address < space l.now }
    ensures { option_map constant_in result
        ≡ computed_at l.now (path_of path.now) (shape_of l.now (type_of t.now)) address }
{
    let mut whole = t;
    let mut address = address;
    let mut rest = path;
    'steps: loop {
        match rest {
            Path::Here => return pointer(l, address),
            Path::Field(k, next) => {
                let Some(place) = place_after(l, whole, address, Step::Field(*k)) else {
                    return None;
                };
                whole = place.ty;
                address = place.address;
                rest = &**next;
            }
            Path::Index(e, next) => {
                let Some(n) = number_of(computed(e, l)) else {
                    return None;
                };
                let Some(place) = place_after(l, whole, address, Step::Index(n)) else {
                    return None;
                };
                whole = place.ty;
                address = place.address;
                rest = &**next;
            }
        }
    }
}
