//! What operations stand for, by what their operands stand for.

ghost use Rattle.std.specs.Prelude.{◌≡◌, IfOk, IfSome, IfNone};
ghost use Rattle.std.specs.Option.{option_map};
ghost use Rattle.c_values.specs.CodeTypes.{type_of};
ghost use Rattle.c_values.specs.CodeWord.{word_op_of, unary_op_of, word_test_of};
ghost use Rattle.c_values.specs.CodeNumber.{number_op_of};
ghost use Rattle.c_values.specs.Number.{Div};
ghost use Rattle.expression_lang.specs.Expression as plain;
ghost use Rattle.expression_lang.specs.CodeExpression.{exp_of, path_of, cast_op_of, kind_of};
ghost use Rattle.expression_lang.specs.CodeShape.{UnaryOne, whole_root, whole_place};
ghost use Rattle.expression_lang.specs.CodeShapeView.{leaf_in, one_in, two_in, root_in, place_in};
ghost use Rattle.ac_expr.specs.SameExp.{same_exp};
ghost use Rattle.rule_trees.specs.RuleTree as trees;
ghost use Rattle.rule_trees.specs.RuleTree.{no_trees};
ghost use Rattle.rule_word.specs.Scopes.{names_in, width_in};
ghost use Rattle.rule_word.specs.Bases.{base_in, signed_base_in, where_numbers, or_words, oldest_range};
ghost use Rattle.rule_word.specs.WordsAbstracted.{one, two, by_rule, words_of, binary_at, unary_at, or_zero, equality_kind, made, order};
ghost use Rattle.rule_word.specs.CodeRule.{rule_of};
ghost use Rattle.word_abstract.specs.CodeMeaning as spec;
ghost use Rattle.word_abstract.specs.CodeMeaning.{meaning, leaf_standing, operator, over_word, cast_standing, negated, denied, compared, equal, connected, over_words, both, operation_at, negation_at, operation, one_standing, two_standing};
ghost use Rattle.word_abstract.specs.CodeTrees.{with_trees};
ghost use Rattle.word_abstract.specs.CodeViews.{seen_of, base_of};
ghost use Rattle.word_abstract.specs.CodeAbstracted.{abstracted_in};
ghost use Rattle.word_abstract.specs.CodeStanding.{standing_in};
ghost use Rattle.word_abstract.specs.CodeRanges.{natural_in, integer_in};
ghost use Rattle.expression_lang.specs.CodeSort.{sort_value};
ghost use Rattle.word_abstract.specs.CodePoints.{names_at, scope_at, known_at, numbers_at};

use crate::abstracted::{Abstracted, leaf, made, over_one, over_two};
use crate::paths::Indices;
use crate::points::Point;
use crate::ranges::{Ranges, Sum, oldest_range};
use crate::standing::{Standing, boxed, word_of};
use crate::trees::{alone, and_then, joined, over};
use crate::views::{Base, Seen, first_base, kind_at, seen_for};
use c_values::{CType, Number, NumberOp, UnaryOp, WordOp, WordTest, copy_of};
use expression_lang::{
    CastOp, Exp, Kind, Leaf, One, Path, PlaceHead, RootTest, Scalar, Sort, Two, whole_leaf,
    whole_one, whole_place, whole_root, whole_two,
};
use rule_trees::Tree;
use rule_word::Rule;
use std::alloc::{AllocError, Global};

// By the rule for a head that no other rule is for.
fn operator(alloc: Global, e: Exp, parts: Vec<Tree<Rule>>) -> Result<Box<Standing>, AllocError>
    ensures { IfOk result (λ s. standing_in s.value
        ≡ operator (exp_of e) (with_trees parts.items no_trees)) }
{
    let x = made(alloc, Rule::Op, e, parts)?;
    boxed(alloc, Standing::At(Base::Words, 0, x))
}

fn fixed(alloc: Global, x: Abstracted) -> Result<Box<Standing>, AllocError>
    ensures { IfOk result (λ s. standing_in s.value ≡ spec.Fixed (abstracted_in x)) }
{
    boxed(alloc, Standing::Fixed(x))
}

// A name, by its kind.
fn variable(alloc: Global, kind: Option<Kind>, name: &str) -> Result<Box<Standing>, AllocError>
    ensures { IfOk result (λ s. standing_in s.value
        ≡ spec.var_standing (option_map kind_of kind) name.now) }
{
    let x = leaf(alloc, Rule::Var, Exp::Var(String::from_str(alloc, name)?))?;
    let standing = match kind {
        Some(Kind::Word(width)) => Standing::At(Base::Words, width, x),
        Some(Kind::Nat(width)) => Standing::At(Base::Naturals, width, x),
        Some(Kind::Int(width)) => Standing::At(Base::Integers, width, x),
        Some(Kind::Bool) | None => Standing::Fixed(x),
    };
    boxed(alloc, standing)
}

/// A name or a constant.
pub(crate) fn leaf_at(
    alloc: Global,
    at: &Point<'_>,
    e: Leaf<'_>,
) -> Result<Box<Standing>, AllocError>
    ensures { IfOk result (λ s. standing_in s.value
        ≡ leaf_standing (names_in (λ k. k) (names_at at.now)) (leaf_in e.entry)) }
{
    match e {
        Leaf::Var(name) => variable(alloc, at.kind(name), name),
        Leaf::Word(word) => boxed(alloc, Standing::Constant(word)),
        Leaf::Number(number) => fixed(alloc, leaf(alloc, Rule::Const, Exp::Number(number))?),
        Leaf::Truth(truth) => fixed(alloc, leaf(alloc, Rule::Const, Exp::Truth(truth))?),
    }
}

// A head over one operand as it is.
fn over_word(alloc: Global, head: One, a: Box<Standing>) -> Result<Box<Standing>, AllocError>
    ensures { IfOk result (λ s. standing_in s.value
        ≡ over_word (one_in head) (meaning (standing_in a.value) spec.AsWord)) }
{
    let Abstracted { right, tree } = word_of(alloc, a)?;
    operator(alloc, whole_one(head, right), alone(alloc, tree)?)
}

// The base of a negation.
fn negation_at(at: &Point<'_>, op: UnaryOp, width: u8, a: &Standing) -> Base
    ensures { base_of result
        ≡ negation_at same_exp (numbers_at at.now) (scope_at at.now) (names_at at.now)
        (known_at at.now) (unary_op_of op) width (standing_in a.now) }
{
    if op != UnaryOp::Wneg || !at.setting.numbers {
        return Base::Words;
    }
    let ranges = Ranges {
        sum: Sum::Negated(a),
        width,
        is_signed: false,
    };
    range_at(at, &ranges)
}

// The numbers whose range is known, or words.
fn range_at(at: &Point<'_>, ranges: &Ranges<'_>) -> Base
    ensures { base_of result ≡ or_words
        (oldest_range same_exp (known_at at.now).conditions
        (natural_in ranges.now)
        (integer_in ranges.now) (known_at at.now).facts) }
{
    match oldest_range(ranges, at.conditions, at.known) {
        Some(base) => base,
        None => Base::Words,
    }
}

fn number_or_word(at: &Point<'_>, base: Base) -> Base
    ensures { base_of result
        ≡ where_numbers (numbers_at at.now) (base_of base) }
{
    if at.setting.numbers {
        base
    } else {
        Base::Words
    }
}

// The base of a sum, a difference or a product.
fn sum_at(at: &Point<'_>, op: NumberOp, width: u8, a: &Standing, b: &Standing) -> Base
    ensures { base_of result ≡ base_in same_exp (numbers_at at.now) (known_at at.now) width
        (plain.Arith (number_op_of op) (meaning (standing_in a.now) spec.AsNatural).right
        (meaning (standing_in b.now) spec.AsNatural).right)
        (plain.Arith (number_op_of op) (meaning (standing_in a.now) spec.AsInteger).right
        (meaning (standing_in b.now) spec.AsInteger).right) }
{
    if !at.setting.numbers {
        return Base::Words;
    }
    let ranges = Ranges {
        sum: Sum::Arith(op, a, b),
        width,
        is_signed: false,
    };
    range_at(at, &ranges)
}

// The base of a signed quotient.
fn quotient_at(at: &Point<'_>, width: u8, a: &Standing, b: &Standing) -> Base
    ensures { base_of result ≡ signed_base_in same_exp (numbers_at at.now) (known_at at.now) width
        (plain.Arith Div (meaning (standing_in a.now) spec.AsInteger).right
        (meaning (standing_in b.now) spec.AsInteger).right) }
{
    if !at.setting.numbers {
        return Base::Words;
    }
    let ranges = Ranges {
        sum: Sum::Arith(NumberOp::Div, a, b),
        width,
        is_signed: true,
    };
    match oldest_range(&ranges, at.conditions, at.known) {
        Some(_) => Base::Integers,
        None => Base::Words,
    }
}

// The base of an operation.
fn operation_at(at: &Point<'_>, op: WordOp, width: u8, a: &Standing, b: &Standing) -> Base
    ensures { base_of result
        ≡ operation_at same_exp (numbers_at at.now) (scope_at at.now) (names_at at.now)
        (known_at at.now) (word_op_of op) width (standing_in a.now) (standing_in b.now) }
{
    match op {
        WordOp::Wadd => sum_at(at, NumberOp::Add, width, a, b),
        WordOp::Wsub => sum_at(at, NumberOp::Sub, width, a, b),
        WordOp::Wmul => sum_at(at, NumberOp::Mul, width, a, b),
        WordOp::Wsdiv => quotient_at(at, width, a, b),
        WordOp::Wudiv | WordOp::Wumod => number_or_word(at, Base::Naturals),
        WordOp::Wsmod => number_or_word(at, Base::Integers),
        WordOp::Wand | WordOp::Wor | WordOp::Wxor => Base::Words,
    }
}

// The rule of an operation on numbers.
struct Arithmetic {
    rule: Rule,
    op: NumberOp,
    view: Seen,
}

// What an operation on words is at a base, where it is one on numbers there.
fn on_numbers(op: WordOp, base: Base) -> Option<Arithmetic>
    ensures some { IfSome result (λ it. (a b : spec.Standing) →
        binary_at (word_op_of op) (base_of base) (both a b)
        ≡ by_rule (rule_of it.rule) (number_op_of it.op)
        (meaning a (seen_of it.view), meaning b (seen_of it.view))) }
    ensures none { IfNone result ((a b : spec.Standing) →
        binary_at (word_op_of op) (base_of base) (both a b) ≡ words_of (word_op_of op) (both a b)) }
{
    let view = match base {
        Base::Words => return None,
        Base::Naturals => Seen::AsNatural,
        Base::Integers => Seen::AsInteger,
    };
    let (rule, op) = match op {
        WordOp::Wadd => (Rule::Add, NumberOp::Add),
        WordOp::Wsub => (Rule::Sub, NumberOp::Sub),
        WordOp::Wmul => (Rule::Mul, NumberOp::Mul),
        WordOp::Wudiv if view == Seen::AsNatural => (Rule::Udiv, NumberOp::Div),
        WordOp::Wumod if view == Seen::AsNatural => (Rule::Umod, NumberOp::Mod),
        WordOp::Wsdiv if view == Seen::AsInteger => (Rule::Sdiv, NumberOp::Div),
        WordOp::Wsmod if view == Seen::AsInteger => (Rule::Smod, NumberOp::Mod),
        _ => return None,
    };
    Some(Arithmetic { rule, op, view })
}

// Two operands, each seen so.
fn both_seen(
    alloc: Global,
    view: Seen,
    a: Box<Standing>,
    b: Box<Standing>,
) -> Result<(Abstracted, Abstracted), AllocError>
    ensures { IfOk result (λ (x, y). (abstracted_in x
        ≡ meaning (standing_in a.value) (seen_of view))
        × (abstracted_in y ≡ meaning (standing_in b.value) (seen_of view))) }
{
    let x = Box::into_inner(a).seen(alloc, view)?;
    let y = Box::into_inner(b).seen(alloc, view)?;
    Ok((x, y))
}

// An operation on two words, at a base.
fn binary_at(
    alloc: Global,
    op: WordOp,
    base: Base,
    a: Box<Standing>,
    b: Box<Standing>,
) -> Result<Abstracted, AllocError>
    ensures { IfOk result (λ x. abstracted_in x
        ≡ binary_at (word_op_of op) (base_of base)
        (both (standing_in a.value) (standing_in b.value))) }
{
    match on_numbers(op, base) {
        Some(Arithmetic { rule, op, view }) => {
            let (x, y) = both_seen(alloc, view, a, b)?;
            over_two(
                alloc,
                rule,
                Exp::Arith(op, x.right, y.right),
                x.tree,
                y.tree,
            )
        }
        None => {
            let (x, y) = both_seen(alloc, Seen::AsWord, a, b)?;
            over_two(
                alloc,
                Rule::Op,
                Exp::WordBinary(op, x.right, y.right),
                x.tree,
                y.tree,
            )
        }
    }
}

// An operation on two words of a width.
fn operation(
    alloc: Global,
    at: &Point<'_>,
    op: WordOp,
    width: u8,
    a: Box<Standing>,
    b: Box<Standing>,
) -> Result<Box<Standing>, AllocError>
    ensures { IfOk result (λ s. standing_in s.value
        ≡ operation same_exp (numbers_at at.now) (scope_at at.now) (names_at at.now)
        (known_at at.now)
        (word_op_of op) width (standing_in a.value) (standing_in b.value)) }
{
    let base = operation_at(at, op, width, &a, &b);
    let x = binary_at(alloc, op, base, a, b)?;
    boxed(alloc, Standing::At(base, width, x))
}

// A negation at a base, or the bits turned.
fn unary_at(
    alloc: Global,
    op: UnaryOp,
    base: Base,
    a: Box<Standing>,
) -> Result<Abstracted, AllocError>
    ensures { IfOk result (λ x. abstracted_in x
        ≡ unary_at (unary_op_of op) (base_of base) (meaning (standing_in a.value) spec.AsWord)
        (meaning (standing_in a.value) spec.AsNatural)
        (meaning (standing_in a.value) spec.AsInteger)) }
{
    let view = match base {
        Base::Naturals if op == UnaryOp::Wneg => Seen::AsNatural,
        Base::Integers if op == UnaryOp::Wneg => Seen::AsInteger,
        _ => {
            let Abstracted { right, tree } = word_of(alloc, a)?;
            return over_one(alloc, Rule::Op, Exp::WordUnary(op, right), tree);
        }
    };
    let Abstracted { right, tree } = Box::into_inner(a).seen(alloc, view)?;
    over_one(alloc, Rule::Neg, Exp::Negate(right), tree)
}

// An operation on a word of a width.
fn negated(
    alloc: Global,
    at: &Point<'_>,
    op: UnaryOp,
    width: u8,
    a: Box<Standing>,
) -> Result<Box<Standing>, AllocError>
    ensures { IfOk result (λ s. standing_in s.value
        ≡ one_standing same_exp (numbers_at at.now) (scope_at at.now) (names_at at.now)
        (known_at at.now)
        (UnaryOne (unary_op_of op)) width (standing_in a.value)) }
{
    let base = negation_at(at, op, width, &a);
    let x = unary_at(alloc, op, base, a)?;
    boxed(alloc, Standing::At(base, width, x))
}

// A word of another width.
fn cast(
    alloc: Global,
    numbers: bool,
    op: CastOp,
    width: u8,
    a: Box<Standing>,
) -> Result<Box<Standing>, AllocError>
    ensures { IfOk result (λ s. standing_in s.value
        ≡ cast_standing numbers (cast_op_of op) width (standing_in a.value)) }
{
    if !numbers {
        return over_word(alloc, One::Cast(op, width), a);
    }
    match op {
        CastOp::Zext => {
            let x = Box::into_inner(a).seen(alloc, Seen::AsNatural)?;
            boxed(alloc, Standing::Extended(width, x))
        }
        CastOp::Sext => sign_extended(alloc, width, a),
        CastOp::Trunc => over_word(alloc, One::Cast(op, width), a),
    }
}

// A word that is extended by its signed value.
fn sign_extended(alloc: Global, width: u8, a: Box<Standing>) -> Result<Box<Standing>, AllocError>
    ensures { IfOk result (λ s. standing_in s.value
        ≡ spec.sign_extended width (meaning (standing_in a.value) spec.AsInteger)) }
{
    let Abstracted { right, tree } = Box::into_inner(a).seen(alloc, Seen::AsInteger)?;
    let x = Abstracted {
        right,
        tree: over(Rule::Sext, alone(alloc, tree)?),
    };
    boxed(alloc, Standing::At(Base::Integers, width, x))
}

// A number that a word has.
fn number_of(
    alloc: Global,
    rule: Rule,
    view: Seen,
    a: Box<Standing>,
) -> Result<Box<Standing>, AllocError>
    ensures { IfOk result (λ s. let x = meaning (standing_in a.value) (seen_of view) in
        standing_in s.value
        ≡ spec.Fixed (made (rule_of rule) x.right (one x))) }
{
    let Abstracted { right, tree } = Box::into_inner(a).seen(alloc, view)?;
    let x = Abstracted {
        right,
        tree: over(rule, alone(alloc, tree)?),
    };
    fixed(alloc, x)
}

fn denied(alloc: Global, a: Box<Standing>) -> Result<Box<Standing>, AllocError>
    ensures { IfOk result (λ s. standing_in s.value
        ≡ denied (meaning (standing_in a.value) spec.AsWord)) }
{
    let Abstracted { right, tree } = word_of(alloc, a)?;
    fixed(alloc, over_one(alloc, Rule::Logic, Exp::Not(right), tree)?)
}

/// A head with one operand of a width.
pub(crate) fn one(
    alloc: Global,
    at: &Point<'_>,
    head: One,
    operand: &Exp,
    a: Box<Standing>,
) -> Result<Box<Standing>, AllocError>
    ensures { IfOk result (λ s. standing_in s.value
        ≡ one_standing same_exp (numbers_at at.now) (scope_at at.now) (names_at at.now)
        (known_at at.now)
        (one_in head) (or_zero (width_in (scope_at at.now) (exp_of operand.now)))
        (standing_in a.value)) }
{
    match head {
        One::WordUnary(op) => negated(alloc, at, op, at.width(operand), a),
        One::Cast(op, width) => cast(alloc, at.setting.numbers, op, width, a),
        One::ToNat => number_of(alloc, Rule::Nat, Seen::AsNatural, a),
        One::ToInt => number_of(alloc, Rule::Int, Seen::AsInteger, a),
        One::ToWord(_) | One::Negate => over_word(alloc, head, a),
        One::Not => denied(alloc, a),
    }
}

// An order of two words.
fn compared(
    alloc: Global,
    numbers: bool,
    test: WordTest,
    a: Box<Standing>,
    b: Box<Standing>,
) -> Result<Box<Standing>, AllocError>
    ensures { IfOk result (λ s. standing_in s.value
        ≡ compared numbers (word_test_of test) (standing_in a.value) (standing_in b.value)) }
{
    if !numbers {
        let (x, y) = both_seen(alloc, Seen::AsWord, a, b)?;
        let e = Exp::WordCompare(test, x.right, y.right);
        return fixed(alloc, over_two(alloc, Rule::Op, e, x.tree, y.tree)?);
    }
    let (x, y) = both_seen(alloc, test_seen(test), a, b)?;
    let e = order(test, x.right, y.right);
    fixed(alloc, over_two(alloc, Rule::Order, e, x.tree, y.tree)?)
}

fn test_seen(test: WordTest) -> Seen
    ensures { seen_of result ≡ spec.test_seen (word_test_of test) }
{
    match test {
        WordTest::Wult | WordTest::Wule => Seen::AsNatural,
        WordTest::Wslt | WordTest::Wsle => Seen::AsInteger,
    }
}

fn order(test: WordTest, a: Box<Exp>, b: Box<Exp>) -> Exp
    ensures { exp_of result ≡ order (word_test_of test) (exp_of a.value) (exp_of b.value) }
{
    match test {
        WordTest::Wult | WordTest::Wslt => Exp::Lt(a, b),
        WordTest::Wule | WordTest::Wsle => Exp::Le(a, b),
    }
}

// The kind at which two values are equal, where it is one of words or truth values.
fn equality_kind(sort: Option<Sort<'_>>, base: Base) -> Option<Kind>
    ensures { option_map kind_of result
        ≡ equality_kind (option_map sort_value sort.entry) (base_of base) }
{
    match sort {
        Some(Sort::Of(Scalar::Word(width))) => Some(kind_at(base, width)),
        Some(Sort::Of(Scalar::Truth)) => Some(Kind::Bool),
        Some(Sort::Of(Scalar::Num) | Sort::Parts(_)) | None => None,
    }
}

fn equal(
    alloc: Global,
    kind: Option<Kind>,
    a: Box<Standing>,
    b: Box<Standing>,
) -> Result<Box<Standing>, AllocError>
    ensures { IfOk result (λ s. standing_in s.value
        ≡ equal (option_map kind_of kind) (standing_in a.value) (standing_in b.value)) }
{
    let Some(kind) = kind else {
        let (x, y) = both_seen(alloc, Seen::AsWord, a, b)?;
        let e = Exp::Eq(x.right, y.right);
        return fixed(alloc, over_two(alloc, Rule::Op, e, x.tree, y.tree)?);
    };
    let (x, y) = both_seen(alloc, seen_for(kind), a, b)?;
    let e = Exp::Eq(x.right, y.right);
    fixed(alloc, over_two(alloc, Rule::Eq(kind), e, x.tree, y.tree)?)
}

// A head over two operands as they are.
fn over_words(
    alloc: Global,
    head: Two,
    a: Box<Standing>,
    b: Box<Standing>,
) -> Result<Box<Standing>, AllocError>
    ensures { IfOk result (λ s. standing_in s.value
        ≡ over_words (two_in head) (meaning (standing_in a.value) spec.AsWord)
        (meaning (standing_in b.value) spec.AsWord)) }
{
    let (x, y) = both_seen(alloc, Seen::AsWord, a, b)?;
    let parts = and_then(alone(alloc, x.tree)?, y.tree)?;
    operator(alloc, whole_two(head, x.right, y.right), parts)
}

/// A head with two operands that stand under the same; the first is of this sort.
pub(crate) fn two(
    alloc: Global,
    at: &Point<'_>,
    head: Two,
    operand: &Exp,
    a: Box<Standing>,
    b: Box<Standing>,
) -> Result<Box<Standing>, AllocError>
    ensures { IfOk result (λ s. standing_in s.value
        ≡ two_standing same_exp (numbers_at at.now) (scope_at at.now) (names_at at.now)
        (known_at at.now)
        (two_in head) (exp_of operand.now) (standing_in a.value) (standing_in b.value)) }
{
    match head {
        Two::WordBinary(op) => operation(alloc, at, op, at.width(operand), a, b),
        Two::WordCompare(test) => compared(alloc, at.setting.numbers, test, a, b),
        Two::Eq => {
            let base = first_base(a.base(), b.base());
            equal(alloc, equality_kind(at.sort_of(operand), base), a, b)
        }
        _ => over_words(alloc, head, a, b),
    }
}

/// A connective.
pub(crate) fn connected(
    alloc: Global,
    head: Two,
    x: Abstracted,
    b: Box<Standing>,
) -> Result<Box<Standing>, AllocError>
    ensures { IfOk result (λ s. standing_in s.value
        ≡ connected (two_in head) (abstracted_in x) (meaning (standing_in b.value) spec.AsWord)) }
{
    let y = word_of(alloc, b)?;
    let e = whole_two(head, x.right, y.right);
    fixed(alloc, over_two(alloc, Rule::Logic, e, x.tree, y.tree)?)
}

/// A number between two others.
pub(crate) fn between(
    alloc: Global,
    low: Number,
    a: Box<Standing>,
    high: Number,
) -> Result<Box<Standing>, AllocError>
    ensures { IfOk result (λ s. let x = meaning (standing_in a.value) spec.AsWord in
        standing_in s.value ≡ operator (plain.Between low x.right high) (one x)) }
{
    let Abstracted { right, tree } = word_of(alloc, a)?;
    operator(alloc, Exp::Between(low, right, high), alone(alloc, tree)?)
}

/// A pointer and what is added.
pub(crate) fn padd(
    alloc: Global,
    ty: &CType,
    p: Box<Standing>,
    n: Box<Standing>,
) -> Result<Box<Standing>, AllocError>
    ensures { IfOk result (λ s. let x = meaning (standing_in p.value) spec.AsWord in
        let y = meaning (standing_in n.value) spec.AsWord in
        standing_in s.value ≡ operator (plain.Padd (type_of ty.now) x.right y.right)
        (two x y)) }
{
    let (x, y) = both_seen(alloc, Seen::AsWord, p, n)?;
    let parts = and_then(alone(alloc, x.tree)?, y.tree)?;
    operator(
        alloc,
        Exp::Padd(copy_of(alloc, ty)?, x.right, y.right),
        parts,
    )
}

/// A test of a root.
pub(crate) fn root(
    alloc: Global,
    head: RootTest,
    ty: &CType,
    p: Box<Standing>,
) -> Result<Box<Standing>, AllocError>
    ensures { IfOk result (λ s. let x = meaning (standing_in p.value) spec.AsWord in
        standing_in s.value ≡ operator (whole_root (root_in head) (type_of ty.now) x.right)
        (one x)) }
{
    let Abstracted { right, tree } = word_of(alloc, p)?;
    let parts = alone(alloc, tree)?;
    operator(alloc, whole_root(head, copy_of(alloc, ty)?, right), parts)
}

/// A place, or what is there.
pub(crate) fn place(
    alloc: Global,
    head: PlaceHead,
    ty: &CType,
    p: Box<Standing>,
    indices: Indices,
) -> Result<Box<Standing>, AllocError>
    ensures { IfOk result (λ s. let x = meaning (standing_in p.value) spec.AsWord in
        standing_in s.value
        ≡ operator (whole_place (place_in head) (type_of ty.now) x.right (path_of indices.path))
        (trees.tree x.tree (with_trees indices.trees.items no_trees))) }
{
    let Indices { path, trees } = indices;
    let Abstracted { right, tree } = word_of(alloc, p)?;
    let parts = joined(alone(alloc, tree)?, trees)?;
    operator(
        alloc,
        whole_place(head, copy_of(alloc, ty)?, right, path),
        parts,
    )
}

/// A part of a global.
pub(crate) fn global(
    alloc: Global,
    name: &str,
    indices: Indices,
) -> Result<Box<Standing>, AllocError>
    ensures { IfOk result (λ s. standing_in s.value
        ≡ operator (plain.Global name.now (path_of indices.path))
        (with_trees indices.trees.items no_trees)) }
{
    let Indices { path, trees } = indices;
    operator(
        alloc,
        Exp::Global(String::from_str(alloc, name)?, path),
        trees,
    )
}

/// A part of a value.
pub(crate) fn sel(
    alloc: Global,
    e: Box<Standing>,
    indices: Indices,
) -> Result<Box<Standing>, AllocError>
    ensures { IfOk result (λ s. let x = meaning (standing_in e.value) spec.AsWord in
        standing_in s.value ≡ operator (plain.Sel x.right (path_of indices.path))
        (trees.tree x.tree (with_trees indices.trees.items no_trees))) }
{
    let Indices { path, trees } = indices;
    let Abstracted { right, tree } = word_of(alloc, e)?;
    let parts = joined(alone(alloc, tree)?, trees)?;
    operator(alloc, Exp::Sel(right, path), parts)
}

/// A value with a part replaced.
pub(crate) fn upd(
    alloc: Global,
    e: Box<Standing>,
    indices: Indices,
    value: Box<Standing>,
) -> Result<Box<Standing>, AllocError>
    ensures { IfOk result (λ s. let x = meaning (standing_in e.value) spec.AsWord in
        let y = meaning (standing_in value.value) spec.AsWord in
        standing_in s.value ≡ operator (plain.Upd x.right (path_of indices.path) y.right)
        (trees.tree x.tree (with_trees indices.trees.items (one y)))) }
{
    let Indices { path, trees } = indices;
    let (x, y) = both_seen(alloc, Seen::AsWord, e, value)?;
    let parts = and_then(joined(alone(alloc, x.tree)?, trees)?, y.tree)?;
    operator(alloc, Exp::Upd(x.right, path, y.right), parts)
}
