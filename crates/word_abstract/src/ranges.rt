//! Which range of a sum is known, so which numbers it stands for.

ghost use Rattle.std.specs.Prelude.{◌≡◌, ◌↔◌, ◌||◌, [], ◌^◌, ◌-◌, ◌<◌, map, IsTrue, List, Option, Some, None};
ghost use Rattle.std.specs.Option.{option_map};
ghost use Rattle.c_values.specs.Number.{least, greatest};
ghost use Rattle.expression_lang.specs.Expression as plain;
ghost use Rattle.expression_lang.specs.CodeExpression.{exp_of};
ghost use Rattle.ac_expr.specs.SameExp.{same_exp};
ghost use Rattle.ac_expr.specs.Fact.{stands_for};
ghost use Rattle.rule_word.specs.Bases as bases;
ghost use Rattle.rule_word.specs.Bases.{gives_at_once, some_gives, range_given, first_range, oldest_range};
ghost use Rattle.word_abstract.specs.CodeKnown.{newest_first};
ghost use Rattle.word_abstract.specs.CodeViews.{seen_of, base_of};
ghost use Rattle.word_abstract.specs.CodeFacts.{fact_in, whole, known_in, conditions_in};
ghost use Rattle.word_abstract.specs.CodeRanges.{sum_in, natural_in, integer_in, before_in, IsShaped, seen_range};

use crate::comparing::is_numeral;
use crate::facts::{Conditions, Fact, Known};
use crate::standing::Standing;
use crate::views::{Base, Seen};
use c_values::{Number, NumberOp, same_number};
use expression_lang::Exp;

/// What is in range: an operation on two operands, or a negation.
#[derive(Clone, Copy)]
pub(crate) enum Sum<'a> {
    Arith(NumberOp, &'a Standing, &'a Standing),
    Negated(&'a Standing),
}

/// The ranges of a sum of words of a width: both, or the signed one alone.
#[derive(Clone, Copy)]
pub(crate) struct Ranges<'a> {
    pub(crate) sum: Sum<'a>,
    pub(crate) width: u8,
    pub(crate) is_signed: bool,
}

// Whether it is 2 to so many bits.
#[tactic(auto, using(crate::proofs::Powers::wide))]
fn is_power(bits: u8, magnitude: u128) -> bool
    ensures { IsTrue result ↔ (magnitude ≡ 2 ^ bits) }
{
    bits < 128 && magnitude == 1 << bits
}

// Whether it is one less than 2 to so many bits.
#[tactic(auto, using(crate::proofs::Powers::wider))]
fn is_below_power(bits: u8, magnitude: u128) -> bool
    ensures { IsTrue result ↔ (magnitude ≡ 2 ^ bits - 1) }
{
    if bits < 128 {
        magnitude == (1 << bits) - 1
    } else {
        bits == 128 && magnitude == u128::MAX
    }
}

// Whether it is the least number of a width.
fn is_least(signed: bool, width: u8, n: Number) -> bool
    ensures { IsTrue result ↔ (n ≡ least signed width) }
{
    if signed {
        n.negative() && is_power(width.saturating_sub(1), n.magnitude())
    } else {
        same_number(n, Number::new(false, 0))
    }
}

// Whether it is the greatest number of a width.
fn is_greatest(signed: bool, width: u8, n: Number) -> bool
    ensures { IsTrue result ↔ (n ≡ greatest signed width) }
{
    let bits = if signed {
        width.saturating_sub(1)
    } else {
        width
    };
    !n.negative() && is_below_power(bits, n.magnitude())
}

impl Sum<'_> {
    // Whether it is this expression, of numbers of the kind.
    fn is_seen(&self, view: Seen, e: &Exp) -> bool
        ensures { IsTrue result ↔ (exp_of e.now ≡ sum_in self.now (seen_of view)) }
    {
        match self {
            Sum::Arith(op, a, b) => match e {
                Exp::Arith(own, x, y) => *own == *op && a.is_seen(view, x) && b.is_seen(view, y),
                _ => false,
            },
            Sum::Negated(a) => match e {
                Exp::Negate(x) => a.is_seen(view, x),
                _ => false,
            },
        }
    }
}

impl Ranges<'_> {
    // Whether it is its range, as numbers of the kind are seen.
    fn is_of(&self, view: Seen, low: Number, x: &Exp, high: Number) -> bool
        ensures { IsTrue result
            ↔ (plain.Between low (exp_of x.now) high ≡ seen_range self.now (seen_of view)) }
    {
        let signed = view == Seen::AsInteger;
        is_least(signed, self.width, low)
            && is_greatest(signed, self.width, high)
            && self.sum.is_seen(view, x)
    }

    // Whether it is the unsigned range.
    fn is_natural(&self, low: Number, x: &Exp, high: Number) -> bool
        ensures { IsTrue result ↔ (plain.Between low (exp_of x.now) high ≡ natural_in self.now) }
    {
        let view = if self.is_signed {
            Seen::AsInteger
        } else {
            Seen::AsNatural
        };
        self.is_of(view, low, x, high)
    }

    // The kind of the numbers whose range it is.
    #[tactic(auto, using(crate::proofs::RangeLaws::natural_given, crate::proofs::RangeLaws::integer_given, crate::proofs::RangeLaws::neither_given))]
    fn kind(&self, low: Number, x: &Exp, high: Number) -> Option<Base>
        ensures { (before : List Rattle.ac_expr.specs.Fact.Fact) →
            option_map base_of result
            ≡ range_given same_exp before (natural_in self.now) (integer_in self.now)
            (plain.Between low (exp_of x.now) high) }
    {
        if self.is_natural(low, x, high) {
            return Some(Base::Naturals);
        }
        if self.is_of(Seen::AsInteger, low, x, high) {
            return Some(Base::Integers);
        }
        None
    }
}

// What is known before a fact: the conditions, what is older, and what stands on its left in one
// fact.
#[derive(Drop)]
enum Before<'a> {
    Older(&'a Conditions<'a>, Known<'a>),
    Also(&'a Before<'a>, &'a Exp),
}

/// What a fact says, as far as it may give a range.
#[derive(Clone, Copy)]
enum Claim<'a> {
    Both(&'a Exp, &'a Exp),
    Range(Number, &'a Exp, Number),
    Under(&'a Exp, &'a Exp),
    Other,
}

fn claim_in(e: &Exp) -> Claim<'_>
    ensures same { IsShaped result (exp_of e.now) }
    ensures smaller { Rattle.word_abstract.specs.CodeRanges.AreSmaller result
        (Rattle.expression_lang.specs.declared.expression.Exp.size-Exp e.now) }
{
    match e {
        Exp::And(a, b) => Claim::Both(&**a, &**b),
        Exp::Between(low, x, high) => Claim::Range(*low, &**x, *high),
        Exp::Imp(c, d) => Claim::Under(&**c, &**d),
        _ => Claim::Other,
    }
}

// Whether two expressions are the same.
fn same(a: &Exp, b: &Exp) -> bool
    ensures { result ≡ same_exp (exp_of a.now) (exp_of b.now) }
{
    a.same(b)
}

// Whether an expression is that the number is at least this.
fn is_at_least(low: Number, x: &Exp, e: &Exp) -> bool
    ensures { IsTrue result ↔ (plain.Le (plain.NumberLit low) (exp_of x.now) ≡ exp_of e.now) }
{
    match e {
        Exp::Le(a, b) => is_numeral(low, a) && x.same(b),
        _ => false,
    }
}

// Whether an expression is that the number is at most this.
fn is_at_most(x: &Exp, high: Number, e: &Exp) -> bool
    ensures { IsTrue result ↔ (plain.Le (exp_of x.now) (plain.NumberLit high) ≡ exp_of e.now) }
{
    match e {
        Exp::Le(a, b) => x.same(a) && is_numeral(high, b),
        _ => false,
    }
}

fn is_low_end(low: Number, x: &Exp, e: &Exp) -> bool
    ensures { result ≡ same_exp (plain.Le (plain.NumberLit low) (exp_of x.now)) (exp_of e.now) }
{
    is_at_least(low, x, e)
}

fn is_high_end(x: &Exp, high: Number, e: &Exp) -> bool
    ensures { result ≡ same_exp (plain.Le (exp_of x.now) (plain.NumberLit high)) (exp_of e.now) }
{
    is_at_most(x, high, e)
}

// Whether an expression is one of a range's ends.
fn is_end(low: Number, x: &Exp, high: Number, e: &Exp) -> bool
    ensures { result ≡ (same_exp (plain.Le (plain.NumberLit low) (exp_of x.now)) (exp_of e.now)
        || same_exp (plain.Le (exp_of x.now) (plain.NumberLit high)) (exp_of e.now)) }
{
    is_low_end(low, x, e) || is_high_end(x, high, e)
}

// Whether an expression is that the other doesn't hold.
fn is_denied(x: &Exp, e: &Exp) -> bool
    ensures { IsTrue result ↔ (plain.Not (exp_of x.now) ≡ exp_of e.now) }
{
    match e {
        Exp::Not(own) => x.same(own),
        _ => false,
    }
}

// Whether an expression that holds gives another at once. It goes along the right sides by a loop.
#[tactic(auto, using(crate::proofs::RangeLaws::gives_itself, crate::proofs::RangeLaws::gives_first, crate::proofs::RangeLaws::gives_rest, crate::proofs::RangeLaws::gives_ends, crate::proofs::RangeLaws::gives_under, crate::proofs::RangeLaws::gives_nothing))]
fn exp_gives(fact: &Exp, e: &Exp) -> bool
    ensures { result ≡ gives_at_once same_exp (exp_of fact.now) (exp_of e.now) }
{
    let mut rest = fact;
    'along: loop {
        if same(rest, e) {
            return true;
        }
        match claim_in(rest) {
            Claim::Both(a, b) => {
                if exp_gives(a, e) {
                    return true;
                }
                rest = b;
            }
            Claim::Range(low, x, high) => return is_end(low, x, high, e),
            Claim::Under(_, _) | Claim::Other => return false,
        }
    }
}

// Whether that an expression doesn't hold gives another at once.
fn denied_gives(x: &Exp, e: &Exp) -> bool
    ensures { result ≡ gives_at_once same_exp (plain.Not (exp_of x.now)) (exp_of e.now) }
{
    is_denied(x, e)
}

// Whether a fact gives an expression at once.
fn gives(fact: Fact<'_>, e: &Exp) -> bool
    ensures { result ≡ gives_at_once same_exp (stands_for (fact_in fact.entry)) (exp_of e.now) }
{
    if fact.holds {
        exp_gives(fact.exp, e)
    } else {
        denied_gives(fact.exp, e)
    }
}

// Whether one of the facts does.
#[tactic(auto, using(crate::proofs::RangeLaws::some_taken))]
fn some_fact(facts: &[Fact<'_>], e: &Exp) -> bool
    ensures { result
        ≡ some_gives same_exp (newest_first (map fact_in facts.now) []) (exp_of e.now) }
{
    let mut count = facts.len();
    'along: while count > 0 {
        count -= 1;
        if gives(facts[count], e) {
            return true;
        }
    }
    false
}

// Whether one of the guards does.
#[tactic(auto, using(crate::proofs::RangeLaws::some_newest))]
fn some_guard(guards: &[Exp], e: &Exp) -> bool
    ensures { result ≡ some_gives same_exp (newest_first (map whole guards.now) []) (exp_of e.now) }
{
    let mut rest = guards;
    'along: while let Some((last, others)) = rest.split_last() {
        if exp_gives(last, e) {
            return true;
        }
        rest = others;
    }
    false
}

// Whether one of the conditions does.
fn some_condition(conditions: &Conditions<'_>, e: &Exp) -> bool
    ensures { result ≡ some_gives same_exp (conditions_in conditions.now) (exp_of e.now) }
{
    let mut rest = conditions;
    'along: loop {
        match rest {
            Conditions::None => return false,
            Conditions::With(outer, fact) => {
                if gives(*fact, e) {
                    return true;
                }
                rest = *outer;
            }
        }
    }
}

// Whether what is known before does.
#[tactic(auto, using(crate::proofs::RangeLaws::some_older))]
fn some_before(before: &Before<'_>, e: &Exp) -> bool
    ensures { result ≡ some_gives same_exp (before_in before.now) (exp_of e.now) }
{
    let mut rest = before;
    'along: loop {
        match rest {
            Before::Also(others, exp) => {
                if exp_gives(*exp, e) {
                    return true;
                }
                rest = *others;
            }
            Before::Older(conditions, known) => {
                return some_condition(*conditions, e)
                    || some_guard(known.own, e)
                    || some_fact(known.outer, e);
            }
        }
    }
}

// The range that a fact gives, where what it is under is given by what is known before it.
#[tactic(auto, using(crate::proofs::RangeLaws::range_first, crate::proofs::RangeLaws::range_second, crate::proofs::RangeLaws::range_under, crate::proofs::RangeLaws::range_not_under, crate::proofs::RangeLaws::range_none_under, crate::proofs::RangeLaws::range_other))]
fn range_given(ranges: &Ranges<'_>, before: &Before<'_>, fact: &Exp) -> Option<Base>
    ensures { option_map base_of result
        ≡ range_given same_exp (before_in before.now) (natural_in ranges.now)
        (integer_in ranges.now) (exp_of fact.now) }
{
    match claim_in(fact) {
        Claim::Both(a, b) => match range_given(ranges, before, a) {
            Some(base) => Some(base),
            None => range_given(ranges, before, b),
        },
        Claim::Range(low, x, high) => ranges.kind(low, x, high),
        Claim::Under(condition, claim) => match range_given(ranges, before, claim) {
            Some(base) if some_before(before, condition) => Some(base),
            _ => None,
        },
        Claim::Other => None,
    }
}

// The first from left to right.
#[tactic(auto, using(crate::proofs::RangeLaws::first_first, crate::proofs::RangeLaws::first_second, crate::proofs::RangeLaws::first_alone))]
fn first_range(ranges: &Ranges<'_>, before: &Before<'_>, fact: &Exp) -> Option<Base>
    ensures { option_map base_of result
        ≡ first_range same_exp (before_in before.now) (natural_in ranges.now)
        (integer_in ranges.now) (exp_of fact.now) }
{
    match claim_in(fact) {
        Claim::Both(a, b) => match first_range(ranges, before, a) {
            Some(base) => Some(base),
            None => first_range(ranges, &Before::Also(&*before, a), b),
        },
        _ => range_given(ranges, before, fact),
    }
}

// That of the oldest fact from outside that gives one.
#[tactic(auto, using(crate::proofs::RangeLaws::not_yet_taken, crate::proofs::RangeLaws::found_taken))]
fn oldest_outer<'x>(
    ranges: &Ranges<'_>,
    conditions: &'x Conditions<'x>,
    facts: &'x [Fact<'x>],
) -> Option<Base>
    ensures { option_map base_of result
        ≡ oldest_range same_exp (conditions_in conditions.now) (natural_in ranges.now)
        (integer_in ranges.now)
        (newest_first (map fact_in facts.now) []) }
{
    let mut count = 0;
    'along: while count < facts.len() {
        let known = Known {
            outer: &facts[..count],
            own: &[],
        };
        let found = fact_range(ranges, &Before::Older(conditions, known), facts[count]);
        if found.is_some() {
            return found;
        }
        count += 1;
    }
    None
}

// The first range of a fact.
fn fact_range(ranges: &Ranges<'_>, before: &Before<'_>, fact: Fact<'_>) -> Option<Base>
    ensures { option_map base_of result
        ≡ first_range same_exp (before_in before.now) (natural_in ranges.now)
        (integer_in ranges.now)
        (stands_for (fact_in fact.entry)) }
{
    if fact.holds {
        first_range(ranges, before, fact.exp)
    } else {
        None
    }
}

/// That of the oldest fact that gives one, by the conditions and older facts.
#[tactic(auto, using(crate::proofs::RangeLaws::not_yet_taken, crate::proofs::RangeLaws::found_taken, crate::proofs::RangeLaws::found_later))]
pub(crate) fn oldest_range<'x>(
    ranges: &Ranges<'_>,
    conditions: &'x Conditions<'x>,
    known: Known<'x>,
) -> Option<Base>
    ensures { option_map base_of result
        ≡ oldest_range same_exp (conditions_in conditions.now) (natural_in ranges.now)
        (integer_in ranges.now)
        (known_in known.entry) }
{
    let outer = oldest_outer(ranges, conditions, known.outer);
    if outer.is_some() {
        return outer;
    }
    let mut count = 0;
    'along: while count < known.own.len() {
        let before = Known {
            outer: known.outer,
            own: &known.own[..count],
        };
        let found = first_range(
            ranges,
            &Before::Older(conditions, before),
            &known.own[count],
        );
        if found.is_some() {
            return found;
        }
        count += 1;
    }
    None
}
