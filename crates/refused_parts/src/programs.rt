//! Where the steps on programs go on.

ghost use Rattle.std.specs.Prelude.{◌≡◌, ◌+◌, ◌==◌, None};
ghost use Rattle.std.specs.Option.{option_and_then, option_map};
ghost use Rattle.monad_lang.specs.CodeProgram.{mon_of};
ghost use Rattle.refused_parts.specs.CodeInside.{bind_inside, body_inside, branch_inside, either, second, whole_inside};

use crate::walks::Inside;
use monad_lang::Mon;
use rule_eq::Rule as EqualityRule;
use rule_heap::Rule as HeapRule;
use rule_word::Rule as WordRule;

impl Inside<Mon> for HeapRule {
    ghost use Rattle.monad_lang.specs.CodeProgram.{mon_of};
    ghost use Rattle.monad_lang.specs.Program as plain;
    ghost use Rattle.rule_heap.specs.Rule as rules;
    ghost use Rattle.rule_heap.specs.CodeRule.{rule_of};
    ghost use Rattle.refused_parts.specs.CodeInside.{heap_inside};

    ghost Rule = { rules.Rule };

    ghost Seen = { plain.Mon };

    ghost rule = { rule_of };

    ghost seen = { mon_of };

    ghost goes_on = { heap_inside };

    fn inside<'a>(&'a self, part: &'a Mon, position: usize) -> Option<&'a Mon> {
        match self {
            HeapRule::Bind => bind_inside(part, position),
            HeapRule::If => branch_inside(part, position),
            HeapRule::Loop => body_inside(part, position),
            HeapRule::Pointer => behind(position, second_of_second(part)),
            HeapRule::Drop(_) => behind(position, second(part)),
            _ => None,
        }
    }
}

impl Inside<Mon> for WordRule {
    ghost use Rattle.monad_lang.specs.CodeProgram.{mon_of};
    ghost use Rattle.monad_lang.specs.Program as plain;
    ghost use Rattle.rule_word.specs.Rule as rules;
    ghost use Rattle.rule_word.specs.CodeRule.{rule_of};
    ghost use Rattle.refused_parts.specs.CodeInside.{word_inside};

    ghost Rule = { rules.Rule };

    ghost Seen = { plain.Mon };

    ghost rule = { rule_of };

    ghost seen = { mon_of };

    ghost goes_on = { word_inside };

    fn inside<'a>(&'a self, part: &'a Mon, position: usize) -> Option<&'a Mon> {
        match self {
            WordRule::Bind(_) => bind_inside(part, position),
            WordRule::If => branch_inside(part, position),
            WordRule::Loop(_) => body_inside(part, position),
            WordRule::Recast(_) => Some(part),
            _ => None,
        }
    }
}

impl Inside<Mon> for EqualityRule {
    ghost use Rattle.monad_lang.specs.CodeProgram.{mon_of};
    ghost use Rattle.monad_lang.specs.Program as plain;
    ghost use Rattle.rule_eq.specs.Rule as rules;
    ghost use Rattle.rule_eq.specs.CodeRule.{rule_of};
    ghost use Rattle.refused_parts.specs.CodeInside.{equal_inside};

    ghost Rule = { rules.Rule };

    ghost Seen = { plain.Mon };

    ghost rule = { rule_of };

    ghost seen = { mon_of };

    ghost goes_on = { equal_inside };

    fn inside<'a>(&'a self, part: &'a Mon, position: usize) -> Option<&'a Mon> {
        match self {
            EqualityRule::Trans(middle) => Some(either(position, part, middle)),
            _ => whole_inside(part, position),
        }
    }
}

// The first program of a sequence, or the second.
fn bind_inside(m: &Mon, position: usize) -> Option<&Mon>
    ensures { option_map (λ inner. mon_of inner.now) result
        ≡ bind_inside (mon_of m.now) position }
{
    match m {
        Mon::Bind(first, _, last) => Some(either(position, first, last)),
        _ => None,
    }
}

// A branch, which stands behind the test.
fn branch_inside(m: &Mon, position: usize) -> Option<&Mon>
    ensures { option_map (λ inner. mon_of inner.now) result
        ≡ branch_inside (mon_of m.now) position }
{
    match m {
        Mon::If(_, first, last) => {
            behind(
                position,
                Some(either(position.saturating_sub(1), first, last)),
            )
        }
        _ => None,
    }
}

// The body of a loop, which stands behind its start expressions, its guard and its test.
fn body_inside(m: &Mon, position: usize) -> Option<&Mon>
    ensures { option_map (λ inner. mon_of inner.now) result
        ≡ body_inside (mon_of m.now) position }
{
    match m {
        Mon::Loop(starts, _, _, body) if is_two_more(position, starts.len()) => Some(&**body),
        _ => None,
    }
}

// The program at a position of the rules of equality.
fn whole_inside(m: &Mon, position: usize) -> Option<&Mon>
    ensures { option_map (λ inner. mon_of inner.now) result
        ≡ whole_inside (mon_of m.now) position }
{
    match m {
        Mon::Bind(first, _, last) | Mon::If(_, first, last) => Some(either(position, first, last)),
        Mon::Loop(_, _, _, body) => Some(&**body),
        _ => None,
    }
}

// The second of two programs.
fn second(m: &Mon) -> Option<&Mon>
    ensures { option_map (λ inner. mon_of inner.now) result ≡ second (mon_of m.now) }
{
    match m {
        Mon::Bind(_, _, last) => Some(&**last),
        _ => None,
    }
}

// The second of the second.
fn second_of_second(m: &Mon) -> Option<&Mon>
    ensures { option_map (λ inner. mon_of inner.now) result
        ≡ option_and_then second (second (mon_of m.now)) }
{
    second(second(m)?)
}

// The first of two programs at position 0, and the last behind.
fn either<'a>(position: usize, first: &'a Mon, last: &'a Mon) -> &'a Mon
    ensures { mon_of result.now ≡ either position (mon_of first.now) (mon_of last.now) }
{
    if position == 0 { first } else { last }
}

// None at position 0, where an expression stands, and the program behind.
fn behind(position: usize, program: Option<&Mon>) -> Option<&Mon>
    ensures { option_map (λ inner. mon_of inner.now) result
        ≡ either position None (option_map (λ inner. mon_of inner.now) program.entry) }
{
    if position == 0 { None } else { program }
}

// Whether a number is two more than the other.
fn is_two_more(n: usize, less: usize) -> bool
    ensures { result ≡ (n == less + 2) }
{
    n > 1 && n - 2 == less
}
