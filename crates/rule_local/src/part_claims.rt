//! Parts of commands and programs, and what the parts of programs give.

ghost use Rattle.std.specs.Prelude.{◌≡◌, ◌<◌, ◌≤◌, true, map, string_bytes};
ghost use Rattle.simpl_lang.specs.CodeCommand.{simpl_of};
ghost use Rattle.monad_lang.specs.declared.program.Mon.{size-Mon};
ghost use Rattle.monad_lang.specs.CodeProgram.{mon_of};
ghost use Rattle.rule_local.specs.CodeRow as row;
ghost use Rattle.rule_local.specs.CodeRow.{has_parts};
ghost use Rattle.rule_local.specs.CodeRule.{rule_of};

use crate::rule::Rule;
use monad_lang::Mon;
use simpl_lang::Simpl;

/// The first part of the left side.
pub(crate) fn first_left(rule: Rule, left: &Simpl) -> &Simpl
    ensures { simpl_of result.now ≡ row.first_left (rule_of rule) (simpl_of left.now) }
{
    match rule {
        Rule::Start => left,
        _ => first_command(left),
    }
}

// The first part of a command; of one without parts the command itself.
fn first_command(c: &Simpl) -> &Simpl
    ensures { simpl_of result.now ≡ row.first_command (simpl_of c.now) }
{
    match c {
        Simpl::Seq(first, _) | Simpl::Cond(_, first, _) => &**first,
        Simpl::Guard(_, last) | Simpl::While(_, _, last) => &**last,
        _ => c,
    }
}

/// The last part of the left side, where it has two.
pub(crate) fn last_left(c: &Simpl) -> &Simpl
    ensures { simpl_of result.now ≡ row.last_command (simpl_of c.now) }
{
    match c {
        Simpl::Seq(_, last) | Simpl::Cond(_, _, last) => &**last,
        _ => c,
    }
}

// The first part of a program; of one without parts the program itself.
fn first_of(m: &Mon) -> &Mon
    ensures part { mon_of result.now ≡ row.first_of (mon_of m.now) }
    ensures smaller { has_parts (mon_of m.now) ≡ true → size-Mon result.now < size-Mon m.now }
{
    match m {
        Mon::Bind(first, _, _) | Mon::If(_, first, _) => &**first,
        Mon::Loop(_, _, _, last) => &**last,
        _ => m,
    }
}

/// The last part of a program; of one without parts the program itself.
pub(crate) fn last_of(m: &Mon) -> &Mon
    ensures part { mon_of result.now ≡ row.last_of (mon_of m.now) }
    ensures smaller { has_parts (mon_of m.now) ≡ true → size-Mon result.now < size-Mon m.now }
    ensures no_larger { size-Mon result.now ≤ size-Mon m.now }
{
    match m {
        Mon::Bind(_, _, last) | Mon::If(_, _, last) | Mon::Loop(_, _, _, last) => &**last,
        _ => m,
    }
}

/// What stands for the first part of the left side.
pub(crate) fn first_right(rule: Rule, right: &Mon) -> &Mon
    ensures part { mon_of result.now ≡ row.first_right (rule_of rule) (mon_of right.now) }
    ensures smaller { has_parts (mon_of right.now) ≡ true →
        size-Mon result.now < size-Mon right.now }
{
    match rule {
        Rule::Seq | Rule::Cond => first_of(right),
        Rule::While => last_of(first_of(right)),
        _ => last_of(right),
    }
}

/// What the first part gives.
pub(crate) fn first_outputs<'a>(rule: Rule, right: &'a Mon, outputs: &'a [String]) -> &'a [String]
    ensures { map string_bytes result.now
        ≡ row.first_outputs (rule_of rule) (mon_of right.now) (map string_bytes outputs.now) }
{
    match rule {
        Rule::Seq | Rule::While => bound_names(right, outputs),
        _ => outputs,
    }
}

// The names that a program binds, where it does, or else those that are given.
fn bound_names<'a>(m: &'a Mon, outputs: &'a [String]) -> &'a [String]
    ensures { map string_bytes result.now
        ≡ row.bound_names (mon_of m.now) (map string_bytes outputs.now) }
{
    match m {
        Mon::Bind(_, names, _) => names,
        _ => outputs,
    }
}
