//! Parts of commands, and what stands for them.

ghost use Rattle.std.specs.Prelude.{◌≡◌, ◌<◌, true};
ghost use Rattle.simpl_lang.specs.declared.command.Simpl.{size-Simpl};
ghost use Rattle.simpl_lang.specs.CodeCommand.{simpl_of};
ghost use Rattle.rule_exn.specs.CodeRow as row;
ghost use Rattle.rule_exn.specs.CodeRow.{has_parts};
ghost use Rattle.rule_exn.specs.CodeRule.{rule_of};

use crate::rule::Rule;
use simpl_lang::Simpl;

/// The first part of a command; of one without parts the command itself.
pub(crate) fn first_of(c: &Simpl) -> &Simpl
    ensures part { simpl_of result.now ≡ row.first_of (simpl_of c.now) }
    ensures smaller { has_parts (simpl_of c.now) ≡ true → size-Simpl result.now < size-Simpl c.now }
{
    match c {
        Simpl::Seq(first, _) | Simpl::Cond(_, first, _) | Simpl::Catch(first, _) => &**first,
        Simpl::Guard(_, last) | Simpl::While(_, _, last) => &**last,
        _ => c,
    }
}

/// The last part of a command; of one without parts the command itself.
pub(crate) fn last_of(c: &Simpl) -> &Simpl
    ensures part { simpl_of result.now ≡ row.last_of (simpl_of c.now) }
    ensures smaller { has_parts (simpl_of c.now) ≡ true → size-Simpl result.now < size-Simpl c.now }
{
    match c {
        Simpl::Seq(_, last) | Simpl::Cond(_, _, last) | Simpl::Catch(_, last) => &**last,
        Simpl::Guard(_, last) | Simpl::While(_, _, last) => &**last,
        _ => c,
    }
}

/// What stands for the first part of the left side.
pub(crate) fn first_right(rule: Rule, right: &Simpl) -> &Simpl
    ensures { simpl_of result.now ≡ row.first_right (rule_of rule) (simpl_of right.now) }
{
    match rule {
        Rule::CatchPlain => right,
        _ => first_of(right),
    }
}

/// What stands for the last part of the left side.
pub(crate) fn last_right(rule: Rule, right: &Simpl) -> &Simpl
    ensures { simpl_of result.now ≡ row.last_right (rule_of rule) (simpl_of right.now) }
{
    match rule {
        Rule::SeqTest => last_of(last_of(right)),
        Rule::CatchTest => last_of(first_of(last_of(right))),
        _ => last_of(right),
    }
}
