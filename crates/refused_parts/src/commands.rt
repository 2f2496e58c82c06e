//! Where the steps on commands go on.

ghost use Rattle.std.specs.Prelude.{◌≡◌};
ghost use Rattle.std.specs.Option.{option_map};
ghost use Rattle.simpl_lang.specs.CodeCommand.{simpl_of};
ghost use Rattle.refused_parts.specs.CodeInside.{command_inside, either};

use crate::walks::Inside;
use rule_exn::Rule as ExceptionRule;
use rule_local::Rule as LocalRule;
use simpl_lang::Simpl;

impl Inside<Simpl> for ExceptionRule {
    ghost use Rattle.simpl_lang.specs.CodeCommand.{simpl_of};
    ghost use Rattle.simpl_lang.specs.Command as plain;
    ghost use Rattle.rule_exn.specs.Rule as rules;
    ghost use Rattle.rule_exn.specs.CodeRule.{rule_of};
    ghost use Rattle.refused_parts.specs.CodeInside.{exception_inside};

    ghost Rule = { rules.Rule };

    ghost Seen = { plain.Simpl };

    ghost rule = { rule_of };

    ghost seen = { simpl_of };

    ghost goes_on = { exception_inside };

    fn inside<'a>(&'a self, part: &'a Simpl, position: usize) -> Option<&'a Simpl> {
        command_inside(part, position)
    }
}

impl Inside<Simpl> for LocalRule {
    ghost use Rattle.simpl_lang.specs.CodeCommand.{simpl_of};
    ghost use Rattle.simpl_lang.specs.Command as plain;
    ghost use Rattle.rule_local.specs.Rule as rules;
    ghost use Rattle.rule_local.specs.CodeRule.{rule_of};
    ghost use Rattle.refused_parts.specs.CodeInside.{local_inside};

    ghost Rule = { rules.Rule };

    ghost Seen = { plain.Simpl };

    ghost rule = { rule_of };

    ghost seen = { simpl_of };

    ghost goes_on = { local_inside };

    fn inside<'a>(&'a self, part: &'a Simpl, position: usize) -> Option<&'a Simpl> {
        match self {
            LocalRule::Start => Some(part),
            _ => command_inside(part, position),
        }
    }
}

// The command at a position directly inside of a command.
fn command_inside(c: &Simpl, position: usize) -> Option<&Simpl>
    ensures { option_map (λ inner. simpl_of inner.now) result
        ≡ command_inside (simpl_of c.now) position }
{
    match c {
        Simpl::Seq(first, last) | Simpl::Cond(_, first, last) | Simpl::Catch(first, last) => {
            Some(either(position, first, last))
        }
        Simpl::Guard(_, body) | Simpl::While(_, _, body) => Some(&**body),
        Simpl::Skip
        | Simpl::Throw
        | Simpl::Set(_, _)
        | Simpl::SetGlobal(_, _, _)
        | Simpl::Store(_, _, _, _)
        | Simpl::Pick(_)
        | Simpl::Call(_, _, _) => None,
    }
}

// The first of two commands at position 0, and the last behind.
fn either<'a>(position: usize, first: &'a Simpl, last: &'a Simpl) -> &'a Simpl
    ensures { simpl_of result.now ≡ either position (simpl_of first.now) (simpl_of last.now) }
{
    if position == 0 { first } else { last }
}
