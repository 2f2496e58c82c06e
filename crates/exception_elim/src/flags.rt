//! Commands and expressions over the flag.

ghost use Rattle.std.specs.Prelude.{◌≡◌, map, string_bytes, IfOk};
ghost use Rattle.expression_lang.specs.Expression.{And, Not};
ghost use Rattle.expression_lang.specs.CodeExpression.{exp_of};
ghost use Rattle.simpl_lang.specs.CodeCommand.{condition_of, simpl_of};
ghost use Rattle.simpl_lang.specs.Flag.{thrown_local};
ghost use Rattle.rule_exn.specs.Table as table;
ghost use Rattle.rule_exn.specs.Table.{is_thrown};

use expression_lang::{Exp, boxed as boxed_exp};
use simpl_lang::{Condition, Simpl, boxed};
use std::alloc::{AllocError, Global};

// The local that is true where something was thrown.
fn flag_name(alloc: Global) -> Result<String, AllocError>
    ensures { IfOk result (λ name. string_bytes name ≡ thrown_local) }
{
    String::from_str(alloc, "$thrown")
}

/// The flag.
pub(crate) fn flag(alloc: Global) -> Result<Box<Exp>, AllocError>
    ensures { IfOk result (λ e. exp_of e.value ≡ is_thrown) }
{
    boxed_exp(alloc, Exp::Var(flag_name(alloc)?))
}

// That nothing was thrown.
fn no_flag(alloc: Global) -> Result<Box<Exp>, AllocError>
    ensures { IfOk result (λ e. exp_of e.value ≡ Not is_thrown) }
{
    let flag = flag(alloc)?;
    boxed_exp(alloc, Exp::Not(flag))
}

/// The command that raises the flag.
pub(crate) fn raised(alloc: Global) -> Result<Box<Simpl>, AllocError>
    ensures { IfOk result (λ c. simpl_of c.value ≡ table.raised) }
{
    let name = flag_name(alloc)?;
    boxed(alloc, Simpl::Set(name, Exp::Truth(true)))
}

/// The command that clears the flag.
pub(crate) fn cleared(alloc: Global) -> Result<Box<Simpl>, AllocError>
    ensures { IfOk result (λ c. simpl_of c.value ≡ table.cleared) }
{
    let name = flag_name(alloc)?;
    boxed(alloc, Simpl::Set(name, Exp::Truth(false)))
}

/// A test that is asked only where nothing was thrown.
pub(crate) fn test_unless_thrown(alloc: Global, test: Box<Exp>) -> Result<Box<Exp>, AllocError>
    ensures { IfOk result (λ e. exp_of e.value ≡ And (Not is_thrown) (exp_of test.value)) }
{
    let no_flag = no_flag(alloc)?;
    boxed_exp(alloc, Exp::And(no_flag, test))
}

// A condition that is asked only where nothing was thrown.
fn condition_unless_thrown(alloc: Global, condition: Condition) -> Result<Condition, AllocError>
    ensures { IfOk result (λ c. condition_of c
        ≡ table.asked_unless_thrown (condition_of condition)) }
{
    let Condition { kind, exp } = condition;
    let exp = boxed_exp(alloc, exp)?;
    let no_flag = no_flag(alloc)?;
    Ok(Condition {
        kind,
        exp: Exp::Imp(no_flag, exp),
    })
}

/// Conditions, each asked only where nothing was thrown.
#[tactic(auto, using(crate::proofs::AskedPush::asked_more))]
pub(crate) fn conditions_unless_thrown(
    alloc: Global,
    conditions: Vec<Condition>,
) -> Result<Vec<Condition>, AllocError>
    ensures { IfOk result (λ asked. map condition_of asked.items
        ≡ table.unless_thrown (map condition_of conditions.items)) }
{
    let mut asked = Vec::new(alloc);
    for condition in conditions {
        asked.push(condition_unless_thrown(alloc, condition)?)?;
    }
    Ok(asked)
}
