//! Commands that generation puts together from others. Each is boxed where it is made.

ghost use Rattle.std.specs.Prelude.{◌≡◌, map, string_bytes, IfOk};
ghost use Rattle.expression_lang.specs.CodeExpression.{exp_of};
ghost use Rattle.simpl_lang.specs.Command.{Skip, Set, Pick, Seq, Cond};
ghost use Rattle.simpl_lang.specs.CodeCommand.{condition_of, simpl_of};
ghost use Rattle.generation.specs.Generate.{guarded};

use expression_lang::Exp;
use simpl_lang::{Condition, Simpl};
use std::alloc::{AllocError, Global};

/// A local takes a value.
pub(crate) fn set(alloc: Global, name: String, value: Box<Exp>) -> Result<Box<Simpl>, AllocError>
    ensures { IfOk result (λ s. simpl_of s.value ≡ Set (string_bytes name) (exp_of value.value)) }
{
    Ok(Box::new(alloc, Simpl::Set(name, Box::into_inner(value)))?)
}

/// A command that does nothing.
pub(crate) fn skip(alloc: Global) -> Result<Box<Simpl>, AllocError>
    ensures { IfOk result (λ s. simpl_of s.value ≡ Skip) }
{
    Ok(Box::new(alloc, Simpl::Skip)?)
}

/// A local takes any value of its sort.
pub(crate) fn pick(alloc: Global, name: String) -> Result<Box<Simpl>, AllocError>
    ensures { IfOk result (λ s. simpl_of s.value ≡ Pick (string_bytes name)) }
{
    Ok(Box::new(alloc, Simpl::Pick(name))?)
}

/// The first where a test is true, else the second.
pub(crate) fn conditional(
    alloc: Global,
    test: Box<Exp>,
    a: Box<Simpl>,
    b: Box<Simpl>,
) -> Result<Box<Simpl>, AllocError>
    ensures { IfOk result
        (λ s. simpl_of s.value ≡ Cond (exp_of test.value) (simpl_of a.value) (simpl_of b.value)) }
{
    Ok(Box::new(alloc, Simpl::Cond(Box::into_inner(test), a, b))?)
}

/// One command and then another.
pub(crate) fn sequence(
    alloc: Global,
    a: Box<Simpl>,
    b: Box<Simpl>,
) -> Result<Box<Simpl>, AllocError>
    ensures { IfOk result (λ s. simpl_of s.value ≡ Seq (simpl_of a.value) (simpl_of b.value)) }
{
    Ok(Box::new(alloc, Simpl::Seq(a, b))?)
}

/// A command behind its guards, the first outermost.
#[tactic(auto, using(crate::proofs::Guarded::one_guard_put))]
pub(crate) fn with_guards(
    alloc: Global,
    guards: Vec<Condition>,
    s: Box<Simpl>,
) -> Result<Box<Simpl>, AllocError>
    ensures { IfOk result
        (λ t. simpl_of t.value ≡ guarded (map condition_of guards.items) (simpl_of s.value)) }
{
    let mut guards = guards;
    let mut guarded = s;
    'guards: while let Some(guard) = guards.pop() {
        guarded = Box::new(alloc, Simpl::Guard(guard, guarded))?;
    }
    Ok(guarded)
}
