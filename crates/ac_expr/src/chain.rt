//! Facts at a place: those of the conditions around it, and those of the parts that were passed.

ghost use Rattle.std.specs.Prelude.{◌≡◌, [], ◌∷◌, List, Bool, Option, map, string_bytes, IfSome, IfNone};
ghost use Rattle.std.specs.Option.{option_map};
ghost use Rattle.expression_lang.specs.Expression as plain;
ghost use Rattle.expression_lang.specs.CodeExpression.{exp_of};
ghost use Rattle.expression_lang.specs.CodeSort.{scalar_of, scope_of};
ghost use Rattle.expression_lang.specs.Sorted.{scope_with};
ghost use Rattle.ac_expr.specs.Facts.{without_name, without_reads};
ghost use Rattle.ac_expr.specs.Passed.{Part, passed};
ghost use Rattle.ac_expr.specs.CodeFacts.{fact_of};
ghost use Rattle.ac_expr.specs.CodeChain.{facts_of, scope_of_facts};

use crate::facts::Fact;
use c_values::{GlobalVar, Layout};
use expression_lang::{Exp, Names, Scalar};

/// A first part with the names of its values, and what comes behind it.
#[derive(Clone, Copy)]
pub struct Split<'a, S: Copy> {
    pub first: S,
    pub names: &'a [String],
    pub rest: S,
}

/// A place in what has parts that come one after the other, as a program has.
pub trait Sequence: Copy {
    ghost parts: { Self → List Part };

    ghost guard_in: { Self → Option plain.Exp };

    ghost changes: { Self → Bool };

    /// The first part with the names of its values, and what comes behind it.
    fn split(&self) -> Option<Split<'_, Self>>
        ensures some { IfSome result (λ split. parts self.now
            ≡ record {
              guard = guard_in split.first;
              names = map string_bytes split.names.now;
              changes = changes split.first;
            } ∷ parts split.rest) }
        ensures none { IfNone result (parts self.now ≡ []) };

    /// What it guards, where it is a guard.
    fn guard(&self) -> Option<&Exp>
        ensures { option_map (λ e. exp_of e.now) result ≡ guard_in self.now };

    /// Whether it may change the state.
    fn changes_state(&self) -> bool
        ensures { result ≡ changes self.now };
}

/// Facts, with the names in scope, the layout and the globals: a chain, each link of which borrows
/// the one before.
#[derive(Drop)]
pub enum Facts<'a, S: Sequence> {
    None(&'a Layout, &'a [GlobalVar], &'a Names<'a>),
    With(&'a Facts<'a, S>, &'a Fact<'a>),
    Bound(&'a Facts<'a, S>, &'a str, Scalar),
    WithoutReads(&'a Facts<'a, S>),
    /// One link for any number of parts that were passed, since a chain with a link for each takes
    /// as much of the stack.
    Passed(&'a Facts<'a, S>, S, u32),
}

impl<'a, S: Sequence> Facts<'a, S> {
    /// No facts.
    pub fn new(l: &'a Layout, globals: &'a [GlobalVar], names: &'a Names<'a>) -> Facts<'a, S>
        ensures facts { facts_of (S.parts) result ≡ [] }
        ensures scope { scope_of_facts result ≡ scope_of l.now names.now globals.now }
    {
        Facts::None(l, globals, names)
    }

    /// The same facts, and one more.
    pub fn with(&'a self, fact: &'a Fact<'a>) -> Facts<'a, S>
        ensures facts { facts_of (S.parts) result ≡ fact_of fact.now ∷ facts_of (S.parts) self.now }
        ensures scope { scope_of_facts result ≡ scope_of_facts self.now }
    {
        Facts::With(self, fact)
    }

    /// A name comes into scope, and the facts that name it are forgotten.
    pub fn bind(&'a self, name: &'a str, scalar: Scalar) -> Facts<'a, S>
        ensures facts { facts_of (S.parts) result
            ≡ without_name name.now (facts_of (S.parts) self.now) }
        ensures scope { scope_of_facts result
            ≡ scope_with (name.now ∷ []) (scalar_of scalar ∷ []) (scope_of_facts self.now) }
    {
        Facts::Bound(self, name, scalar)
    }

    /// The facts that read are forgotten.
    pub fn forget_reads(&'a self) -> Facts<'a, S>
        ensures facts { facts_of (S.parts) result ≡ without_reads (facts_of (S.parts) self.now) }
        ensures scope { scope_of_facts result ≡ scope_of_facts self.now }
    {
        Facts::WithoutReads(self)
    }

    /// What is known after the first so many parts.
    pub fn pass(&'a self, parts: S, count: u32) -> Facts<'a, S>
        ensures facts { facts_of (S.parts) result
            ≡ passed count (S.parts parts) (facts_of (S.parts) self.now) }
        ensures scope { scope_of_facts result ≡ scope_of_facts self.now }
    {
        Facts::Passed(self, parts, count)
    }
}
