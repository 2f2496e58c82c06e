//! Names in scope with their kinds.

ghost use Rattle.std.specs.Prelude.{◌≡◌, ◌+◌, ℕ, false, List, [], map, string_bytes};
ghost use Rattle.std.specs.Prelude.{IfSome, IfNone, Option, None};
ghost use Rattle.c_values.specs.Name.{Name};
ghost use Rattle.std.specs.Option.{option_map};
ghost use Rattle.expression_lang.specs.Sort as plain;
ghost use Rattle.expression_lang.specs.CodeExpression.{kind_of};
ghost use Rattle.expression_lang.specs.CodeSignature.{binder_of};
ghost use Rattle.expression_lang.specs.Signature.{names_of, kinds_of};
ghost use Rattle.monad_lang.specs.CodeProgram.{mon_of, start_of};
ghost use Rattle.monad_lang.specs.Run.{start_names};
ghost use Rattle.monad_lang.specs.Program as programs;
ghost use Rattle.rule_word.specs.Rule as rules;
ghost use Rattle.rule_word.specs.CodeClaims.{is_bind};
ghost use Rattle.rule_word.specs.Scopes.{with_kinds};
ghost use Rattle.rule_word.specs.CodeRule.{rule_of, tree_of};
ghost use Rattle.rule_word.specs.CodeNames.{kind_among, kind_passed, kind_in};
ghost use Rattle.rule_word.specs.CodeStretch.{behind, IsKept};
ghost use Rattle.rule_word.specs.CodeKinds.{binders_in};

use crate::rule::Rule;
use crate::stretch::Stretch;
use expression_lang::{Binder, Kind, Scalar, Scope, scalar_of_kind};
use monad_lang::{Mon, Start};
use rule_trees::{Tree, both};

/// Names with the kinds that they have on the right: a chain, each link of which borrows the one
/// before. The last of two with one name counts.
#[derive(Drop)]
pub enum Kinds<'a> {
    None,
    AllOf(&'a Kinds<'a>, &'a [Binder]),
    /// A kind for each name.
    Named(&'a Kinds<'a>, &'a [String], &'a [Kind]),
    Started(&'a Kinds<'a>, &'a [Start], &'a [Kind]),
    /// One link for the names of any number of parts of a sequence, at the kinds of their rules,
    /// since a chain with a link for each takes as much of the stack.
    Passed(&'a Kinds<'a>, &'a Stretch<'a>),
}

impl<'a> Kinds<'a> {
    /// No names.
    pub fn new() -> Kinds<'a>
        ensures { binders_in result ≡ [] }
    {
        Kinds::None
    }

    /// The same names, and those of binders in their order.
    pub fn push_all(&'a self, binders: &'a [Binder]) -> Kinds<'a>
        ensures { binders_in result
            ≡ with_kinds (names_of (map binder_of binders.now))
            (kinds_of (map binder_of binders.now)) (binders_in self.now) }
    {
        Kinds::AllOf(self, binders)
    }

    /// The same names, and more with a kind for each.
    pub fn push(&'a self, names: &'a [String], kinds: &'a [Kind]) -> Kinds<'a>
        ensures { binders_in result
            ≡ with_kinds (map string_bytes names.now) (map kind_of kinds.now)
            (binders_in self.now) }
    {
        Kinds::Named(self, names, kinds)
    }

    /// The same names, and those that a loop starts.
    pub fn start(&'a self, starts: &'a [Start], kinds: &'a [Kind]) -> Kinds<'a>
        ensures { binders_in result
            ≡ with_kinds (start_names (map start_of starts.now)) (map kind_of kinds.now)
            (binders_in self.now) }
    {
        Kinds::Started(self, starts, kinds)
    }

    /// The same names, and those that the first parts of a sequence bind, at the kinds of the
    /// tree's rules.
    #[tactic(auto, using(crate::proofs::Stretches::all_found))]
    pub(crate) fn pass(&'a self, stretch: &'a Stretch<'a>) -> Kinds<'a>
        requires { IsKept stretch.now }
        ensures { binders_in result ≡ behind stretch.now (binders_in self.now) }
    {
        Kinds::Passed(self, stretch)
    }

    /// The kind of a name.
    #[tactic(auto, using(crate::proofs::KindsAmong::one_name))]
    pub fn get(&self, name: &str) -> Option<Kind>
        ensures { option_map kind_of result ≡ kind_in (binders_in self.now) name.now }
    {
        let mut names = self;
        'links: loop {
            match names {
                Kinds::None => return None,
                Kinds::AllOf(outer, binders) => {
                    if let Some(kind) = among_binders(binders, name) {
                        return Some(kind);
                    }
                    names = *outer;
                }
                Kinds::Named(outer, own, kinds) => {
                    if let Some(kind) = among_names(own, kinds, name, None) {
                        return Some(kind);
                    }
                    names = *outer;
                }
                Kinds::Started(outer, starts, kinds) => {
                    if let Some(kind) = among_starts(starts, kinds, name) {
                        return Some(kind);
                    }
                    names = *outer;
                }
                Kinds::Passed(outer, stretch) => {
                    if let Some(kind) = (&**stretch).get(name) {
                        return Some(kind);
                    }
                    names = *outer;
                }
            }
        }
    }
}

impl Scope for Kinds<'_> {
    ghost use Rattle.expression_lang.specs.Sort.{word_sort_of};
    ghost use Rattle.rule_word.specs.Scopes.{names_in};
    ghost use Rattle.rule_word.specs.CodeKinds.{binders_in};

    ghost scalars = { λ names x. names_in word_sort_of (binders_in names) x };

    #[tactic(auto, using(crate::proofs::KindsAmong::by_kind))]
    fn scalar(&self, name: &str) -> Option<Scalar> {
        match self.get(name) {
            Some(kind) => Some(scalar_of_kind(kind)),
            None => None,
        }
    }
}

// The kind of the last binder of a name, where there is one. The last are looked at first: of many
// binders most that are looked for were bound not long ago.
#[tactic(auto, using(crate::proofs::KindsAmong::last_name))]
fn among_binders(binders: &[Binder], name: &str) -> Option<Kind>
    ensures { option_map kind_of result ≡ kind_among (names_of (map binder_of binders.now))
        (kinds_of (map binder_of binders.now)) name.now None }
{
    let mut rest = binders;
    'binders: while let Some((last, others)) = rest.split_last() {
        if last.name.as_str() == name {
            return Some(last.kind);
        }
        rest = others;
    }
    None
}

// The same of names with a kind for each; or else this one.
fn among_names(names: &[String], kinds: &[Kind], name: &str, found: Option<Kind>) -> Option<Kind>
    ensures { option_map kind_of result
        ≡ kind_among (map string_bytes names.now) (map kind_of kinds.now) name.now
        (option_map kind_of found) }
{
    let mut found = found;
    let mut rest = names;
    let mut left = kinds;
    'names: while let Some((first, others)) = rest.split_first() {
        let Some((kind, behind)) = left.split_first() else {
            return found;
        };
        if first.as_str() == name {
            found = Some(*kind);
        }
        rest = others;
        left = behind;
    }
    found
}

// The same of the names that a loop starts.
fn among_starts(starts: &[Start], kinds: &[Kind], name: &str) -> Option<Kind>
    ensures { option_map kind_of result
        ≡ kind_among (start_names (map start_of starts.now)) (map kind_of kinds.now) name.now None }
{
    let mut found = None;
    let mut rest = starts;
    let mut left = kinds;
    'starts: while let Some((first, others)) = rest.split_first() {
        let Some((kind, behind)) = left.split_first() else {
            return found;
        };
        if first.name.as_str() == name {
            found = Some(*kind);
        }
        rest = others;
        left = behind;
    }
    found
}

// A part of a sequence that is passed: its names and their kinds, and the tree and the program
// behind it.
#[derive(Clone, Copy)]
pub(crate) struct Step<'a> {
    pub(crate) names: &'a [String],
    pub(crate) kinds: &'a [Kind],
    pub(crate) tree: &'a Tree<Rule>,
    pub(crate) rest: &'a Mon,
}

fn first_step<'a>(tree: &'a Tree<Rule>, parts: &'a Mon) -> Option<Step<'a>>
    ensures some { (n : ℕ) (y : Name) (found : Option plain.Kind) → IfSome result (λ step.
        kind_passed (n + 1) (tree_of tree.now) (mon_of parts.now) y found
        ≡ kind_passed n (tree_of step.tree.now) (mon_of step.rest.now) y
        (kind_among (map string_bytes step.names.now) (map kind_of step.kinds.now) y found)) }
    ensures none { (n : ℕ) (y : Name) (found : Option plain.Kind) → IfNone result (
        kind_passed n (tree_of tree.now) (mon_of parts.now) y found ≡ found) }
{
    let Some(kinds) = bound(&tree.rule) else {
        return None;
    };
    let Some((_, last)) = both(&tree.parts) else {
        return None;
    };
    let Some((_, names, rest)) = named(parts) else {
        return None;
    };
    Some(Step {
        names,
        kinds,
        tree: last,
        rest,
    })
}

/// The kinds of a rule that goes along a sequence.
pub(crate) fn bound(rule: &Rule) -> Option<&[Kind]>
    ensures some { IfSome result (λ js. rule_of rule.now ≡ rules.Bind (map kind_of js.now)) }
    ensures none { IfNone result (is_bind (rule_of rule.now) ≡ false) }
{
    match rule {
        Rule::Bind(js) => Some(js),
        _ => None,
    }
}

// A first part, its names, and what is behind it.
fn named(parts: &Mon) -> Option<(&Mon, &[String], &Mon)>
    ensures some { IfSome result (λ (first, xs, rest).
        mon_of parts.now
        ≡ programs.Bind (mon_of first.now) (map string_bytes xs.now) (mon_of rest.now)) }
    ensures none { (l r : programs.Mon) (xs : List Name) →
        IfNone result (mon_of parts.now ≡ programs.Bind l xs r → ⊥) }
{
    match parts {
        Mon::Bind(first, names, rest) => Some((&**first, names, &**rest)),
        _ => None,
    }
}

/// The same of the first so many parts of a sequence.
pub(crate) fn among_passed(tree: &Tree<Rule>, parts: &Mon, count: u32, name: &str) -> Option<Kind>
    ensures { option_map kind_of result
        ≡ kind_passed count (tree_of tree.now) (mon_of parts.now) name.now None }
{
    let mut found = None;
    let mut tree = tree;
    let mut parts = parts;
    let mut left = count;
    'along: while left > 0 {
        let Some(step) = first_step(tree, parts) else {
            return found;
        };
        found = among_names(step.names, step.kinds, name, found);
        tree = step.tree;
        parts = step.rest;
        left -= 1;
    }
    found
}
