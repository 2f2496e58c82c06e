//! The labels of a switch.

ghost use Rattle.std.specs.Prelude.{◌≡◌, ◌∷◌, map, OnOk};
ghost use Rattle.c_values.specs.CodeTypes.{int_type_of};
ghost use Rattle.c_values.specs.Types.{Integer};
ghost use Rattle.c_grammar.specs.CodeTree.{label_of};
ghost use Rattle.typing_rules.specs.CodeAnswers.{Answers, RulesAs};
ghost use Rattle.typing_scope.specs.CodeScope.{scope_of};
ghost use Rattle.typing_statements.specs.CodeKeys.{Finds, Notes, key_of};
ghost use Rattle.typing_statements.specs.CodeLabels.{found_of, joined, labels_of};
ghost use Rattle.typing_rules.specs.Constant.{number_at};
ghost use Rattle.typing_rules.specs.Statements as rules;

use c_grammar::tree::Label;
use c_values::{CType, IntType, Number};
use std::alloc::{AllocError, Global};
use std::collections::HashSet;
use typing_expressions::integer_constant;
use typing_rules::fault::{TypeFault, TypeKind};
use typing_rules::folding::number_at;
use typing_rules::rulings::{Refusal, at_node, refuse};
use typing_scope::scope::Scope;

/// A label that was found: its value at the switch's type, or `default`.
#[derive(Clone, Copy)]
enum Found {
    Case(Number),
    Default,
}

/// Labels, by their values.
#[derive(Drop)]
pub(crate) struct Labels {
    pub(crate) values: Vec<Number>,
    pub(crate) has_default: bool,
}

impl Labels {
    ghost use Rattle.std.specs.Prelude.{◌≡◌, OnOk};
    ghost use Rattle.typing_statements.specs.CodeLabels.{found_of, labels_of};
    ghost use Rattle.typing_rules.specs.Statements as rules;

    /// No labels.
    fn none(alloc: Global) -> Labels
        ensures { labels_of result ≡ rules.no_labels }
    {
        Labels {
            values: Vec::new(alloc),
            has_default: false,
        }
    }

    // Adds a label.
    fn add(&mut self, found: &Found) -> Result<(), AllocError>
        ensures { OnOk result
            (labels_of self.new ≡ rules.both (labels_of self.old) (found_of found.now)) }
    {
        match found {
            Found::Case(n) => self.values.push(*n)?,
            Found::Default => self.has_default = true,
        }
        Ok(())
    }
}

/// The labels of a switch so far. A value among them is found by its key.
#[derive(Drop)]
pub(crate) struct Seen {
    pub(crate) labels: Labels,
    pub(crate) known: HashSet<(bool, u128)>,
}

impl Seen {
    ghost use Rattle.std.specs.Prelude.{◌≡◌, OnOk};
    ghost use Rattle.typing_statements.specs.CodeKeys.{Finds};
    ghost use Rattle.typing_statements.specs.CodeLabels.{found_of, labels_of};
    ghost use Rattle.typing_rules.specs.Statements as rules;
    ghost use Rattle.typing_rules.specs.CodeAnswers.{RulesAs};

    /// No labels.
    pub(crate) fn none(alloc: Global) -> Seen
        ensures none { labels_of result.labels ≡ rules.no_labels }
        ensures finds { Finds result.known result.labels.values.items }
    {
        Seen {
            labels: Labels::none(alloc),
            known: HashSet::new(alloc),
        }
    }

    // Adds a label.
    #[tactic(auto, using(crate::proofs::Keys::finds_more))]
    fn add(&mut self, found: &Found) -> Result<(), AllocError>
        requires { Finds self.old.known self.old.labels.values.items }
        ensures added { OnOk result (labels_of self.new.labels
            ≡ rules.both (labels_of self.old.labels) (found_of found.now)) }
        ensures finds { OnOk result (Finds self.new.known self.new.labels.values.items) }
    {
        note(found, &mut self.known)?;
        self.labels.add(found)
    }

    // The rule of a label behind these: no value comes twice.
    fn case_label(&self, n: Number) -> Result<Found, Refusal>
        requires { Finds self.now.known self.now.labels.values.items }
        ensures { RulesAs found_of result (rules.case_label (labels_of self.now.labels) n) }
    {
        refuse(self.known.contains(&key(n)), TypeKind::Twice)?;
        Ok(Found::Case(n))
    }

    // And no `default`.
    fn default_label(&self) -> Result<Found, Refusal>
        ensures { RulesAs found_of result (rules.default_label (labels_of self.now.labels)) }
    {
        refuse(self.labels.has_default, TypeKind::Twice)?;
        Ok(Found::Default)
    }
}

// The key of a number.
fn key(n: Number) -> (bool, u128)
    ensures { result ≡ key_of n }
{
    (n.negative(), n.magnitude())
}

// The keys with that of a label.
#[tactic(auto, using(crate::proofs::Keys::noted))]
fn note(found: &Found, known: &mut HashSet<(bool, u128)>) -> Result<(), AllocError>
    ensures { OnOk result (Notes (found_of found.now).values known.old known.new) }
{
    if let Found::Case(n) = found {
        known.insert(key(*n))?;
    }
    Ok(())
}

/// The labels of a group, which join those of the switch.
pub(crate) fn group_labels(
    alloc: Global,
    first: &Label,
    others: &[Label],
    scope: &mut Scope,
    ty: IntType,
    seen: &mut Seen,
) -> Result<Labels, TypeFault>
    requires { Finds seen.old.known seen.old.labels.values.items }
    ensures answers { Answers (λ found. (labels_of seen.new.labels, labels_of found))
        (scope_of scope.new) result
        (joined (labels_of seen.old.labels) rules.no_labels
        (rules.labels (int_type_of ty) (labels_of seen.old.labels)
        (label_of first.now ∷ map label_of others.now)) (scope_of scope.old)) }
    ensures finds { OnOk result (Finds seen.new.known seen.new.labels.values.items) }
{
    let mut labels = Labels::none(alloc);
    add_label(alloc, first, scope, ty, seen, &mut labels)?;
    for label in others {
        add_label(alloc, label, scope, ty, seen, &mut labels)?;
    }
    Ok(labels)
}

// Adds a label to those of the switch and to those of the group.
fn add_label(
    alloc: Global,
    label: &Label,
    scope: &mut Scope,
    ty: IntType,
    seen: &mut Seen,
    labels: &mut Labels,
) -> Result<(), TypeFault>
    requires { Finds seen.old.known seen.old.labels.values.items }
    ensures answers { Answers (λ _. (labels_of seen.new.labels, labels_of labels.new))
        (scope_of scope.new) result
        (joined (labels_of seen.old.labels) (labels_of labels.old)
        (rules.label (int_type_of ty) (labels_of seen.old.labels) (label_of label.now))
        (scope_of scope.old)) }
    ensures finds { OnOk result (Finds seen.new.known seen.new.labels.values.items) }
{
    let found = label_found(alloc, label, scope, ty, &*seen)?;
    seen.add(&found)?;
    labels.add(&found)?;
    Ok(())
}

// A label behind those seen.
fn label_found(
    alloc: Global,
    label: &Label,
    scope: &mut Scope,
    ty: IntType,
    seen: &Seen,
) -> Result<Found, TypeFault>
    requires { Finds seen.now.known seen.now.labels.values.items }
    ensures { Answers found_of (scope_of scope.new) result
        (rules.label (int_type_of ty) (labels_of seen.now.labels) (label_of label.now)
        (scope_of scope.old)) }
{
    match label {
        Label::Case(at, e) => {
            let n = integer_constant(alloc, e, scope)?;
            at_node(*at, case_at(seen, n, ty, &*scope))
        }
        Label::Default(at) => at_node(*at, seen.default_label()),
    }
}

// The rule of a `case`.
fn case_at(seen: &Seen, n: Number, ty: IntType, scope: &Scope) -> Result<Found, Refusal>
    requires { Finds seen.now.known seen.now.labels.values.items }
    ensures { RulesAs found_of result
        (rules.case_label (labels_of seen.now.labels)
        (number_at (scope_of scope.now).layout (Integer (int_type_of ty)) n)) }
{
    seen.case_label(number_at(&scope.layout, &CType::Int(ty), n))
}

/// The offset of a label.
pub(crate) fn label_start(label: &Label) -> usize
    ensures { result ≡ rules.label_at (label_of label.now) }
{
    match label {
        Label::Case(at, _) | Label::Default(at) => *at,
    }
}
