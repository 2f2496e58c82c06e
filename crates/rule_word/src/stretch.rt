//! Parts of a sequence that were passed, with a summary of the names that they bind.

ghost use Rattle.std.specs.Prelude.{◌≡◌, ◌+◌, ◌^◌, ◌<◌, true, List, map, string_bytes};
ghost use Rattle.std.specs.Prelude.{Some, IfSome, IfNone};
ghost use Rattle.c_values.specs.Name.{Name};
ghost use Rattle.expression_lang.specs.CodeExpression.{kind_of};
ghost use Rattle.expression_lang.specs.Signature.{Binder};
ghost use Rattle.expression_lang.specs.Sort as plain;
ghost use Rattle.monad_lang.specs.CodeProgram.{mon_of};
ghost use Rattle.rule_word.specs.CodeRule.{tree_of};
ghost use Rattle.rule_word.specs.CodeClaims.{names_bound, behind};
ghost use Rattle.rule_word.specs.CodeNames.{kind_in};
ghost use Rattle.rule_word.specs.CodeStretch.{count_in, tree_in, parts_in, tree_at, parts_at};
ghost use Rattle.rule_word.specs.CodeStretch.{found_behind, mark, is_marked, are_names_marked};
ghost use Rattle.rule_word.specs.CodeStretch.{IsKept, IsNext};

use crate::kinds::among_passed;
use crate::parts::named;
use crate::rule::Rule;
use expression_lang::Kind;
use monad_lang::Mon;
use rule_trees::Tree;

// So many parts are passed before the places move up.
const NEAR: u32 = 16;

/// The first parts of a sequence, with the tree that goes along it. Each name has one of 64 marks,
/// and those of the names that the parts bind are kept: most names that they don't bind are told
/// by that. A name that they bind is looked for behind two later places first, since most were
/// bound not long ago: behind the first of them stand 17 to 33 parts, once so many were passed.
#[derive(Clone, Copy)]
pub struct Stretch<'a> {
    pub(crate) tree: &'a Tree<Rule>,
    pub(crate) parts: &'a Mon,
    /// How many parts stand before the first later place, between the two, and behind the second.
    pub(crate) before: u32,
    pub(crate) between: u32,
    pub(crate) since: u32,
    pub(crate) middle: Place<'a>,
    pub(crate) late: Place<'a>,
    pub(crate) marks: u64,
}

/// A place in a sequence.
#[derive(Clone, Copy)]
pub enum Place<'a> {
    /// Where it begins.
    Start,
    /// Behind some of its parts. It points at a box: names with a larger type in them are more than
    /// the language's types may reach.
    Behind(&'a Tree<Rule>, &'a Box<Mon>),
}

impl<'a> Stretch<'a> {
    /// No part of a sequence.
    pub(crate) fn new(tree: &'a Tree<Rule>, parts: &'a Mon) -> Stretch<'a>
        ensures kept { IsKept result }
        ensures count { count_in result ≡ 0 }
        ensures tree { tree_in result ≡ tree_of tree.now }
        ensures parts { parts_in result ≡ mon_of parts.now }
    {
        Stretch {
            tree,
            parts,
            before: 0,
            between: 0,
            since: 0,
            middle: Place::Start,
            late: Place::Start,
            marks: 0,
        }
    }

    /// One part more: the first of this program, behind which this tree goes along the rest.
    pub(crate) fn step(self, program: &'a Mon, last: &'a Tree<Rule>) -> Stretch<'a>
        requires kept { IsKept self }
        requires few { count_in self + 1 < 2 ^ 32 }
        requires next { (js : List plain.Kind) × IsNext (names_bound (mon_of program.now)) js
            (tree_of last.now) (behind (mon_of program.now))
            (count_in self) (tree_in self) (parts_in self) }
        ensures kept { IsKept result }
        ensures count { count_in result ≡ count_in self.entry + 1 }
        ensures tree { tree_in result ≡ tree_in self.entry }
        ensures parts { parts_in result ≡ parts_in self.entry }
    {
        let marks = with_names(self.marks, named(program));
        match self.next_place(program) {
            None => Stretch {
                tree: self.tree,
                parts: self.parts,
                before: self.before,
                between: self.between,
                since: self.since + 1,
                middle: self.middle,
                late: self.late,
                marks,
            },
            Some(rest) => Stretch {
                tree: self.tree,
                parts: self.parts,
                before: self.before + self.between,
                between: self.since + 1,
                since: 0,
                middle: self.late,
                late: Place::Behind(last, rest),
                marks,
            },
        }
    }

    // What stands behind the first part of this program, if the places are to move up.
    fn next_place(&self, program: &'a Mon) -> Option<&'a Box<Mon>>
        ensures { IfSome result (λ rest. mon_of rest.now.value ≡ behind (mon_of program.now)) }
    {
        match program {
            Mon::Bind(_, _, rest) if self.since >= NEAR => Some(rest),
            _ => None,
        }
    }

    // The tree and the program at a place.
    fn at(&self, place: Place<'a>) -> (&'a Tree<Rule>, &'a Mon)
        ensures tree { tree_of result.0.now ≡ tree_at (tree_in self.now) place.entry }
        ensures parts { mon_of result.1.now ≡ parts_at (parts_in self.now) place.entry }
    {
        match place {
            Place::Start => (self.tree, self.parts),
            Place::Behind(tree, parts) => (tree, &**parts),
        }
    }

    /// The kind of a name that the parts bind, if its mark is kept.
    #[tactic(auto, using(crate::proofs::Stretches::looked_up))]
    pub(crate) fn get(&self, name: &str) -> Option<Kind>
        ensures some { (bs : List Binder) → IfSome result (λ k.
            kind_in (found_behind self.now bs) name.now ≡ Some (kind_of k)) }
        ensures none { (bs : List Binder) → IfNone result (
            kind_in (found_behind self.now bs) name.now ≡ kind_in bs name.now) }
    {
        if !has_mark(self.marks, name) {
            return None;
        }
        let (tree, parts) = self.at(self.late);
        if let Some(kind) = among_passed(tree, parts, self.since, name) {
            return Some(kind);
        }
        let (tree, parts) = self.at(self.middle);
        if let Some(kind) = among_passed(tree, parts, self.between, name) {
            return Some(kind);
        }
        if let Some(kind) = among_passed(self.tree, self.parts, self.before, name) {
            return Some(kind);
        }
        None
    }
}

// The mark of a name.
fn mark(name: &str) -> u32
    ensures value { result ≡ mark name.now }
    ensures few { result < 64 }
{
    let mut found: u32 = 0;
    let mut rest = name.as_bytes();
    'bytes: while let Some((byte, others)) = rest.split_first() {
        found = (found * 5 + u32::from(*byte)) % 64;
        rest = others;
    }
    found
}

// Whether a name's mark is among these.
fn has_mark(marks: u64, name: &str) -> bool
    ensures { result ≡ is_marked marks name.now }
{
    marks >> mark(name) & 1 == 1
}

// The marks, and those of these names.
fn with_names(marks: u64, names: &[String]) -> u64
    ensures kept { (x : Name) → is_marked marks x ≡ true → is_marked result x ≡ true }
    ensures names { are_names_marked result (map string_bytes names.now) ≡ true }
{
    let mut found = marks;
    let mut rest = names;
    'names: while let Some((name, others)) = rest.split_first() {
        found = found | (1 << mark(name.as_str()));
        rest = others;
    }
    found
}
