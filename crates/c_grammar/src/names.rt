//! The names that typedefs made.

ghost use Rattle.std.specs.Prelude.{◌≡◌, ◌∷◌, ◌≤◌, ℕ, [], List, OnOk, map, nat_eq, vec_len};
ghost use Rattle.std.specs.HashSet.{contains_by};
ghost use lib.Pointwise.{pointwise};
ghost use Rattle.c_lex.specs.Lexeme.{kind_of};
ghost use Rattle.c_grammar.specs.CodeNames.{made_of, next_of};
ghost use Rattle.c_grammar.specs.Operators as operators;
ghost use Rattle.c_grammar.specs.CodeStack as stack;

use crate::symbol::Symbol;
use c_lex::TokenKind;
use std::alloc::{AllocError, Global};
use std::collections::HashSet;

/// The names that typedefs made, and those that the present external declares.
#[derive(Drop)]
pub(crate) struct Names<'a> {
    /// All of them, the oldest first.
    all: Vec<&'a str>,
    /// How many of them are types by now.
    made: usize,
    /// Those that are.
    types: HashSet<&'a str>,
    ghost within: { made ≤ vec_len all },
    ghost same: { (n : List ℕ) → contains_by (λ name. pointwise nat_eq n name.now) types
        ≡ operators.is_made (made_of (map (λ name. name.now) all.items) made) n },
}

impl<'a> Names<'a> {
    /// No name.
    pub(crate) fn new(alloc: Global) -> Names<'a>
        ensures made { made_of (map (λ name. name.now) result.all.items) result.made ≡ [] }
        ensures next { next_of (map (λ name. name.now) result.all.items) ≡ [] }
    {
        Names {
            all: Vec::new(alloc),
            made: 0,
            types: HashSet::new(alloc),
        }
    }

    /// Whether the token is a name that a typedef made.
    pub(crate) fn is_type(&self, kind: &TokenKind) -> bool
        ensures { result ≡ stack.is_type
            (made_of (map (λ name. name.now) self.now.all.items) self.now.made) (kind_of kind.now) }
    {
        match kind {
            TokenKind::Name(name) => self.types.contains(name.as_str()),
            _ => false,
        }
    }

    /// Notes a name that the present external declares.
    pub(crate) fn note(&mut self, name: &'a str) -> Result<(), AllocError>
        ensures made { OnOk result
            (made_of (map (λ name. name.now) self.new.all.items) self.new.made
            ≡ made_of (map (λ name. name.now) self.old.all.items) self.old.made) }
        ensures next { OnOk result (next_of (map (λ name. name.now) self.new.all.items)
            ≡ name.now ∷ next_of (map (λ name. name.now) self.old.all.items)) }
    {
        self.all.push(name)?;
        Ok(())
    }

    /// Here an external ends: a typedef's names are types from here on, and others are forgotten.
    pub(crate) fn end(&mut self, typedef: bool) -> Result<(), AllocError>
        ensures made { OnOk result
            (made_of (map (λ name. name.now) self.new.all.items) self.new.made
            ≡ stack.made_behind (Symbol.Made typedef)
            (made_of (map (λ name. name.now) self.old.all.items) self.old.made)
            (next_of (map (λ name. name.now) self.old.all.items))) }
        ensures next { OnOk result (next_of (map (λ name. name.now) self.new.all.items)
            ≡ stack.next_behind (Symbol.Made typedef)
            (made_of (map (λ name. name.now) self.old.all.items) self.old.made)
            (next_of (map (λ name. name.now) self.old.all.items))) }
    {
        if typedef {
            while self.made < self.all.len() {
                let name = self.all[self.made];
                self.types.insert(name)?;
                self.made += 1;
            }
        } else {
            self.all.truncate(self.made);
        }
        Ok(())
    }
}
