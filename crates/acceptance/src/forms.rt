//! The forms of programs after each step.

ghost use Rattle.std.specs.Prelude.{◌≡◌, ◌&&◌, map};
ghost use Rattle.std.specs.Option.{option_map};
ghost use Rattle.expression_lang.specs.CodeExpression.{level_of, kind_of};
ghost use Rattle.expression_lang.specs.CodeSignature.{signature_of};
ghost use Rattle.simpl_lang.specs.CodeCommand.{simpl_of, simpl_fn_of, simpl_unit_of};
ghost use Rattle.simpl_lang.specs.Form.{is_flat};
ghost use Rattle.monad_lang.specs.CodeProgram.{mon_of};
ghost use Rattle.monad_lang.specs.Form.{is_bytes, is_heaps};
ghost use Rattle.rule_word.specs.Ready.{is_form_of};
ghost use Rattle.rule_word.specs.CodeNames.{is_result, are_results};
ghost use Rattle.acceptance.specs.Accepted.{is_command, is_on_words, is_on_numbers};
ghost use Rattle.acceptance.specs.CodeOutputs.{has_result};

use expression_lang::{Kind, Level, Signature};
use monad_lang::Mon;
use monad_sorts::is_body_sorted;
use program_sorts::{Phase, is_kind};
use simpl_lang::{Simpl, SimplFn, SimplUnit, is_bound, is_command_sorted, is_flat};

/// Whether a command is well-sorted in a function, and without exceptions.
pub(crate) fn is_flat_command(u: &SimplUnit, f: &SimplFn, c: &Simpl) -> bool
    ensures { result ≡ (is_command (simpl_unit_of u.now) (simpl_fn_of f.now) (simpl_of c.now)
        && is_flat (simpl_of c.now)) }
{
    is_command_sorted(u, &f.locals, c) && is_flat(c)
}

/// Whether a program of words gives a function's result.
pub fn gives_on_words(u: &SimplUnit, s: &Signature, m: &Mon) -> bool
    ensures { result ≡ is_on_words (simpl_unit_of u.now) (signature_of s.now) (mon_of m.now) }
{
    is_body_sorted(m, s, Phase::OnWords, &u.layout, &u.globals, &u.signatures)
}

/// Whether a program of what stands for words gives a function's result.
pub(crate) fn is_on_numbers(u: &SimplUnit, s: &Signature, m: &Mon) -> bool
    ensures { result ≡ is_on_numbers (simpl_unit_of u.now) (signature_of s.now) (mon_of m.now) }
{
    is_body_sorted(m, s, Phase::OnNumbers, &u.layout, &u.globals, &u.signatures)
}

/// Whether a program is of the last form of its level.
pub(crate) fn is_form_of(level: Level, m: &Mon) -> bool
    ensures { result ≡ is_form_of (level_of level) (mon_of m.now) }
{
    match level {
        Level::Bytes => m.is_bytes(),
        Level::Words => m.is_heaps(),
        Level::Numbers => m.is_numbers(),
    }
}

/// Whether each function gives a value of a kind that is, or none.
pub fn are_results(signatures: &[Signature]) -> bool
    ensures { result ≡ are_results (map signature_of signatures.now) }
{
    'signatures: for s in signatures {
        if !is_result(s.result) {
            return false;
        }
    }
    true
}

fn is_result(kind: Option<Kind>) -> bool
    ensures { result ≡ is_result (option_map kind_of kind) }
{
    match kind {
        Some(kind) => is_kind(kind),
        None => true,
    }
}

/// Whether the local that holds a function's result is among its locals, where there is a result.
pub fn has_result(f: &SimplFn, s: &Signature) -> bool
    ensures { result ≡ has_result (simpl_fn_of f.now).locals (signature_of s.now).result }
{
    s.result.is_none() || is_bound("$ret", &f.locals)
}
