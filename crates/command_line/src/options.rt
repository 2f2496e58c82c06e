//! Options: the target, and the functions that they name.

ghost use Rattle.std.specs.Prelude.{◌≡◌, Some, None, IfSome, IfNone, IfOk, map, length, drop, true, false, nat_eq, string_bytes, ◌&&◌};
ghost use Rattle.std.specs.List.{starts_with};
ghost use Rattle.std.specs.Option.{option_map};
ghost use Rattle.std.specs.HashSet.{contains_text};
ghost use Rattle.c_values.specs.Name.{is_among};
ghost use Rattle.c_values.specs.CodeTypes as types;
ghost use Rattle.command_line.specs.Words.{ilp32_word, lp64_word, is_option, are_options, is_target, target_of, after_start, named, first_unknown};

use c_values::Target;
use std::alloc::{AllocError, Global};
use std::collections::HashSet;

/// The target that options choose.
pub fn target_of(options: &[String]) -> Target
    ensures { types.target_of result ≡ target_of (map string_bytes options.now) }
{
    if is_among("target=lp64", options) {
        Target::Lp64
    } else {
        Target::Ilp32
    }
}

/// The names behind a beginning, of the options that have it.
pub fn names_after(
    alloc: Global,
    start: &str,
    options: &[String],
) -> Result<Vec<String>, AllocError>
    ensures { IfOk result (λ names. map string_bytes names.items
        ≡ after_start start.now (map string_bytes options.now)) }
{
    let mut names = Vec::new(alloc);
    let mut rest = options;
    'options: while let Some((option, others)) = rest.split_first() {
        if let Some(name) = after(start, option.as_str()) {
            names.push(String::from_str(alloc, name)?)?;
        }
        rest = others;
    }
    Ok(names)
}

// What follows a beginning, where the word has it.
#[tactic(auto, using(crate::proofs::Stripped::begins, crate::proofs::Stripped::what_follows, crate::proofs::Stripped::begins_otherwise))]
fn after<'a>(start: &str, word: &'a str) -> Option<&'a str>
    ensures some { IfSome result (λ name. starts_with nat_eq word.now start.now ≡ true) }
    ensures rest { IfSome result (λ name. name.now ≡ drop (length start.now) word.now) }
    ensures none { IfNone result (starts_with nat_eq word.now start.now ≡ false) }
{
    word.strip_prefix(start)
}

/// The first function that an option names, in the order of the words, which isn't one of these.
pub fn first_unknown<'a>(functions: &HashSet<String>, options: &'a [String]) -> Option<&'a str>
    ensures { option_map (λ name. name.now) result
        ≡ first_unknown (λ x. contains_text functions.now x) (map string_bytes options.now) }
{
    let mut rest = options;
    'options: while let Some((option, others)) = rest.split_first() {
        match named(option.as_str()) {
            Some(name) if !functions.contains(name) => return Some(name),
            _ => rest = others,
        }
    }
    None
}

// The function that an option names.
fn named(option: &str) -> Option<&str>
    ensures { option_map (λ name. name.now) result ≡ named option.now }
{
    match after("bytes=", option) {
        Some(name) => Some(name),
        None => after("words=", option),
    }
}

/// Whether each word is an option, and no two choose different targets.
pub(crate) fn are_options(words: &[String]) -> bool
    ensures { result ≡ are_options (map string_bytes words.now) }
{
    !have_both_targets(words) && words.iter().all(|word| is_option(word.as_str()))
}

// Whether both targets are among the words.
fn have_both_targets(words: &[String]) -> bool
    ensures { result ≡ (is_among ilp32_word (map string_bytes words.now) && is_among lp64_word
        (map string_bytes words.now)) }
{
    is_among("target=ilp32", words) && is_among("target=lp64", words)
}

// Whether a word is among others.
fn is_among(word: &str, words: &[String]) -> bool
    ensures { result ≡ is_among word.now (map string_bytes words.now) }
{
    words.iter().any(|other| word == other.as_str())
}

// Whether a word chooses a target.
fn is_target(word: &str) -> bool
    ensures { result ≡ is_target word.now }
{
    matches!(word, "target=ilp32" | "target=lp64")
}

// Whether a word is an option.
#[tactic(auto, using(std::proofs::lemmas::Str::Pattern::starts_text))]
fn is_option(word: &str) -> bool
    ensures { result ≡ is_option word.now }
{
    word.starts_with("bytes=") || word.starts_with("words=") || is_target(word)
}
