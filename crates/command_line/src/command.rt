//! What the words ask for.

ghost use Rattle.std.specs.Prelude.{◌≡◌, map, string_bytes};
ghost use Rattle.std.specs.Option.{option_map};
ghost use Rattle.c_values.specs.CodeTypes as types;
ghost use Rattle.command_line.specs.CodeCommand.{form_in, command_in};
ghost use Rattle.command_line.specs.Words.{command_of, command_by, write_of, check_of, three_files, run_of, prove_of, sample_of, trial_of, last_target, target_named};

use crate::counts::{is_count, number_of};
use crate::options::are_options;
use c_values::Target;

/// How programs are written.
#[derive(Clone, Copy)]
pub enum Writing {
    /// As a tree.
    Tree,
    /// In do-notation, for readers.
    Notation,
    /// With all steps that lead to them, each with its tree of rules.
    Certificate,
}

/// What the words ask for. File names are any words.
#[derive(Clone, Copy)]
pub enum Command<'a> {
    /// The programs of a file of C text, by options: `show`, `print` or `translate`.
    Write(Writing, &'a str, &'a [String]),
    /// Whether a certificate is accepted for a file of C text.
    Check(&'a str, &'a str, Target),
    /// A run, on a memory, of the C text and of the certificate's last programs.
    Run(&'a str, &'a str, &'a str, Target),
    /// Whether triples are proved of the certificate's last programs.
    Prove(&'a str, &'a str, &'a str, Target),
    /// A C text of so many functions.
    Sample(u32),
    /// How such a text is translated and checked.
    Trial(u32, Target),
}

/// What the words ask for, where they are of a form.
pub fn asked_for(words: &[String]) -> Option<Command<'_>>
    ensures { option_map command_in result ≡ command_of (map string_bytes words.now) }
{
    let Some((word, rest)) = words.split_first() else {
        return None;
    };
    command_by(word.as_str(), rest)
}

// What a first word asks for with those behind it.
fn command_by<'a>(word: &str, rest: &'a [String]) -> Option<Command<'a>>
    ensures { option_map command_in result ≡ command_by word.now (map string_bytes rest.now) }
{
    match word {
        "show" => write(Writing::Tree, rest),
        "print" => write(Writing::Notation, rest),
        "translate" => write(Writing::Certificate, rest),
        "check" => check(rest),
        "run" => run(rest),
        "prove" => prove(rest),
        "sample" => sample(rest),
        "trial" => trial(rest),
        _ => None,
    }
}

// A file and options.
fn write(writing: Writing, words: &[String]) -> Option<Command<'_>>
    ensures { option_map command_in result
        ≡ write_of (form_in writing) (map string_bytes words.now) }
{
    let Some((file, options)) = words.split_first() else {
        return None;
    };
    if are_options(options) {
        Some(Command::Write(writing, file.as_str(), options))
    } else {
        None
    }
}

// Two files and a target.
fn check(words: &[String]) -> Option<Command<'_>>
    ensures { option_map command_in result ≡ check_of (map string_bytes words.now) }
{
    let Some((file, rest)) = words.split_first() else {
        return None;
    };
    let Some((certificate, rest)) = rest.split_first() else {
        return None;
    };
    match last_target(rest) {
        Some(target) => Some(Command::Check(file.as_str(), certificate.as_str(), target)),
        None => None,
    }
}

// Three files and a target.
#[derive(Clone, Copy)]
struct Files<'a> {
    file: &'a str,
    certificate: &'a str,
    third: &'a str,
    target: Target,
}

fn three(words: &[String]) -> Option<Files<'_>>
    ensures { option_map
        (λ f. (f.file.now, f.certificate.now, f.third.now, types.target_of f.target)) result
        ≡ three_files (map string_bytes words.now) }
{
    let Some((file, rest)) = words.split_first() else {
        return None;
    };
    let Some((certificate, rest)) = rest.split_first() else {
        return None;
    };
    let Some((third, rest)) = rest.split_first() else {
        return None;
    };
    match last_target(rest) {
        Some(target) => Some(Files {
            file: file.as_str(),
            certificate: certificate.as_str(),
            third: third.as_str(),
            target,
        }),
        None => None,
    }
}

fn run(words: &[String]) -> Option<Command<'_>>
    ensures { option_map command_in result ≡ run_of (map string_bytes words.now) }
{
    match three(words) {
        Some(f) => Some(Command::Run(f.file, f.certificate, f.third, f.target)),
        None => None,
    }
}

fn prove(words: &[String]) -> Option<Command<'_>>
    ensures { option_map command_in result ≡ prove_of (map string_bytes words.now) }
{
    match three(words) {
        Some(f) => Some(Command::Prove(f.file, f.certificate, f.third, f.target)),
        None => None,
    }
}

// A number alone.
fn sample(words: &[String]) -> Option<Command<'_>>
    ensures { option_map command_in result ≡ sample_of (map string_bytes words.now) }
{
    match words {
        [count] if is_count(count.as_bytes()) => {
            Some(Command::Sample(number_of(count.as_bytes())))
        }
        _ => None,
    }
}

// A number and a target.
fn trial(words: &[String]) -> Option<Command<'_>>
    ensures { option_map command_in result ≡ trial_of (map string_bytes words.now) }
{
    let Some((count, rest)) = words.split_first() else {
        return None;
    };
    if !is_count(count.as_bytes()) {
        return None;
    }
    match last_target(rest) {
        Some(target) => Some(Command::Trial(number_of(count.as_bytes()), target)),
        None => None,
    }
}

// The target, of no word more or of a last one.
fn last_target(words: &[String]) -> Option<Target>
    ensures { option_map types.target_of result ≡ last_target (map string_bytes words.now) }
{
    match words {
        [] => Some(Target::Ilp32),
        [word] => target_named(word.as_str()),
        _ => None,
    }
}

fn target_named(word: &str) -> Option<Target>
    ensures { option_map types.target_of result ≡ target_named word.now }
{
    match word {
        "target=ilp32" => Some(Target::Ilp32),
        "target=lp64" => Some(Target::Lp64),
        _ => None,
    }
}
