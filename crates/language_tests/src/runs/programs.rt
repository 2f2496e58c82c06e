//! Runs of programs from a memory.

ghost use Rattle.std.specs.Prelude.{IfOk};
ghost use Rattle.c_memory.specs.Tags.{IsWellTagged};
ghost use Rattle.c_memory.specs.CodeHeap.{memory_of};

use crate::runs::arguments::takes;
use crate::runs::units::{chain, nested, unit_of};
use ac_interp::{AOutcome, Ran, run_abstract};
use c_memory::ByteHeap;
use c_values::{Layout, Number, Value, Word};
use expression_lang::Level;
use monad_lang::FinalUnit;
use monad_sorts::is_well_formed;
use std::alloc::{AllocError, Global};
use std::test::Fail;
use test_texts::program;

// A value as rows have it.
fn shown_value(alloc: Global, value: &Value) -> Result<String, AllocError> {
    match value {
        Value::Word(word) => format!(in alloc; "word {}", word.bits()),
        Value::Number(number) => format!(in alloc; "number {}", shown_number(alloc, *number)?),
        Value::Truth(truth) => format!(in alloc; "{truth}"),
        Value::Parts(_) => String::from_str(alloc, "parts"),
    }
}

// A number as rows have it.
fn shown_number(alloc: Global, number: Number) -> Result<String, AllocError> {
    let sign = if number.negative() { "-" } else { "" };
    format!(in alloc; "{sign}{}", number.magnitude())
}

// How a run ends.
fn shown_end<H>(alloc: Global, outcome: &AOutcome<H>) -> Result<String, AllocError> {
    match outcome {
        AOutcome::Value(None, _, _) => String::from_str(alloc, "nothing"),
        AOutcome::Value(Some(value), _, _) => shown_value(alloc, value),
        AOutcome::Fails => String::from_str(alloc, "fails"),
        AOutcome::Wide(op, a, b) => {
            let a = shown_number(alloc, *a)?;
            format!(in alloc; "{op:?} {a} {}", shown_number(alloc, *b)?)
        }
        AOutcome::OutOfTurns => String::from_str(alloc, "out of turns"),
        AOutcome::Deep => String::from_str(alloc, "deep"),
        AOutcome::Memory => String::from_str(alloc, "no memory"),
    }
}

// The same, with the heap that it runs on.
fn shown(alloc: Global, ran: &Ran) -> Result<String, AllocError> {
    match ran {
        Ran::Typed(outcome) => format!(in alloc; "typed, {}", shown_end(alloc, outcome)?),
        Ran::Bytes(outcome) => format!(in alloc; "bytes, {}", shown_end(alloc, outcome)?),
    }
}

// A memory with no tags, and the bytes 5, 0, 0 and 0 at 4096.
fn memory(alloc: Global, l: &Layout) -> Result<ByteHeap, Fail>
    ensures { IfOk result (λ h. IsWellTagged l.now (memory_of h)) }
{
    // Its space has that address.
    let _ = l.target();
    let bytes = [(4096, vec![in alloc; 5, 0, 0, 0]?)];
    Ok(ByteHeap::new(alloc, l, &bytes, &[])?)
}

// A run of the first function of a unit without globals.
fn run(alloc: Global, u: &FinalUnit, argument: Value, turns: u32) -> Result<Ran, Fail> {
    let memory = memory(alloc, &u.layout)?;
    let arguments = vec![in alloc; argument]?;
    if !is_well_formed(u) || !takes(u, 0, &arguments) || !u.globals.is_empty() {
        return Err(Fail::from("it can't be run"));
    }
    let globals = Vec::new(alloc);
    Ok(run_abstract(alloc, u, 0, &arguments, &memory, globals, turns, 7))
}

// How it ends.
fn end(alloc: Global, u: &FinalUnit, argument: Value, turns: u32) -> Result<String, Fail> {
    let ran = run(alloc, u, argument, turns)?;
    Ok(shown(alloc, &ran)?)
}

// Functions at their levels, the argument `p`, how many turns they have, and how they end. The last
// two are eighth powers; the number that can't be squared is 2^32 - 1 to the fourth power.
const ROWS: &str = "\
words | (ret (read int p)) | 4096 | 0 | typed, word 0
bytes | (ret (load int p)) | 4096 | 0 | bytes, word 5
bytes | (do () (store int p () (w 32 1)) (ret (load int p))) | 4096 | 0 | bytes, word 1
words | (do () (write int p () (w 32 1)) (ret (read int p))) | 4096 | 0 | typed, word 0
words | (do () (guard (wult p (w 32 1))) (ret p)) | 1 | 0 | typed, fails
words | (if (wult p (w 32 1)) (pick (w 32)) (ret p)) | 0 | 0 | typed, word 7
words | (loop ((i p)) #t (wult i (w 32 7)) (ret (wadd i (w 32 1)))) | 4 | 3 | typed, word 7
words | (loop ((i p)) #t (wult i (w 32 7)) (ret (wadd i (w 32 1)))) | 4 | 2 | typed, out of turns
words | (call f p) | 0 | 256 | typed, out of turns
words | (call f p) | 0 | 257 | typed, deep
numbers | (do (x) (ret (mul p p)) (y) (ret (mul x x)) (ret (mul y y))) | 10 | 0 | typed, number 100000000
numbers | (do (x) (ret (mul p p)) (y) (ret (mul x x)) (ret (mul y y))) | 4294967295 | 0 | typed, Mul 340282366604025813516997721482669850625 340282366604025813516997721482669850625";

// The level of a word.
fn level_of(word: &str) -> Result<Level, Fail> {
    match word {
        "bytes" => Ok(Level::Bytes),
        "words" => Ok(Level::Words),
        "numbers" => Ok(Level::Numbers),
        _ => Err(Fail::from("no level")),
    }
}

// The value of 32 bits.
fn word(bits: u32) -> Value {
    Value::Word(Word::new(32, u64::from(bits)))
}

// The value of a number at a level.
fn value_at(level: Level, number: u32) -> Value {
    match level {
        Level::Bytes | Level::Words => word(number),
        Level::Numbers => Value::Number(Number::new(false, u128::from(number))),
    }
}

// The number of a cell.
fn number(word: &str) -> Result<u32, Fail> {
    Ok(word.parse::<u32>().ok().ok_or("no number")?)
}

// How the function of a row ends.
fn end_of_row(alloc: Global, row: &str) -> Result<String, Fail> {
    let mut cells = row.split(" | ");
    let (Some(level), Some(text), Some(argument), Some(turns)) = (
        cells.next(),
        cells.next(),
        cells.next(),
        cells.next(),
    ) else {
        return Err(Fail::from("too few cells"));
    };
    let level = level_of(level)?;
    let (argument, turns) = (number(argument)?, number(turns)?);
    let u = unit_of(alloc, level, program(alloc, text)?)?;
    end(alloc, &u, value_at(level, argument), turns)
}

#[test]
fn one_function(rt: HostRuntime) -> Result<(), Fail> {
    for row in ROWS.lines() {
        let found = end_of_row(rt.alloc(), row)?;
        assert!(rt;
            row.rsplit(" | ").next() == Some(found.as_str()),
            "{found}: {row}"
        );
    }
    Ok(())
}

#[test]
fn chains_of_calls(rt: HostRuntime) -> Result<(), Fail> {
    for (count, expected) in [(257, "typed, word 3"), (258, "typed, deep")] {
        let u = chain(rt.alloc(), count)?;
        let found = end(rt.alloc(), &u, word(3), 300)?;
        assert!(rt; found.as_str() == expected, "{found}: {count}");
    }
    Ok(())
}

#[test]
fn deep_programs(rt: HostRuntime) -> Result<(), Fail> {
    for to_the_left in [true, false] {
        let program = nested(rt.alloc(), 4_096, to_the_left)?;
        let u = unit_of(rt.alloc(), Level::Words, program)?;
        let found = end(rt.alloc(), &u, word(0), 0)?;
        assert!(rt; found.as_str() == "typed, word 7", "{found}: {to_the_left}");
    }
    Ok(())
}
