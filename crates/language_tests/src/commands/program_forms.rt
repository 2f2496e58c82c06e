//! Tests of which units of programs are well-formed: a good unit, and others that miss one thing.
//! The programs are those of the function `f`, which takes the word `a` and the number `b` below
//! 256 and gives a number; `q` gives nothing, and `g` is a global.

use crate::commands::heads::{head, kind};
use c_values::{CType, GlobalVar, IntType, Layout, Target, Value, Word};
use expression_lang::{Kind, Level};
use monad_lang::{FinalFn, FinalUnit, Mon};
use monad_sorts::{is_program_sorted, is_well_formed};
use program_sorts::Phase;
use std::alloc::{AllocError, Global};
use std::test::Fail;
use test_texts::{around, program};

// The kinds of words, and no kind of `none`.
fn kinds(alloc: Global, words: &str) -> Result<Vec<Kind>, Fail> {
    let mut kinds = Vec::new(alloc);
    if words == "none" {
        return Ok(kinds);
    }
    for word in words.split(' ') {
        kinds.push(kind(word)?)?;
    }
    Ok(kinds)
}

// The function of a name and parameters, and of what it gives.
fn function(alloc: Global, words: &str, gives: &str, body: Mon) -> Result<FinalFn, Fail> {
    let (name, params) = head(alloc, words)?;
    let results = kinds(alloc, gives)?;
    Ok(FinalFn {
        name,
        level: Level::Numbers,
        params,
        results,
        body,
    })
}

fn global(alloc: Global) -> Result<GlobalVar, AllocError> {
    let name = String::from_str(alloc, "g")?;
    Ok(GlobalVar {
        name,
        ty: CType::Int(IntType::Int),
        initial: Value::Word(Word::new(32, 0)),
    })
}

// A unit of the good function, with this body, and of one that gives nothing.
fn unit(alloc: Global, body: Mon) -> Result<FinalUnit, Fail> {
    let mut functions = Vec::new(alloc);
    functions.push(function(alloc, "f a:w32 b:nat8", "int32", body)?)?;
    functions.push(function(alloc, "q", "none", program(alloc, "(ret)")?)?)?;
    let mut globals = Vec::new(alloc);
    globals.push(global(alloc)?)?;
    Ok(FinalUnit {
        layout: Layout::build(Target::Ilp32, Vec::new(alloc))?,
        globals,
        functions,
    })
}

// Whether the unit with the body of a text is well-formed.
fn fits(alloc: Global, text: &str) -> Result<bool, Fail> {
    Ok(is_well_formed(&unit(alloc, program(alloc, text)?)?))
}

const WELL_FORMED: &str = "\
(ret 1)
(ret b)
(pick (nat 8))
(do (x) (ret 1) (y) (ret (w 32 1)) (ret x))
(do (x) (ret (w 32 1)) (x) (ret 1) (ret x))
(do (a) (ret 1) (y) (ret a) (ret y))
(do (x) (ret b) (y) (ret x) (ret y))
(do (x) (ret (w 32 1)) (y) (ret (nat x)) (ret y))
(do (x y) (ret (w 32 1) 1) (ret 1))
(if #t (ret 1) (ret 2))
(do () (guard #t) (ret 1))
(do () (write int (w 32 1) () (w 32 1)) (ret 1))
(do () (gset g () (w 32 1)) (ret 1))
(loop ((i 0)) #t (lt i 2) (ret 1))
(loop ((i 0)) #t #t (ret i))
(call f a b)
(do () (call q) (ret 1))";

const ILL_FORMED: &str = "\
(ret (w 32 1))
(ret c)
(ret)
(ret 1 1)
(pick bool)
(do (x) (ret 1) (y) (ret (w 32 1)) (ret y))
(do (x) (ret 1) (x) (ret (w 32 1)) (ret x))
(do (x) (ret a) (y) (ret x) (ret y))
(do (x) (ret (w 32 1) 1) (ret 1))
(do (x y z) (ret (w 32 1) 1) (ret 1))
(do () (do (x) (ret 1) (ret)) (ret x))
(if 1 (ret 1) (ret 2))
(if #t (ret (w 32 1)) (ret 2))
(if #t (ret 1) (ret (w 32 1)))
(if #t (ret 1) (ret c))
(if #t (ret 1) (ret))
(do () (guard 1) (ret 1))
(do () (write int 1 () (w 32 1)) (ret 1))
(do () (write int (w 32 1) () 1) (ret 1))
(do () (gset h () (w 32 1)) (ret 1))
(do () (gset g () 1) (ret 1))
(do (x) (store int (w 32 1) () (w 32 1)) (ret 1))
(loop ((i (w 32 1))) #t (lt i 2) (ret 1))
(loop ((i 0)) 1 (lt i 2) (ret 1))
(loop ((i 0)) #t (lt i 2) (ret (w 32 1)))
(loop ((i c)) #t (lt i 2) (ret 1))
(loop ((i 0)) #t 1 (ret i))
(loop ((i 0)) #t #t (ret))
(call f a)
(call f a b a)
(call h a b)
(call q)
(do () (call f a b) (ret 1))";

#[test]
fn well_formed_programs(rt: HostRuntime) -> Result<(), Fail> {
    for text in WELL_FORMED.lines() {
        assert!(rt; fits(rt.alloc(), text)?, "{text}");
    }
    Ok(())
}

#[test]
fn ill_formed_programs(rt: HostRuntime) -> Result<(), Fail> {
    for text in ILL_FORMED.lines() {
        assert!(rt; !fits(rt.alloc(), text)?, "{text}");
    }
    Ok(())
}

// A bind of twice the same name, which no text is.
fn bind_of_one_name(alloc: Global) -> Result<Mon, Fail> {
    let mut names = Vec::new(alloc);
    for name in ["x", "x"] {
        names.push(String::from_str(alloc, name)?)?;
    }
    let first = Box::new(alloc, program(alloc, "(ret (w 32 1) 1)")?)?;
    let last = Box::new(alloc, program(alloc, "(ret 1)")?)?;
    Ok(Mon::Bind(first, names, last))
}

#[test]
fn ill_formed_programs_without_text(rt: HostRuntime) -> Result<(), Fail> {
    let alloc = rt.alloc();
    assert!(rt; !is_well_formed(&unit(alloc, bind_of_one_name(alloc)?)?));
    assert!(rt; !is_well_formed(&unit(alloc, Mon::Pick(Kind::Nat(7)))?));
    Ok(())
}

// Whether the unit with one function more is well-formed: a name with parameters, what is given,
// and the body.
fn fits_one_more(alloc: Global, line: &str) -> Result<bool, Fail> {
    let (words, cells) = line.split_once(" | ").ok_or("no results")?;
    let (gives, text) = cells.split_once(" | ").ok_or("no body")?;
    let mut u = unit(alloc, program(alloc, "(ret 1)")?)?;
    let f = function(alloc, words, gives, program(alloc, text)?)?;
    u.functions.push(f)?;
    Ok(is_well_formed(&u))
}

const OTHER_FUNCTIONS: &str = "\
f | none | (ret)
h x:w12 | none | (ret)
h x:bool x:bool | none | (ret)
h | int65 | (ret 1)
h | nat8 nat8 | (ret 1 1)";

#[test]
fn functions_have_distinct_names_and_kinds_that_are(rt: HostRuntime) -> Result<(), Fail> {
    let alloc = rt.alloc();
    assert!(rt; fits_one_more(alloc, "h x:w64 | none | (ret)")?);
    for line in OTHER_FUNCTIONS.lines() {
        assert!(rt; !fits_one_more(alloc, line)?, "{line}");
    }
    Ok(())
}

// Whether a function that gives a number is sorted on words, and whether it is on numbers.
fn phases(alloc: Global, text: &str) -> Result<(bool, bool), Fail> {
    let u = unit(alloc, program(alloc, "(ret 1)")?)?;
    let f = function(alloc, "h", "int32", program(alloc, text)?)?;
    let on_words = is_program_sorted(&u, Phase::OnWords, &f);
    Ok((on_words, is_program_sorted(&u, Phase::OnNumbers, &f)))
}

#[test]
fn names_of_kinds_are_words_before_words_become_numbers(rt: HostRuntime) -> Result<(), Fail> {
    let alloc = rt.alloc();
    assert!(rt; phases(alloc, "(ret (w 32 1))")? == (true, false));
    assert!(rt; phases(alloc, "(ret 1)")? == (false, true));
    Ok(())
}

// Many parts bind `x`, some of them to the `x` before, and the first binds `y`; at last both are
// asked for.
fn with_many_names(alloc: Global, plain: u32, count: u32) -> Result<String, AllocError> {
    let turn = around(alloc, "(x) (ret 1) ", "", "", plain)?;
    let turn = around(alloc, "", "(x) (ret x) ", turn.as_str(), 1)?;
    let turns = around(alloc, turn.as_str(), "(ret (add x y))", "", count)?;
    around(
        alloc,
        "(do (y) (ret 1) (x) (ret 1) ",
        turns.as_str(),
        ")",
        1,
    )
}

#[test]
fn long_sequences_have_an_answer(rt: HostRuntime) -> Result<(), Fail> {
    let alloc = rt.alloc();
    for (plain, count) in [(200_000u32, 5u32), (0, 1_000)] {
        let text = with_many_names(alloc, plain, count)?;
        assert!(rt; fits(alloc, text.as_str())?, "{count}");
    }
    Ok(())
}

#[test]
fn nested_programs_have_an_answer(rt: HostRuntime) -> Result<(), Fail> {
    let alloc = rt.alloc();
    let text = around(alloc, "(do (x) ", "(ret b)", " (ret x))", 4_095)?;
    assert!(rt; fits(alloc, text.as_str())?);
    Ok(())
}
