//! Tests of which units are well-formed: a good unit, and others that miss one thing. A unit has the
//! struct `pair` and the globals below, the good function `f` and `quiet`, which gives nothing.

use crate::commands::heads::{head, kind};
use c_values::{CType, GlobalVar, Layout, Number, StructDef, Target, Value};
use expression_lang::{Exp, Level, Signature};
use simpl_lang::{Simpl, SimplFn, SimplUnit, forms_ok};
use std::alloc::{AllocError, Global};
use std::test::Fail;
use test_texts::{around, c_type, command};

const MEMBERS: &str = "\
first uint
second (ptr uint)";

// `many` is the largest array that is an object, and no struct is named `none`.
const GLOBALS: &str = "\
g uint
pair (struct pair)
many (array uint 16384)
vast (array uint 16385)
none (struct none)";

// The name and the type of a line.
fn named_type(alloc: Global, line: &str) -> Result<(String, CType), Fail> {
    let (name, ty) = line.split_once(' ').ok_or("a name has no type")?;
    let name = String::from_str(alloc, name)?;
    Ok((name, c_type(alloc, ty)?))
}

fn pair(alloc: Global) -> Result<StructDef, Fail> {
    let mut members = Vec::new(alloc);
    for line in MEMBERS.lines() {
        members.push(named_type(alloc, line)?)?;
    }
    let name = String::from_str(alloc, "pair")?;
    Ok(StructDef { name, members })
}

fn layout(alloc: Global) -> Result<Layout, Fail> {
    let pair = pair(alloc)?;
    let mut l = Layout::build(Target::Ilp32, Vec::new(alloc))?;
    if l.can_follow(&pair) {
        l.define(alloc, pair)?;
    }
    Ok(l)
}

fn global(alloc: Global, line: &str) -> Result<GlobalVar, Fail> {
    let (name, ty) = named_type(alloc, line)?;
    let initial = Value::Number(Number::new(false, 0));
    Ok(GlobalVar { name, ty, initial })
}

fn globals(alloc: Global) -> Result<Vec<GlobalVar>, Fail> {
    let mut globals = Vec::new(alloc);
    for line in GLOBALS.lines() {
        globals.push(global(alloc, line)?)?;
    }
    Ok(globals)
}

// The function of a name and locals.
fn function(alloc: Global, words: &str, body: Simpl) -> Result<SimplFn, Fail> {
    let (name, locals) = head(alloc, words)?;
    Ok(SimplFn {
        name,
        locals,
        level: Level::Words,
        body,
    })
}

fn level(word: &str) -> Result<Level, Fail> {
    match word {
        "bytes" => Ok(Level::Bytes),
        "words" => Ok(Level::Words),
        _ => Err(Fail::from("no such level")),
    }
}

// The signature of a level, a kind or `none`, a name and parameters.
fn signature(alloc: Global, words: &str) -> Result<Signature, Fail> {
    let (level_word, words) = words.split_once(' ').ok_or("no level")?;
    let (result, words) = words.split_once(' ').ok_or("no result")?;
    let level = level(level_word)?;
    let result = match result {
        "none" => None,
        _ => Some(kind(result)?),
    };
    let (name, params) = head(alloc, words)?;
    Ok(Signature {
        name,
        level,
        params,
        result,
    })
}

const GOOD: &str = "f a:w32 b:nat8 $ret:int32 $thrown:bool";

fn functions(alloc: Global, body: Simpl) -> Result<Vec<SimplFn>, Fail> {
    let mut functions = Vec::new(alloc);
    functions.push(function(alloc, GOOD, body)?)?;
    functions.push(function(alloc, "quiet", Simpl::Skip)?)?;
    Ok(functions)
}

fn signatures(alloc: Global) -> Result<Vec<Signature>, Fail> {
    let mut signatures = Vec::new(alloc);
    for words in ["words int32 f a:w32 b:nat8", "words none quiet"] {
        signatures.push(signature(alloc, words)?)?;
    }
    Ok(signatures)
}

// The unit with this body of its good function.
fn unit(alloc: Global, body: Simpl) -> Result<SimplUnit, Fail> {
    let functions = functions(alloc, body)?;
    let signatures = signatures(alloc)?;
    let globals = globals(alloc)?;
    Ok(SimplUnit {
        layout: layout(alloc)?,
        globals,
        functions,
        signatures,
    })
}

// Whether the unit with the body of a text is well-formed.
fn fits(alloc: Global, text: &str) -> Result<bool, Fail> {
    Ok(forms_ok(&unit(alloc, command(alloc, text)?)?))
}

const WELL_FORMED: &str = "\
(set a (w 32 1))
(set $thrown #t)
(gset g () (w 32 1))
(gset pair ((f 1)) (w 32 1))
(gset pair () (load (struct pair) a))
(gset many ((i 5)) (w 32 1))
(gset many () (global many))
(store (struct pair) (w 32 8) () (load (struct pair) a))
(store (struct pair) (w 32 8) ((f 0)) (w 32 1))
(seq skip skip)
(catch skip skip)
(cond #t skip skip)
(guard div #t skip)
(cond #t skip throw)
(while ((pointer #t) (bounds #t)) #t skip)
(call a f a b)
(call - quiet)";

const ILL_FORMED: &str = "\
(set c (w 32 1))
(set b (w 32 1))
(set b 1)
(set $thrown (w 32 1))
(set a (load (struct pair) a))
(set a (sel (global pair) (f 0)))
(gset h () (w 32 1))
(gset g () #t)
(gset pair ((f 2)) (w 32 1))
(gset pair () (w 32 1))
(gset many ((i (w 32 5))) (w 32 1))
(gset many ((i (nat (sel (global pair) (f 0))))) (w 32 1))
(gset vast ((i 5)) (w 32 1))
(gset vast () (global vast))
(gset none () (load (struct pair) a))
(store (struct pair) (w 32 8) ((f 2)) (w 32 1))
(store (struct none) (w 32 8) ((f 0)) (w 32 1))
(store (struct pair) 8 ((f 0)) (w 32 1))
(store (struct pair) b ((f 0)) (w 32 1))
(store (struct pair) (sel (global pair) (f 0)) ((f 0)) (w 32 1))
(seq skip (pick c))
(seq (pick c) skip)
(catch skip (pick c))
(catch (pick c) skip)
(cond #t skip (pick c))
(cond #t (pick c) skip)
(guard div #t (pick c))
(guard div (w 32 1) skip)
(cond #t (pick c) throw)
(cond (w 32 1) skip throw)
(while ((pointer #t) (bounds #t)) #t (pick c))
(while ((pointer #t) (bounds (w 32 1))) #t skip)
(while ((pointer #t) (bounds #t)) (w 32 1) skip)
(call a h a b)
(call a f a)
(call a f a b a)
(call - f a b)
(call b f a b)
(call c f a b)
(call a quiet)
(call - quiet a)";

#[test]
fn well_formed_commands(rt: HostRuntime) -> Result<(), Fail> {
    for text in WELL_FORMED.lines() {
        assert!(rt; fits(rt.alloc(), text)?, "{text}");
    }
    Ok(())
}

#[test]
fn ill_formed_commands(rt: HostRuntime) -> Result<(), Fail> {
    for text in ILL_FORMED.lines() {
        assert!(rt; !fits(rt.alloc(), text)?, "{text}");
    }
    Ok(())
}

// Whether many commands and one more are well-formed.
fn fits_behind(alloc: Global, count: u32, last: &str) -> Result<bool, Fail> {
    let parts = around(alloc, "skip ", last, "", count)?;
    let text = around(alloc, "(seq ", parts.as_str(), ")", 1)?;
    fits(alloc, text.as_str())
}

#[test]
fn long_sequences_have_an_answer(rt: HostRuntime) -> Result<(), Fail> {
    let alloc = rt.alloc();
    assert!(rt; fits_behind(alloc, 1_000_000, "(pick a)")?);
    assert!(rt; !fits_behind(alloc, 1_000, "(pick c)")?);
    Ok(())
}

// An `or` of so many operands and one more.
fn any_of(alloc: Global, count: u32) -> Result<Exp, AllocError> {
    let mut any = Exp::Truth(true);
    for _ in 0..count {
        let first = Box::new(alloc, Exp::Truth(false))?;
        any = Exp::Or(first, Box::new(alloc, any)?);
    }
    Ok(any)
}

// A function whose locals are so many words, which asks a long test and sets one of them.
fn function_with_words(alloc: Global, count: u32, set: &str) -> Result<SimplFn, Fail> {
    let mut words = String::from_str(alloc, "h")?;
    for k in 0..count {
        words.push_str(format!(in alloc; " x{k}:w32")?.as_str())?;
    }
    let set = Box::new(alloc, command(alloc, set)?)?;
    let skip = Box::new(alloc, Simpl::Skip)?;
    let body = Simpl::Cond(any_of(alloc, 32_767)?, set, skip);
    function(alloc, words.as_str(), body)
}

// Whether the unit with such a function more is well-formed.
fn fits_among_words(alloc: Global, count: u32, set: &str) -> Result<bool, Fail> {
    let mut u = unit(alloc, Simpl::Skip)?;
    u.functions.push(function_with_words(alloc, count, set)?)?;
    u.signatures.push(signature(alloc, "words none h")?)?;
    Ok(forms_ok(&u))
}

#[test]
fn many_locals_and_long_tests_have_an_answer(rt: HostRuntime) -> Result<(), Fail> {
    let alloc = rt.alloc();
    assert!(rt; fits_among_words(alloc, 20_000, "(set x19999 (w 32 1))")?);
    assert!(rt; !fits_among_words(alloc, 20_000, "(set x20000 (w 32 1))")?);
    Ok(())
}

// Whether the unit is well-formed with one function and one signature more, each of which may be
// `-` for none.
fn fits_one_more(alloc: Global, line: &str) -> Result<bool, Fail> {
    let (words, signature_words) = line.split_once(" | ").ok_or("no signature")?;
    let mut u = unit(alloc, Simpl::Skip)?;
    if words != "-" {
        u.functions.push(function(alloc, words, Simpl::Skip)?)?;
    }
    if signature_words != "-" {
        u.signatures.push(signature(alloc, signature_words)?)?;
    }
    Ok(forms_ok(&u))
}

const GOOD_FUNCTIONS: &str = "\
- | -
h y:bool x:w64 | words none h
h x:nat16 $ret:w32 | words w32 h x:nat16
h x:nat16 $ret:w32 | words none h";

// Names that aren't distinct, kinds that aren't, signatures of other functions, and more or fewer
// of one than of the other.
const OTHER_FUNCTIONS: &str = "\
quiet | words none quiet
h y:bool y:w64 | words none h
h y:bool x:w12 | words none h
h y:bool x:nat0 | words none h
h y:bool x:int65 | words none h
h x:nat16 $ret:w32 | words w32 i x:nat16
h x:nat16 $ret:w32 | words nat32 h x:nat16
h x:nat16 $ret:w32 | words none h y:nat16
h x:nat16 $ret:w32 | words none h x:int16
h x:nat16 $ret:w32 | bytes none h x:nat16
h | words none h x:bool
h | words w32 h
- | words none h
h | -";

#[test]
fn functions_of_their_signatures(rt: HostRuntime) -> Result<(), Fail> {
    for line in GOOD_FUNCTIONS.lines() {
        assert!(rt; fits_one_more(rt.alloc(), line)?, "{line}");
    }
    Ok(())
}

#[test]
fn functions_of_other_signatures(rt: HostRuntime) -> Result<(), Fail> {
    for line in OTHER_FUNCTIONS.lines() {
        assert!(rt; !fits_one_more(rt.alloc(), line)?, "{line}");
    }
    Ok(())
}

#[test]
fn names_of_globals_are_distinct(rt: HostRuntime) -> Result<(), Fail> {
    let alloc = rt.alloc();
    let mut u = unit(alloc, Simpl::Skip)?;
    u.globals.push(global(alloc, "g uint")?)?;
    assert!(rt; !forms_ok(&u));
    Ok(())
}
