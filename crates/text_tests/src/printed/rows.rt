//! Tests of the texts of programs: in each row the words of a program, and the lines of its text.

use crate::printed::units::{function, parameter, unit, unit_of};
use abs_print::print;
use expression_lang::Kind;
use monad_lang::FinalFn;
use std::alloc::Global;
use std::process::Abort;
use std::test::Fail;
use test_programs::program_of;

const ROWS: &str = "\
0ret
  return

1ret a
  return a

3ret add a n7 choose c word a minus byte
  return (a + 7), (if c (word 32 a) (w 32 4294967295)), (w 8 200)

bind guard natural add a b 1ret add a b
  guard (0 <= (a + b) <= 4294967295)
  return (a + b)

bind guard integer sub a m1 0ret
  guard (-2147483648 <= (a - -1) <= 2147483647)
  return

bind guard and lt mul a b n1 or le div a b mod a b imp eq a b not c 0ret
  guard (((a * b) < 1) & (((a / b) <= (a % b)) | ((a = b) ==> (not c))))
  return

1bind pick x 1ret wadd x shl wneg x nat zext x
  x <- pick w 32
  return (wadd x (wshl (wneg x) (nat (zext 64 x))))

2bind 2call g a b x y 2ret x y
  x, y <- call g(a, b)
  return x, y

bind 0call g 1bind pick_truth x 1bind pick_int y 1bind pick_byte z pick_nat
  call g()
  x <- pick bool
  y <- pick int 32
  z <- pick nat 8
  pick nat 32

bind store p add a b bind write_at p x load_at q y set g read_at p z
  int p := (a + b)
  (array int 4) p (i x) := (load (array int 4) q (i y))
  g := (read (array int 4) p (i z))

if eq a b bind guard c 1ret a if true 1ret b 1ret c
  if (a = b)
    guard c
    return a
  else
    if #t
      return b
    else
      return c

1bind if c 1ret a 1ret b x 1ret x
  x <- if c
    return a
  else
    return b
  return x

0loop true c 0ret
  loop guard #t test c
    return

1bind 1loop x a true lt x b bind guard le x b 1ret add x n1 y 1ret y
  y <- loop x = a guard #t test (x < b)
    guard (x <= b)
    return (x + 1)
  return y

2bind 2loop x a y add a b tagged p false 2ret y x z w guard w
  z, w <- loop x = a, y = (a + b) guard (tagged int p) test #f
    return y, x
  guard w

bind bind guard a guard b 1bind bind 1bind pick x 1ret x 0ret y 0ret
  do
    guard a
    guard b
  y <- do
    do
      x <- pick w 32
      return x
    return
  return";

// A row's program is the body of a function without parameters and results.
fn is_printed(rt: &impl Abort, alloc: Global, words: &str, lines: &str) -> Result<(), Fail> {
    let text = print(alloc, &unit_of(alloc, program_of(alloc, words)?)?)?;
    let expected = format!(in alloc; "f : unit\n{lines}\n")?;
    assert!(rt; text.as_slice() == expected.as_bytes(), "{words}");
    Ok(())
}

#[test]
fn programs_are_printed(rt: HostRuntime) -> Result<(), Fail> {
    let alloc = rt.alloc();
    for row in ROWS.split("\n\n") {
        let (words, lines) = row.split_once('\n').ok_or("a row has words and lines")?;
        is_printed(&rt, alloc, words, lines)?;
    }
    Ok(())
}

const UNIT: &str = "\
f (a : nat 32) (b : nat 32) : nat 32
  guard (0 <= (a + b) <= 4294967295)
  return (a + b)

g (p : w 64) (q : int 8) (t : bool) : bool
  return t

h : unit
  return
";

// A function whose body these words are.
fn function_of(
    alloc: Global,
    name: &str,
    params: &[(&str, Kind)],
    results: &[Kind],
    words: &str,
) -> Result<FinalFn, Fail> {
    let mut f = function(alloc, name, program_of(alloc, words)?)?;
    for (name, kind) in params {
        f.params.push(parameter(alloc, name, *kind)?)?;
    }
    for kind in results {
        f.results.push(*kind)?;
    }
    Ok(f)
}

// A sum, what gives the last of three parameters, and what gives nothing.
fn functions(alloc: Global) -> Result<Vec<FinalFn>, Fail> {
    let nat = Kind::Nat(32);
    let kinds = [
        ("p", Kind::Word(64)),
        ("q", Kind::Int(8)),
        ("t", Kind::Bool),
    ];
    let sum = "bind guard natural add a b 1ret add a b";
    let mut all = Vec::new(alloc);
    all.push(function_of(alloc, "f", &[("a", nat), ("b", nat)], &[nat], sum)?)?;
    all.push(function_of(alloc, "g", &kinds, &[Kind::Bool], "1ret t")?)?;
    all.push(function_of(alloc, "h", &[], &[], "0ret")?)?;
    Ok(all)
}

#[test]
fn units_are_printed(rt: HostRuntime) -> Result<(), Fail> {
    let alloc = rt.alloc();
    let text = print(alloc, &unit(alloc, functions(alloc)?)?)?;
    assert!(rt; text.as_slice() == UNIT.as_bytes());
    Ok(())
}

#[test]
fn a_unit_without_functions_has_no_text(rt: HostRuntime) -> Result<(), Fail> {
    let alloc = rt.alloc();
    assert!(rt; print(alloc, &unit(alloc, Vec::new(alloc))?)?.is_empty());
    Ok(())
}
