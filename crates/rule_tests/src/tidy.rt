//! Programs from words, and what they are made.

use c_values::{Layout, Target};
use expression_lang::{Binder, Kind};
use given_scalars::Unit;
use monad_lang::Mon;
use polish::translate;
use program_sorts::Phase;
use std::alloc::{AllocError, Global};
use std::test::Fail;
use test_programs::program_of;

// `x` is a word, `n` and `m` are numbers, and `t` is a truth value.
fn parameters(alloc: Global) -> Result<Vec<Binder>, AllocError> {
    let mut binders = Vec::new(alloc);
    let kinds = [
        ("x", Kind::Word(32)),
        ("n", Kind::Nat(32)),
        ("m", Kind::Nat(32)),
        ("t", Kind::Bool),
    ];
    for (name, kind) in kinds {
        let name = String::from_str(alloc, name)?;
        binders.push(Binder { name, kind })?;
    }
    Ok(binders)
}

fn tidied(alloc: Global, left: &Mon) -> Result<Box<Mon>, Fail> {
    let layout = Layout::build(Target::Lp64, Vec::new(alloc))?;
    let binders = parameters(alloc)?;
    let unit = Unit {
        layout: &layout,
        globals: &[],
        functions: &[],
        phase: Phase::OnNumbers,
    };
    let (right, _tree) = translate(alloc, left, unit, &binders)?;
    Ok(right)
}

// Each program, and what it is made.
const ROWS: [(&str, &str); 14] = [
    // constants are put in, and what is constant then is computed
    (
        "1bind 1ret n1 a 1bind 1ret add a n1 b 1ret add b n",
        "1ret add n2 n",
    ),
    // what isn't used goes
    (
        "1bind 1ret add n n1 a 1ret n",
        "1bind 1ret add n n1 a 1ret n",
    ),
    ("1bind 1ret n a 1ret add a n1", "1ret add n n1"),
    // a sequence is turned
    (
        "1bind 1bind 1ret add n n1 c 1ret add c n2 a 1ret add a n7",
        "1bind 1ret add n n1 c 1bind 1ret add c n2 a 1ret add a n7",
    ),
    // a guard that is known goes
    (
        "bind guard lt n n7 bind guard lt n n7 1ret n",
        "bind guard lt n n7 1ret n",
    ),
    ("bind guard true 1ret n", "1ret n"),
    // a test that is known chooses
    ("if true 1ret n 1ret n1", "1ret n"),
    ("if not true 1ret n 1ret n1", "1ret n1"),
    // what gives its values back is all
    ("1bind pick_nat a 1ret a", "pick_nat"),
    // what undoes another head goes
    ("1ret word nat x", "1ret x"),
    ("1ret nat word n", "1ret nat word n"),
    (
        "bind guard natural n 1ret nat word n",
        "bind guard natural n 1ret n",
    ),
    // in a branch its test is known, and in a body its guard
    (
        "if natural n 1ret nat word n 1ret n",
        "if natural n 1ret n 1ret n",
    ),
    (
        "1loop a n natural a lt a m 1ret nat word a",
        "1loop a n natural a lt a m 1ret a",
    ),
];

#[test]
fn rows_are_made_tidy(rt: HostRuntime) -> Result<(), Fail> {
    let alloc = rt.alloc();
    for (left, right) in ROWS {
        let wanted = program_of(alloc, right)?;
        let left = program_of(alloc, left)?;
        let made = tidied(alloc, &left)?;
        assert!(rt; made.same(&wanted), "{right}");
    }
    Ok(())
}

// So many first parts, and then a last one.
fn repeated(alloc: Global, count: u32, first: &str, last: &str) -> Result<Box<Mon>, Fail> {
    let part = program_of(alloc, first)?;
    let mut whole = Box::new(alloc, program_of(alloc, last)?)?;
    for _ in 0..count {
        let first = part.copy(alloc)?;
        whole = Box::new(alloc, Mon::Bind(first, Vec::new(alloc), whole))?;
    }
    Ok(whole)
}

#[test]
fn a_long_sequence_stays(rt: HostRuntime) -> Result<(), Fail> {
    let alloc = rt.alloc();
    let left = repeated(alloc, 1_000_000, "write x x", "1ret n")?;
    let made = tidied(alloc, &left)?;
    assert!(rt; made.same(&left));
    Ok(())
}

#[test]
fn the_end_of_a_long_sequence_is_made_tidy(rt: HostRuntime) -> Result<(), Fail> {
    let alloc = rt.alloc();
    let left = repeated(alloc, 1_000_000, "write x x", "1ret add n n0")?;
    let wanted = repeated(alloc, 1_000_000, "write x x", "1ret n")?;
    let made = tidied(alloc, &left)?;
    assert!(rt; made.same(&wanted));
    Ok(())
}
