//! Programs of many sizes, through the kernels of both steps and the translator to numbers: deep
//! ones, and ones where what is wanted is known from far before. A row is one of `heaps` or
//! `words`, with parts that stand there many times. What the kernels cost is counted in
//! `docs/PERFORMANCE.md`.

use crate::rows::repeated;
use crate::steps::{heaps, words};
use std::alloc::Global;
use std::test::Fail;

// Whether the kernel of heaps says what the row does, with so many parts.
fn is_on_heaps(alloc: Global, line: &str, count: u32) -> Result<bool, Fail> {
    heaps::is_so(alloc, repeated(alloc, line, count)?.as_str())
}

// Whether that of numbers does.
fn is_on_numbers(alloc: Global, line: &str, count: u32) -> Result<bool, Fail> {
    words::is_so(alloc, repeated(alloc, line, count)?.as_str())
}

const DEEP_ON_HEAPS: &str = "\
2bind *1guard 1tagged leaf* ret | bind *guard tagged p* ret | bind *guard tagged p* ret | ok
3if leaf *1guard leaf* ret | if t *guard t* ret | if t *guard t* ret | ok
3loop leaf leaf *1guard leaf* | loop true t *guard t* | loop true t *guard t* | ok";

#[test]
fn deep_programs_on_heaps(rt: HostRuntime) -> Result<(), Fail> {
    for line in DEEP_ON_HEAPS.lines() {
        assert!(rt; is_on_heaps(rt.alloc(), line, 4_095)?, "{line}");
    }
    Ok(())
}

const DEEP_ON_NUMBERS: &str = "\
nat | 2bind_nat *1ret var* 1ret var | 1bind *1ret a* x 1ret x | 1bind *1ret a* x 1ret x | ok
nat | 3if var *1ret var* 1ret var | if t *1ret a* 1ret b | if t *1ret a* 1ret b | ok
none | 3loop const var *1guard var* | loop true t *guard t* | loop true t *guard t* | ok";

#[test]
fn deep_programs_on_numbers(rt: HostRuntime) -> Result<(), Fail> {
    for line in DEEP_ON_NUMBERS.lines() {
        assert!(rt; is_on_numbers(rt.alloc(), line, 4_095)?, "{line}");
    }
    Ok(())
}

#[test]
fn deep_programs_become_numbers(rt: HostRuntime) -> Result<(), Fail> {
    for line in DEEP_ON_NUMBERS.lines() {
        let row = repeated(rt.alloc(), line, 1_023)?;
        assert!(rt; words::is_made(rt.alloc(), row.as_str())?, "{line}");
    }
    Ok(())
}

const FAR_ON_HEAPS: &str = "\
*2bind 1guard 1tagged leaf *2bind 1guard leaf *1ret 1load leaf | \
    *bind guard tagged p *bind guard t *1ret load p | \
    *bind guard tagged p *bind guard t *1ret read p | ok";

const FAR_ON_NUMBERS: &str = "\
nat | *2bind 1guard 1op 2op 1nat var 1nat var *2bind 1guard var *1ret 2add var var | \
    *bind guard natural add nat a nat b *bind guard t *1ret wadd a b | \
    *bind guard natural add a b *bind guard t *1ret add a b | ok";

// What is wanted is the oldest of so many facts.
#[test]
fn facts_from_far_before(rt: HostRuntime) -> Result<(), Fail> {
    let alloc = rt.alloc();
    for count in [100u32, 200, 400, 800] {
        assert!(rt;
            is_on_heaps(alloc, FAR_ON_HEAPS, count)?,
            "{count} on heaps"
        );
        assert!(rt;
            is_on_numbers(alloc, FAR_ON_NUMBERS, count)?,
            "{count} on numbers"
        );
    }
    Ok(())
}
