//! Functions of many sizes: straight lines, loops, choices, many locals, deep conditions and long
//! expressions. What their steps cost is counted in `docs/PERFORMANCE.md`.

use crate::chain::{Chosen, are_taken};
use c_values::Target;
use std::alloc::{AllocError, Global};
use std::test::Fail;

// A text: what comes first, a part so many times, each time with its number in place of N, and what comes
// last.
fn repeated(
    alloc: Global,
    first: &str,
    part: &str,
    count: u32,
    last: &str,
) -> Result<String, AllocError> {
    let mut text = String::from_str(alloc, first)?;
    for n in 0..count {
        for (k, rest) in part.split('N').enumerate() {
            if k > 0 {
                let number = format!(in alloc; "{n}")?;
                text.push_str(number.as_str())?;
            }
            text.push_str(rest)?;
        }
    }
    text.push_str(last)?;
    Ok(text)
}

// Shapes, with how many parts make about a hundred commands.
const SHAPES: [(&str, &str, &str, u32); 4] = [
    ("void f(unsigned*p,unsigned a){", "*p=*p+a;", "}", 17),
    (
        "unsigned f(unsigned a){",
        "while(a>N){a=a-1;}",
        "return a;}",
        8,
    ),
    (
        "unsigned f(unsigned a,unsigned b){",
        "if(a>b)a=a-b;else b=b/2;",
        "return a;}",
        8,
    ),
    (
        "unsigned f(unsigned a){unsigned b=a;unsigned c=b;unsigned d=c;unsigned e=d;unsigned g=e;unsigned h=g;unsigned i=h;",
        "a=b+N;b=c;c=d;d=e;e=g;g=h;h=i;i=a;",
        "return a;}",
        2,
    ),
];

fn is_taken(alloc: Global, text: &str) -> Result<bool, Fail> {
    are_taken(alloc, text, Target::Ilp32, Chosen::Defaults)
}

#[test]
fn functions_of_many_sizes(rt: HostRuntime) -> Result<(), Fail> {
    let alloc = rt.alloc();
    for (first, part, last, count) in SHAPES {
        for times in [1u32, 2, 4, 8] {
            let text = repeated(alloc, first, part, times.saturating_mul(count), last)?;
            assert!(rt; is_taken(alloc, text.as_str())?, "{text}");
        }
    }
    Ok(())
}

// Conditions of so many parts, and expressions of some 10 to 128 nodes.
#[test]
fn expressions_of_many_sizes(rt: HostRuntime) -> Result<(), Fail> {
    let alloc = rt.alloc();
    for count in [2u32, 5, 10, 18] {
        let text = repeated(
            alloc,
            "int f(unsigned a,unsigned b){return a>0",
            "&&a+N>b",
            count,
            ";}",
        )?;
        assert!(rt; is_taken(alloc, text.as_str())?, "{text}");
        let text = repeated(
            alloc,
            "unsigned f(unsigned a){return a",
            "+a/2",
            count,
            ";}",
        )?;
        assert!(rt; is_taken(alloc, text.as_str())?, "{text}");
    }
    Ok(())
}
