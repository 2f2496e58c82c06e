//! Tests of arithmetic: sums, shifts and comparisons of each type, and conversions between all
//! types.

use crate::chain::{ALL, Chosen, are_taken};
use c_values::Target;
use std::alloc::{AllocError, Global};
use std::test::Fail;

const TYPES: [&str; 10] = [
    "signed char",
    "unsigned char",
    "short",
    "unsigned short",
    "int",
    "unsigned",
    "long",
    "unsigned long",
    "long long",
    "unsigned long long",
];

// A sum that is guarded as signed at one place and as unsigned at another.
#[test]
fn sums_at_two_kinds(rt: HostRuntime) -> Result<(), Fail> {
    let alloc = rt.alloc();
    for text in [
        "unsigned f(int s,int t){return((unsigned)(s+t)+1u)+((unsigned)s+(unsigned)t);}",
        "unsigned f(int s,int t){return(((unsigned)s+(unsigned)t)+1u)+(unsigned)(s+t);}",
    ] {
        for target in [Target::Ilp32, Target::Lp64] {
            for chosen in ALL {
                assert!(rt; are_taken(alloc, text, target, chosen)?, "{text}");
            }
        }
    }
    Ok(())
}

// The pattern with each of the parts in turn in place of a number sign.
fn filled(alloc: Global, pattern: &str, parts: &[&str]) -> Result<String, AllocError> {
    let mut text = String::new(alloc);
    let mut left = parts.iter();
    for (k, rest) in pattern.split('#').enumerate() {
        if k > 0 {
            if let Some(part) = left.next() {
                text.push_str(part)?;
            }
        }
        text.push_str(rest)?;
    }
    Ok(text)
}

#[test]
fn casts_between_all_types(rt: HostRuntime) -> Result<(), Fail> {
    let alloc = rt.alloc();
    for from in TYPES {
        for to in TYPES {
            let text = filled(alloc, "# f(# a){return(#)a;}", &[to, from, to])?;
            for target in [Target::Ilp32, Target::Lp64] {
                assert!(rt;
                    are_taken(alloc, text.as_str(), target, Chosen::Defaults)?,
                    "{text}"
                );
            }
        }
    }
    Ok(())
}

#[test]
fn operations_on_each_type(rt: HostRuntime) -> Result<(), Fail> {
    let alloc = rt.alloc();
    for ty in TYPES {
        for op in ["+", "-", "*", "/", "%", "&", "|", "^", "<<", ">>"] {
            let text = filled(alloc, "# f(# a,# b){return a#b;}", &[ty, ty, ty, op])?;
            for chosen in ALL {
                assert!(rt;
                    are_taken(alloc, text.as_str(), Target::Ilp32, chosen)?,
                    "{text}"
                );
            }
        }
    }
    Ok(())
}

#[test]
fn comparisons_of_mixed_signs(rt: HostRuntime) -> Result<(), Fail> {
    let alloc = rt.alloc();
    for left in TYPES {
        for op in ["<", "<=", ">", ">=", "==", "!="] {
            for right in ["int", "unsigned", "long long"] {
                let text = filled(alloc, "int f(# a,# b){return a#b;}", &[left, right, op])?;
                assert!(rt;
                    are_taken(alloc, text.as_str(), Target::Lp64, Chosen::Defaults)?,
                    "{text}"
                );
            }
        }
    }
    Ok(())
}

// So many sums in one expression.
fn long_sum(alloc: Global, count: u32) -> Result<String, AllocError> {
    let mut text = String::from_str(alloc, "unsigned f(unsigned a){return a")?;
    for _ in 0..count {
        text.push_str("+a")?;
    }
    text.push_str(";}")?;
    Ok(text)
}

#[test]
fn long_sums(rt: HostRuntime) -> Result<(), Fail> {
    let alloc = rt.alloc();
    for count in [9u32, 18, 27] {
        let text = long_sum(alloc, count)?;
        assert!(rt; are_taken(alloc, text.as_str(), Target::Ilp32, Chosen::Defaults)?);
    }
    Ok(())
}
