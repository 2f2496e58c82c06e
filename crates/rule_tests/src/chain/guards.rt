//! Tests with each guard wherever an expression may stand.

use crate::chain::{ALL, Chosen, are_taken};
use c_values::Target;
use std::alloc::{AllocError, Global};
use std::test::Fail;

// Expressions with a guard each: of a divisor, a signed result, a shift, a pointer and its tag, an index,
// and an unsigned result.
const GUARDED: [&str; 15] = [
    "a/b", "i/j", "a%b", "i%j", "i+j", "i*j", "-i", "a<<b", "i<<j", "i>>b", "*p", "s->v[a]", "a+b",
    "a*b", "-a",
];

// Where an expression, here E, may stand.
const PLACES: [&str; 14] = [
    "a=E;",
    "if(E)a=1;",
    "if(a&&(E))i=1;",
    "if((E)&&a)i=1;",
    "if(a||(E))i=1;",
    "a=b?(E):1;",
    "a=(E)?b:1;",
    "if(!(E))a=2;",
    "while(E){a=3;break;}",
    "do{if(b)continue;a=4;}while((E)>9);",
    "for(;E;)break;",
    "s->v[E]=1;",
    "a=g(E);",
    "switch(E){case 1:a=5;break;default:a=6;}",
];

// A text with one function for the expression in the place.
fn text(alloc: Global, place: &str, guarded: &str) -> Result<String, AllocError> {
    let mut text = String::from_str(
        alloc,
        "struct s{int n;unsigned v[4];};unsigned g(unsigned x){return x;}\
         unsigned f(unsigned a,unsigned b,int i,int j,unsigned*p,struct s*s){",
    )?;
    for (k, part) in place.split('E').enumerate() {
        if k > 0 {
            text.push_str(guarded)?;
        }
        text.push_str(part)?;
    }
    text.push_str("return a;}")?;
    Ok(text)
}

#[test]
fn each_guard_in_each_place(rt: HostRuntime) -> Result<(), Fail> {
    let alloc = rt.alloc();
    for place in PLACES {
        for guarded in GUARDED {
            let text = text(alloc, place, guarded)?;
            for chosen in ALL {
                assert!(rt;
                    are_taken(alloc, text.as_str(), Target::Ilp32, chosen)?,
                    "{chosen:?} {text}"
                );
            }
            assert!(rt;
                are_taken(alloc, text.as_str(), Target::Lp64, Chosen::Defaults)?,
                "{text}"
            );
        }
    }
    Ok(())
}

// The end of a function that gives a result.
#[test]
fn the_end_that_is_not_reached(rt: HostRuntime) -> Result<(), Fail> {
    let alloc = rt.alloc();
    for text in [
        "unsigned f(unsigned a){if(a)return 1;}",
        "int f(int i){while(i>0){i=i-1;}}",
        "int f(int i){switch(i){case 1:return 2;default:break;}}",
    ] {
        for chosen in ALL {
            assert!(rt; are_taken(alloc, text, Target::Ilp32, chosen)?, "{text}");
        }
    }
    Ok(())
}
