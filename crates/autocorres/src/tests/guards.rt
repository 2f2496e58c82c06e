//! Guards of each kind, in each place where an expression can stand, are translated and checked.

use crate::tests::checks::is_accepted;
use std::alloc::{AllocError, Global};
use std::test::Fail;

// What is declared, and a function that may end without its return.
const DECLARATIONS: &str = "struct s{int x;int w[4];};int g[4];int e(int a){if(a)return 1;}";

const PARAMETERS: &str = "(int a,int b,unsigned u,unsigned v,int n,int*p,struct s*q)";

// Expressions with guards: of division, of signed and unsigned arithmetic, of shifts, of pointers
// and their tags, and of bounds.
const GUARDED: &str = "\
a/b a%b u/v u%v a+b a-b a*b -a a<<n a>>n u<<n u+v u-v u*v -u *p q->x q->w[n] g[n]";

// What stands around an expression `@`: nothing, what is asked before it, and a loop whose test it
// is.
const PLACES: &str = "\
return @;
return n&&@;
return n||@;
return n?@:1;
while(@)n=1;return 0;
do n=1;while(@);return 0;";

// The function of the expression in a place of this number.
fn function(alloc: Global, number: u32, place: &str, guarded: &str) -> Result<String, Fail> {
    let (before, behind) = place.split_once('@').ok_or("no place")?;
    Ok(format!(in alloc; "int f{number}{PARAMETERS}{{{before}{guarded}{behind}}}")?)
}

// The text with a function for each expression and place, and how many they are.
fn text(alloc: Global) -> Result<(String, u32), Fail> {
    let mut text = String::from_str(alloc, DECLARATIONS)?;
    let mut count = 0u32;
    for guarded in GUARDED.split(' ') {
        for place in PLACES.lines() {
            let function = function(alloc, count, place, guarded)?;
            text.push_str(function.as_str())?;
            count = count.saturating_add(1);
        }
    }
    Ok((text, count))
}

// The start, and for each function the text before its name, the name and the text behind it.
fn around(
    alloc: Global,
    start: &str,
    before: &str,
    behind: &str,
    count: u32,
) -> Result<String, AllocError> {
    let mut all = format!(in alloc; "{start}{before}e{behind}")?;
    for number in 0..count {
        let one = format!(in alloc; "{before}f{number}{behind}")?;
        all.push_str(one.as_str())?;
    }
    Ok(all)
}

// Words that translate each function by an option, or by none.
fn words(alloc: Global, option: &str, count: u32) -> Result<String, AllocError> {
    if option.is_empty() {
        return String::from_str(alloc, "translate a.c");
    }
    around(alloc, "translate a.c", option, "", count)
}

// The lines that are said where each function is accepted at a level.
fn lines(alloc: Global, level: &str, count: u32) -> Result<String, AllocError> {
    let mut lines = around(alloc, "", "", level, count)?;
    lines.push_str("accepted 115")?;
    Ok(lines)
}

#[test]
fn guards_in_each_place_are_translated(rt: HostRuntime) -> Result<(), Fail> {
    let (text, count) = text(rt.alloc())?;
    for (option, level) in [("", " numbers\n"), (" words=", " words\n")] {
        let words = words(rt.alloc(), option, count)?;
        let lines = lines(rt.alloc(), level, count)?;
        let is_so = is_accepted(rt.alloc(), words.as_str(), text.as_str(), lines.as_str())?;
        assert!(rt; is_so, "{level}");
    }
    Ok(())
}
