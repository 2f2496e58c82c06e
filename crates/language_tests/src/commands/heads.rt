//! What functions have beside their bodies, from words: `f a:w32 b:nat8` is a name and two names
//! with kinds.

use expression_lang::{Binder, Kind};
use std::alloc::Global;
use std::test::Fail;

/// The kind of a word: `bool`, or a letter or more and the number of bits.
pub(crate) fn kind(word: &str) -> Result<Kind, Fail> {
    if word == "bool" {
        return Ok(Kind::Bool);
    }
    if let Some(bits) = word.strip_prefix("nat") {
        return Ok(Kind::Nat(bits.parse::<u8>()?));
    }
    if let Some(bits) = word.strip_prefix("int") {
        return Ok(Kind::Int(bits.parse::<u8>()?));
    }
    let bits = word.strip_prefix('w').ok_or("no such kind")?;
    Ok(Kind::Word(bits.parse::<u8>()?))
}

// A name with its kind.
fn binder(alloc: Global, word: &str) -> Result<Binder, Fail> {
    let (name, bits) = word.split_once(':').ok_or("a name has no kind")?;
    let kind = kind(bits)?;
    let name = String::from_str(alloc, name)?;
    Ok(Binder { name, kind })
}

/// A name, and names with kinds.
pub(crate) fn head(alloc: Global, words: &str) -> Result<(String, Vec<Binder>), Fail> {
    let mut words = words.split(' ');
    let name = words.next().ok_or("a function has no name")?;
    let mut binders = Vec::new(alloc);
    for word in words {
        binders.push(binder(alloc, word)?)?;
    }
    Ok((String::from_str(alloc, name)?, binders))
}
