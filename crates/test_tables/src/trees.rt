//! Trees of rules from words.

use rule_trees::Tree;
use std::alloc::Global;
use std::test::Fail;

/// Rules that have names.
pub trait Rules {
    type Rule: Drop;

    /// The rule of a name.
    fn named(alloc: Global, name: &str) -> Result<Self::Rule, Fail>;
}

/// A word with a number in front, and without one.
pub fn counted(word: &str) -> (u32, &str) {
    for (digit, count) in [('0', 0u32), ('1', 1), ('2', 2), ('3', 3), ('4', 4)] {
        if let Some(name) = word.strip_prefix(digit) {
            return (count, name);
        }
    }
    (0, word)
}

/// The tree that words spell: a rule by its name, and in front of one with parts how many, as
/// `2bind same same`.
pub fn tree<R: Rules>(alloc: Global, words: &str) -> Result<Tree<R::Rule>, Fail> {
    let mut stack: Vec<Tree<R::Rule>> = Vec::new(alloc);
    for word in words.rsplit(' ') {
        let (count, name) = counted(word);
        let mut parts = Vec::new(alloc);
        for _ in 0..count {
            parts.push(stack.pop().ok_or("a rule has too few parts")?)?;
        }
        let rule = R::named(alloc, name)?;
        stack.push(Tree { rule, parts })?;
    }
    Ok(stack.pop().ok_or("no words")?)
}
