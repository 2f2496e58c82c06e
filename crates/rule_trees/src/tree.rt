//! Trees of rules.

ghost use Rattle.std.specs.Prelude.{◌≡◌, ◌≢◌, [], ◌∷◌, length, IfNone, IfSome};

/// A rule, and a tree for each of its parts, in their order.
pub struct Tree<R: Drop> {
    pub rule: R,
    pub parts: Vec<Tree<R>>,
}

// A derived drop would call itself once for each level, and a tree is as deep as what it speaks of.
impl<R: Drop> Drop for Tree<R> {
    fn drop(mut self) {
        loop {
            let Tree {
                rule: _rule,
                mut parts,
            } = self;
            match parts.pop() {
                Some(last) => self = last,
                None => return,
            }
        }
    }
}

/// The only one of trees.
pub fn only<R: Drop>(parts: &[Tree<R>]) -> Option<&Tree<R>>
    ensures some { IfSome result (λ part. parts.now ≡ part.now ∷ []) }
    ensures none { IfNone result (length parts.now ≢ 1) }
{
    match parts.split_first() {
        Some((part, rest)) if rest.is_empty() => Some(part),
        _ => None,
    }
}

/// The two of two trees.
pub fn both<R: Drop>(parts: &[Tree<R>]) -> Option<(&Tree<R>, &Tree<R>)>
    ensures some { IfSome result (λ (first, last). parts.now ≡ first.now ∷ last.now ∷ []) }
    ensures none { IfNone result (length parts.now ≢ 2) }
{
    let (first, rest) = parts.split_first()?;
    let last = only(rest)?;
    Some((first, last))
}
