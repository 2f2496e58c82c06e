//! Laws of texts, each the contract of a function that does nothing.
ghost use Rattle.std.specs.Prelude.{◌≡◌, ◌<◌, ◌≤◌, ◌↔◌, ℕ, List, Some, length, get_or, slice_get};
ghost use Rattle.ac_sx.specs.Tree.{Tree, Node, IsTree, file, depth, deepest};
ghost use Rattle.ac_sx.specs.Front.{IsShallow, OpensTooDeep};
ghost use Rattle.ac_sx.specs.Answer.{IsNoText};
ghost use Rattle.ac_sx.specs.Table.{Entry, Parts, IsTable, Keeps, trees_at, trees_of};

/// No two trees have one text. A text breaks off at one place, or opens a list too deep at one place, and never both.
pub fn one_reading()
    ensures trees { (t u : Tree) → IsTree t → IsTree u → file t ≡ file u → t ≡ u }
    ensures breaks { (text : List ℕ) (at to : ℕ) → IsNoText text at → IsNoText text to → at ≡ to }
    ensures deep { (text : List ℕ) (at to : ℕ) → OpensTooDeep text at → OpensTooDeep text to →
        at ≡ to }
    ensures apart { (text : List ℕ) (at to : ℕ) → IsNoText text at → OpensTooDeep text to → ⊥ }
{}

/// A tree isn't too deep exactly where its text opens no list too deep.
pub fn depth_is_nesting()
    ensures { (t : Tree) → IsTree t → (depth t ≤ deepest) ↔ IsShallow (file t) }
{}

/// In a table no tree has two numbers. The parts of a list are the trees of smaller numbers.
pub fn one_number()
    ensures once { (es : List Entry) → IsTable es → (i j : ℕ) (t : Tree) →
        slice_get (trees_of es) i ≡ Some t → slice_get (trees_of es) j ≡ Some t → i ≡ j }
    ensures list { (es : List Entry) → IsTable es → (i : ℕ) (parts : List ℕ) →
        slice_get es i ≡ Some (Parts parts) →
        slice_get (trees_of es) i ≡ Some (Node (trees_at (trees_of es) parts)) }
    ensures earlier { (es : List Entry) → IsTable es → (i : ℕ) (parts : List ℕ) →
        slice_get es i ≡ Some (Parts parts) →
        (k : ℕ) → k < length parts → get_or parts k 0 < i }
{}

/// What a table keeps has its number and its tree in the other.
pub fn kept_trees()
    ensures { (old new : List Entry) → Keeps old new → (i : ℕ) (t : Tree) →
        slice_get (trees_of old) i ≡ Some t → slice_get (trees_of new) i ≡ Some t }
{}
