//! Laws of the tokens of a text, each the contract of a function that does nothing.
ghost use Rattle.std.specs.Prelude.{◌≡◌, ◌↔◌, ℕ, Bool, List, length};
ghost use Rattle.c_lex.specs.Number.{ilp32, lp64, has_type};
ghost use Rattle.c_lex.specs.Lexeme.{Kind, Lexeme};
ghost use Rattle.c_lex.specs.Front.{Cause, gap, holds, front};
ghost use Rattle.c_lex.specs.Gap.{IsGap};
ghost use Rattle.c_lex.specs.Spelling.{Stands};
ghost use Rattle.c_lex.specs.Tokens.{Tokens, FaultAt, Ascends};

/// A text has one list of tokens at most, or one first fault, and never both.
pub fn one_reading()
    ensures tokens { (text : List ℕ) (ts us : List Lexeme) → Tokens text ts → Tokens text us →
        ts ≡ us }
    ensures fault { (text : List ℕ) (c d : Cause) (at to : ℕ) → FaultAt text c at →
        FaultAt text d to → (c ≡ d) × (at ≡ to) }
    ensures apart { (text : List ℕ) (ts : List Lexeme) (c : Cause) (at : ℕ) → Tokens text ts →
        FaultAt text c at → ⊥ }
{}

/// Each token takes a byte at least, none begins before the one before it ends, and the last ends in the text.
pub fn spans_ascend()
    ensures { (text : List ℕ) (ts : List Lexeme) → Tokens text ts → Ascends 0 (length text) ts }
{}

/// What stands at the front of a text is read there, and what is read stands there: a token where its spelling stands and goes
/// on no further, and white space, a comment or a blank line.
pub fn longest_tokens()
    ensures tokens { (fresh : Bool) (text : List ℕ) (kind : Kind) (n : ℕ) →
        (front fresh text ≡ holds kind n) ↔ Stands kind n text }
    ensures gaps { (fresh after : Bool) (text : List ℕ) (n : ℕ) → (front fresh text ≡ gap n after) ↔
        IsGap fresh text n after }
{}

/// A number has a type under one target exactly where it has one under the other.
pub fn targets_agree()
    ensures { (decimal unsigned : Bool) (longs value : ℕ) →
        has_type ilp32 decimal unsigned longs value ≡ has_type lp64 decimal unsigned longs value }
{}
