//! Expressions without parts, and steps into members.

ghost use Rattle.std.specs.Prelude.{◌≡◌, ◌++◌, [], ◌∷◌, OnOk};
ghost use Rattle.std.specs.Fmt.{decimal};
ghost use Rattle.expression_lang.specs.Expression.{WordLit};
ghost use Rattle.expression_lang.specs.CodeShape.{whole_leaf};
ghost use Rattle.expression_lang.specs.CodeShapeView.{leaf_in};
ghost use Rattle.expression_text.specs.ExpText.{field_word};
ghost use Rattle.abs_print.specs.Texts.{listed};
ghost use Rattle.abs_print.specs.Expressions.{exp_text};

use crate::texts::{push, push_natural, push_number};
use c_values::Word;
use expression_lang::Leaf;
use std::alloc::AllocError;

pub(crate) fn push_leaf(out: &mut Vec<u8>, leaf: Leaf<'_>) -> Result<(), AllocError>
    ensures { OnOk result
        (out.new.items ≡ out.old.items ++ exp_text (whole_leaf (leaf_in leaf.entry))) }
{
    match leaf {
        Leaf::Var(name) => push(out, name),
        Leaf::Word(word) => push_word(out, word),
        Leaf::Number(number) => push_number(out, number),
        Leaf::Truth(true) => push(out, "#t"),
        Leaf::Truth(false) => push(out, "#f"),
    }
}

fn push_word(out: &mut Vec<u8>, word: Word) -> Result<(), AllocError>
    ensures { OnOk result (out.new.items ≡ out.old.items ++ exp_text (WordLit word)) }
{
    push(out, "(w ")?;
    push_natural(out, u64::from(word.width()))?;
    push(out, " ")?;
    push_natural(out, word.bits())?;
    push(out, ")")
}

/// A step into a member.
pub(crate) fn push_field(out: &mut Vec<u8>, member: u32) -> Result<(), AllocError>
    ensures { OnOk result
        (out.new.items ≡ out.old.items ++ listed (field_word ∷ decimal member ∷ [])) }
{
    push(out, "(f ")?;
    push_natural(out, u64::from(member))?;
    push(out, ")")
}
