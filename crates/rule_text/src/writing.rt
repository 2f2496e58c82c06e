//! Trees of rules, written.

ghost use Rattle.std.specs.Prelude.{◌≡◌, OnOk};
ghost use Rattle.ac_sx.specs.Tree.{Trees};
ghost use Rattle.ac_sx.specs.Writing.{written, all_written};
ghost use Rattle.c_values.specs.Name.{Name};
ghost use Rattle.rule_text.specs.RuleText.{word_with};
ghost use Rattle.rule_text.specs.CodeWriting.{has_trees, text_in};

use ac_sx::TreeWriter;
use expression_text::begin_list;
use rule_trees::Tree;
use std::alloc::{AllocError, Global};

/// Rules that have texts: each has a word, and data behind it.
pub(crate) trait RuleText: Drop {
    ghost its_word: { Self → Name };

    ghost its_data: { Self → Trees };

    /// Its word.
    fn word(&self) -> &'static str
        ensures { result.now ≡ its_word self.now };

    /// Whether something stands behind its word.
    fn has_data(&self) -> bool
        ensures { result ≡ has_trees (its_data self.now) };

    /// Writes what stands behind its word.
    fn data_into<W: TreeWriter>(&self, alloc: Global, out: &mut W) -> Result<(), AllocError>
        ensures { OnOk result (W.state out.new
            ≡ all_written W.writing (W.state out.old) (its_data self.now)) };
}

/// Writes a tree. It goes along the last parts by a loop, since a tree may be as deep as a program
/// is long.
#[tactic(auto, using(program_text::proofs::Writing::lists_left_push))]
pub(crate) fn rule_into<R: RuleText, W: TreeWriter>(
    alloc: Global,
    out: &mut W,
    tree: &Tree<R>,
) -> Result<(), AllocError>
    ensures { OnOk result (W.state out.new ≡ written W.writing (W.state out.old)
        (text_in (R.its_word) (R.its_data) tree.now)) }
{
    let mut lists = Vec::new(alloc);
    let mut rest = tree;
    'along: while let Some((last, others)) = rest.parts.split_last() {
        headed_into(alloc, out, &rest.rule)?;
        let mut left = others;
        'parts: while let Some((part, behind)) = left.split_first() {
            rule_into(alloc, out, part)?;
            left = behind;
        }
        lists.push(rest)?;
        rest = last;
    }
    leaf_into(alloc, out, &rest.rule)?;
    'back: while let Some(_list) = lists.pop() {
        out.leave()?;
    }
    Ok(())
}

// The beginning of a list with a rule's word and data.
fn headed_into<R: RuleText, W: TreeWriter>(
    alloc: Global,
    out: &mut W,
    rule: &R,
) -> Result<(), AllocError>
    ensures { OnOk result (W.state out.new ≡ all_written W.writing
        (W.writing.put (W.writing.entered (W.state out.old)) (R.its_word rule.now))
        (R.its_data rule.now)) }
{
    begin_list(out, rule.word())?;
    rule.data_into(alloc, out)
}

// A node without parts: its word alone, where it has no data.
fn leaf_into<R: RuleText, W: TreeWriter>(
    alloc: Global,
    out: &mut W,
    rule: &R,
) -> Result<(), AllocError>
    ensures { OnOk result (W.state out.new ≡ written W.writing (W.state out.old)
        (word_with (R.its_word rule.now) (R.its_data rule.now))) }
{
    if !rule.has_data() {
        return out.atom(rule.word());
    }
    headed_into(alloc, out, rule)?;
    out.leave()
}
