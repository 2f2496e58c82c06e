//! Texts of memories.
ghost use Rattle.std.specs.Prelude.{◌≡◌, ◌<◌, ◌≤◌, ℕ, true, Err, IfOk, IfErr};
ghost use Rattle.ac_sx.specs.Tree.{Tree, depth, deepest};
ghost use Rattle.ac_sx.specs.Front.{OpensTooDeep};
ghost use Rattle.ac_sx.specs.CodeSx.{tree_of};
ghost use Rattle.ac_sx.specs.Answer.{IsNoText};
ghost use Rattle.c_lang.specs.Typed.{TypedUnit};
ghost use Rattle.c_lang.specs.CodeTyped.{unit_of};
ghost use Rattle.memory_text.specs.MemoryText as texts;
ghost use Rattle.memory_text.specs.MemoryReading as reading;
ghost use Rattle.memory_text.specs.CodeMemory.{memory_of};
ghost use Rattle.memory_text.specs.Answer.{IsMemoryTree, IsTextOf, IsMemoryText, IsFaultOf, IsTreeFault, IsReadAs, IsRefusedAs};

use crate::fault::MemoryFault;
use crate::memory::MemoryText;
use crate::memory_reading::memory_at;
use crate::writing::memory_text;
use ac_sx::{Sx, SxFault};
use c_lang::tree::TypedUnit;
use expression_text::TextFault;
use std::alloc::{AllocError, Global};

/// How many turns a text may give a run.
const MOST_TURNS: u32 = 100_000;

/// The memory whose text this is, for a typed unit. Whether its tags lie where objects may, and
/// apart, isn't asked.
///
/// This takes stack for each level of lists in the text, of which there are 4,096 at most.
pub fn read_memory(alloc: Global, bytes: &[u8], unit: &TypedUnit) -> Result<MemoryText, MemoryFault>
    // Ok is the memory whose text this is, and where this is the text of one without too many turns, it is this one, unless memory runs out.
    ensures found { IfOk result (λ m. IsMemoryText (unit_of unit.now) bytes.now (memory_of m)) }
    ensures within { IfOk result (λ m. m.turns ≤ texts.most_turns) }
    ensures only { (m : texts.Memory) → IsMemoryText (unit_of unit.now) bytes.now m →
        m.turns ≤ texts.most_turns → IsReadAs memory_of result m }

    // An error has its cause ..
    ensures fault { IfErr result (IsFaultOf (unit_of unit.now) bytes.now) }

    // .. and where there is a cause, there is its error, unless memory runs out.
    ensures no_text { (at : ℕ) → IsNoText bytes.now at →
        IsRefusedAs result (MemoryFault.Text TextFault.NotText) }
    ensures deep { (at : ℕ) → OpensTooDeep bytes.now at →
        IsRefusedAs result (MemoryFault.Text TextFault.Deep) }
    ensures shape { (t : Tree) (at : ℕ) → IsTextOf bytes.now t →
        reading.memory_at (unit_of unit.now) 0 t ≡ Err at →
        IsRefusedAs result (MemoryFault.Text (TextFault.Shape at)) }
    ensures turns { (m : texts.Memory) → IsMemoryText (unit_of unit.now) bytes.now m →
        texts.most_turns < m.turns → IsRefusedAs result MemoryFault.Turns }
{
    match ac_sx::read(alloc, bytes) {
        Ok(tree) => read_tree(alloc, &tree, unit),
        Err(SxFault::NotText(_)) => Err(MemoryFault::Text(TextFault::NotText)),
        Err(SxFault::Deep(_)) => Err(MemoryFault::Text(TextFault::Deep)),
        Err(SxFault::Memory) => Err(MemoryFault::Text(TextFault::Memory)),
    }
}

// The memory whose tree this is.
fn read_tree(alloc: Global, tree: &Sx, unit: &TypedUnit) -> Result<MemoryText, MemoryFault>
    ensures found { IfOk result (λ m.
        IsMemoryTree (unit_of unit.now) (tree_of tree.now) (memory_of m)) }
    ensures within { IfOk result (λ m. m.turns ≤ texts.most_turns) }
    ensures only { (m : texts.Memory) →
        IsMemoryTree (unit_of unit.now) (tree_of tree.now) m → m.turns ≤ texts.most_turns →
        IsReadAs memory_of result m }
    ensures fault { IfErr result (IsTreeFault (unit_of unit.now) (tree_of tree.now)) }
    ensures shape { (at : ℕ) → reading.memory_at (unit_of unit.now) 0 (tree_of tree.now) ≡ Err at →
        IsRefusedAs result (MemoryFault.Text (TextFault.Shape at)) }
    ensures turns { (m : texts.Memory) → IsMemoryTree (unit_of unit.now) (tree_of tree.now) m →
        texts.most_turns < m.turns → IsRefusedAs result MemoryFault.Turns }
{
    match memory_at(alloc, unit, tree, 0) {
        Ok((memory, _behind)) => {
            if memory.turns > MOST_TURNS {
                Err(MemoryFault::Turns)
            } else {
                Ok(memory)
            }
        }
        Err(fault) => Err(MemoryFault::Text(fault)),
    }
}

/// The text of a memory, with the line's end behind it. Where the memory is of the form for a unit,
/// and this doesn't nest too deep, it is read again as this memory.
///
/// This takes stack for each level of parts in the values.
pub fn write_memory(alloc: Global, memory: &MemoryText) -> Result<Vec<u8>, AllocError>
    ensures text { IfOk result (λ text.
        text.items ≡ texts.memory_text (memory_of memory.now)) }
    ensures read_again { (u : TypedUnit) → texts.is_memory u (memory_of memory.now) ≡ true →
        depth (texts.memory_tree (memory_of memory.now)) ≤ deepest →
        IfOk result (λ text. IsMemoryText u text.items (memory_of memory.now)) }
{
    memory_text(alloc, memory)
}
