// Files read whole.
ghost use Rattle.std.specs.Prelude.{◌≡◌, ◌≤◌, ℕ, List, IfOk, IsErrOf, vec_len};
ghost use Rattle.ac_base.specs.declared.reading.ReadTrouble.TheVariants.{ReadFault, Memory};
ghost use Rattle.ac_base.specs.Count.{Rose};
ghost use Rattle.ac_base.specs.Shelf.{AreWhole, IsLonger};

use crate::{Failed, Shelf};
use std::alloc::{AllocError, Global};
use thiserror::Error;

/// Why a file wasn't read whole.
#[derive(Debug, Clone, Copy, PartialEq, Eq, Error)]
pub enum ReadTrouble {
    /// The shelf failed.
    #[error("read fault")]
    ReadFault,
    /// The file is longer than the limit.
    #[error("the file is longer than the limit")]
    Limit,
    /// There is no memory for the bytes.
    #[error("out of memory")]
    Memory,
}

impl From<Failed> for ReadTrouble {
    ghost from_gives = { λ _ trouble. trouble ≡ ReadFault };

    fn from(_: Failed) -> Self {
        ReadTrouble::ReadFault
    }
}

impl From<AllocError> for ReadTrouble {
    ghost from_gives = { λ _ trouble. trouble ≡ Memory };

    fn from(_: AllocError) -> Self {
        ReadTrouble::Memory
    }
}

/// How many bytes are asked for at a time.
const PIECE_LEN: usize = 16384;

/// Reads the whole file of a name, if it has at most `limit` bytes. It asks for this name alone, and for at most
/// one byte past the limit, so that it ends on a shelf that never does. Time is linear in the bytes.
///
/// - `ReadFault` where a call of the shelf failed: a fault of this very name.
/// - `Limit` where the file is longer than `limit` bytes and no call up to the limit failed.
/// - `Memory` where there is no room for the bytes.
pub fn read_whole<H: Shelf>(
    alloc: Global,
    shelf: &mut H,
    name: &str,
    limit: u64,
) -> Result<Vec<u8>, ReadTrouble>
    ensures contents { (n : List ℕ) → H.contents shelf.new n ≡ H.contents shelf.old n }
    ensures counts { (n : List ℕ) → H.faults shelf.old n ≤ H.faults shelf.new n }
    ensures whole { IfOk result (λ bytes. AreWhole (H.contents shelf.old name.now) bytes.items) }
    ensures within { IfOk result (λ bytes. vec_len bytes ≤ limit) }
    ensures limit { IsErrOf result ReadTrouble.Limit →
        IsLonger (H.contents shelf.old name.now) limit }
    ensures fault { IsErrOf result ReadTrouble.ReadFault →
        Rose (H.faults shelf.old name.now) (H.faults shelf.new name.now) }
{
    let mut bytes = Vec::new(alloc);
    let mut piece = [0u8; PIECE_LEN];
    loop {
        let len = bytes.len() as u64;
        let asked = (limit - len).min(PIECE_LEN as u64 - 1) as usize + 1;
        let count = shelf.read_at(name, len, &mut piece[..asked])?;
        if count == 0 {
            return Ok(bytes);
        }
        if count as u64 > limit - len {
            return Err(ReadTrouble::Limit);
        }
        bytes.extend_from_slice(&piece[..count])?;
    }
}
