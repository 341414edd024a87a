// What an image shows.
ghost use Rattle.std.specs.Prelude.{IfOk, IfNone, IfSome, MatchOption};
ghost use Rattle.image_form.specs.Image.{IsImage};
ghost use Rattle.trace_judge.specs.Shows.{AreForms, Shows};

use image_form::{Gate, Super, read_gate, read_super};
use std::alloc::Global;
use storage_model::{Block, BlockList, NoMemory};

/// The sectors that an image shows: while its gate is ajar for a sector, the intent page stands for that sector. None comes
/// exactly where the pages are no image.
pub fn base_of(alloc: Global, pages: &[Block]) -> Result<Option<BlockList>, NoMemory>
    ensures { IfOk result (λ base. MatchOption base (¬ IsImage pages.now) (Shows pages.now)) }
{
    let Some((superblock, gate)) = forms_of(pages) else {
        return Ok(None);
    };
    let last = 8 + superblock.sectors as usize;
    let mut base = Vec::from_slice(alloc, &pages[8..last])?;
    if let Gate::Ajar(sector) = gate {
        base[sector as usize] = pages[2];
    }
    Ok(Some(BlockList::from_vec(base)))
}

// The superblock and the gate of an image.
fn forms_of(pages: &[Block]) -> Option<(Super, Gate)>
    ensures some { IfSome result (λ forms. AreForms pages.now forms.0 forms.1) }
    ensures none { IfNone result (¬ IsImage pages.now) }
{
    if pages.len() < 2 {
        return None;
    }
    let superblock = read_super(&pages[0])?;
    let gate = read_gate(&pages[1], superblock.sectors)?;
    if pages.len() < 8 + superblock.sectors as usize {
        return None;
    }
    Some((superblock, gate))
}
