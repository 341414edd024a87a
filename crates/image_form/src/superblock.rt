ghost use Rattle.std.specs.Prelude.{◌≡◌, ◌≤◌, Some, IfSome};
ghost use Rattle.image_form.specs.Form.{IsSuper, page_of, super_head};

use crate::page::{are_equal, write_head, write_page};
use cq_words::get32;
use storage_model::Block;

const LETTERS: &[u8; 8] = b"CQMMCIMG";

/// What page 0 of an image tells: the version of its layout and the number of its sectors.
#[derive(Clone, Copy, Debug, PartialEq, Eq)]
pub struct Super {
    pub version: u32,
    pub sectors: u32,
}

/// Reads page 0 of an image of version 1. None comes exactly where the block is no superblock of 1 to 65,536 sectors.
pub fn read_super(block: &Block) -> Option<Super>
    ensures some { IfSome result (IsSuper block.now) }
    ensures exact { (s : Super) → IsSuper block.now s → result ≡ Some s }
{
    let found = Super {
        version: get32(&block.0, 8),
        sectors: get32(&block.0, 12),
    };
    if found.version != 1 {
        return None;
    }
    if found.sectors < 1 {
        return None;
    }
    if found.sectors > 65536 {
        return None;
    }
    if !are_equal(&block.0, &write_super(found).0) {
        return None;
    }
    Some(found)
}

/// Writes page 0 of an image: its letters, version and sectors, and zeros to the end. It is read back where version and
/// sectors are within the limits.
pub fn write_super(s: Super) -> Block
    ensures page { result ≡ page_of (super_head s) }
    ensures form { s.version ≡ 1 → 1 ≤ s.sectors → s.sectors ≤ 65536 → IsSuper result s }
{
    write_page(&write_head(LETTERS, s.version, s.sectors))
}
