ghost use Rattle.std.specs.Prelude.{◌≡◌, ◌≤◌, ℕ, Some, IfSome};
ghost use Rattle.image_form.specs.Form.{IsGate, gate_head, gate_number, gate_numbered, page_of};

use crate::page::{are_equal, write_head, write_page};
use cq_words::get32;
use storage_model::Block;

const LETTERS: &[u8; 8] = b"CQMMGATE";

/// What page 1 of an image tells: whether the intent page stands for a sector, and for which.
#[derive(Clone, Copy, Debug, PartialEq, Eq)]
pub enum Gate {
    Shut,
    Ajar(u32),
}

/// Reads page 1 of an image of so many sectors. None comes exactly where the block is no gate of such an image. Only
/// the first 64 bytes are looked at.
pub fn read_gate(block: &Block, sectors: u32) -> Option<Gate>
    ensures some { IfSome result (IsGate block.now sectors) }
    ensures exact { (gate : Gate) → IsGate block.now sectors gate → result ≡ Some gate }
{
    let head = &block.0[..64];
    let number = get32(head, 8);
    if number > sectors {
        return None;
    }
    if !are_equal(head, &write_head(LETTERS, number, 0)) {
        return None;
    }
    Some(gate_of(number))
}

/// Writes page 1 of an image: its letters and its number, and zeros to the end. It is read back for every image that
/// has the sector.
pub fn write_gate(gate: Gate) -> Block
    requires { gate_number gate ≤ 65536 }
    ensures page { result ≡ page_of (gate_head (gate_number gate)) }
    ensures form { (sectors : ℕ) → gate_number gate ≤ sectors → IsGate result sectors gate }
{
    write_page(&write_head(LETTERS, number_of(gate), 0))
}

// The number that a gate holds.
fn number_of(gate: Gate) -> u32
    requires { gate_number gate ≤ 65536 }
    ensures { result ≡ gate_number gate }
{
    match gate {
        Gate::Shut => 0,
        Gate::Ajar(sector) => sector + 1,
    }
}

// The gate of the number that it holds.
fn gate_of(number: u32) -> Gate
    ensures { result ≡ gate_numbered number }
{
    match number {
        0 => Gate::Shut,
        _ => Gate::Ajar(number - 1),
    }
}
