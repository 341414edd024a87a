ghost use Rattle.std.specs.Prelude.{◌≡◌, ◌≤◌, ◌++◌, ◌↔◌, length, drop, IsTrue};
ghost use Rattle.image_form.specs.Form.{head_bytes, page_of};

use cq_words::put32;
use storage_model::Block;

// A granule of 8 letters, two numbers and zeros.
pub fn write_head(letters: &[u8; 8], first: u32, second: u32) -> [u8; 64]
    ensures { result ≡ head_bytes letters.now first second }
{
    let mut bytes = [0; 64];
    put_front(&mut bytes, letters);
    put32(&mut bytes, 8, first);
    put32(&mut bytes, 12, second);
    bytes
}

// A page of a granule and zeros.
pub fn write_page(head: &[u8; 64]) -> Block
    ensures { result ≡ page_of head.now }
{
    let mut bytes = [0; 512];
    put_front(&mut bytes, head);
    Block(bytes)
}

// Writes the first bytes. The others stay.
fn put_front(bytes: &mut [u8], front: &[u8])
    requires { length front.now ≤ length bytes.old }
    ensures { bytes.new ≡ front.now ++ drop (length front.now) bytes.old }
{
    bytes[..front.len()].copy_from_slice(front);
}

pub fn are_equal(bytes: &[u8], others: &[u8]) -> bool
    ensures { IsTrue result ↔ (bytes.now ≡ others.now) }
{
    bytes == others
}
