// The blocks that a request lists.
ghost use Rattle.std.specs.Prelude.{◌≡◌, ◌++◌, List, ℕ, IfOk, IfSome, IfNone, MatchBool};
ghost use Rattle.hex.specs.Hex.{encode_lower};
ghost use Rattle.storage_model.specs.declared.block.Block.{Block};
ghost use Rattle.request_text.specs.Lines.{AreAdded, AreListed, Lists, Spells};
ghost use Rattle.request_text.specs.Requests.{IsBlock};

use storage_model::{Block, BlockList, Fill, Job, NoMemory};
use text_words::read_hex_bytes;

// The digits of a block.
const DIGITS: usize = 1024;

// Adds the blocks that a request lists, whose digits these are, if they are the digits of as many blocks.
pub fn take_listed(job: &Job, digits: &[u8], blocks: &mut BlockList) -> Result<bool, NoMemory>
    ensures { IfOk result (λ taken. MatchBool taken (AreListed digits.now job.now blocks.old blocks.new) ((list : List Block) → ¬ Lists digits.now job.now list)) }
{
    match job {
        Job::Write {
            blocks: count,
            fill: Fill::Listed(_),
            ..
        } => take_blocks(digits, *count, blocks),
        _ => Ok(true),
    }
}

// Adds `count` blocks, if these are their digits. Else what it added is of no use.
fn take_blocks(digits: &[u8], count: u16, blocks: &mut BlockList) -> Result<bool, NoMemory>
    ensures { IfOk result (λ taken. MatchBool taken (AreAdded digits.now count blocks.old blocks.new) ((list : List Block) → ¬ Spells digits.now count list)) }
{
    let mut rest = digits;
    for _ in 0..count {
        let Some((block, after)) = next_block(rest) else {
            return Ok(false);
        };
        blocks.push(block)?;
        rest = after;
    }
    Ok(rest.is_empty())
}

// The block whose digits stand in front, and what follows them.
fn next_block(rest: &[u8]) -> Option<(Block, &[u8])>
    ensures some { IfSome result (λ next. IsBlock next.0 × (rest.now ≡ encode_lower next.0.0 ++ next.1.now)) }
    ensures none { IfNone result ((block : Block) (after : List ℕ) → IsBlock block → ¬ (rest.now ≡ encode_lower block.0 ++ after)) }
{
    if rest.len() < DIGITS {
        return None;
    }
    let (digits, after) = rest.split_at(DIGITS);
    let bytes = read_hex_bytes(digits)?;
    Some((Block(bytes), after))
}
