// A script's text.
ghost use Rattle.std.specs.Prelude.{◌≡◌, ◌≢◌, ◌++◌, ◌∷◌, ◌+◌, ◌<◌, ◌≤◌, ℕ, List, All, IfOk, IfErr, IfNone, IfSome, length};
ghost use Rattle.storage_model.specs.declared.ends.TextEnd.TheVariants.{Bad, NoMemory as OutOfMemory};
ghost use Rattle.raw_text.specs.declared.op.RawOp.{RawOp};
ghost use Rattle.raw_text.specs.Meaning.{IsRefused, Means};
ghost use Rattle.raw_text.specs.Raw.{IsOp};

use crate::line::read_op;
use crate::op::RawList;
use std::alloc::Global;
use storage_model::TextEnd;
use text_words::split_once;

const MAX_BYTES: usize = 16_777_216;

/// The operations that a script's text means. `Bad` gives the first line, counted from 1, that is no operation's text or
/// passes the limit of 16 MiB. Memory is taken for the list and for the bytes that its pokes write.
pub fn read_raw(alloc: Global, bytes: &[u8]) -> Result<RawList, TextEnd>
    ensures means { IfOk result (Means bytes.now) }
    ensures each { IfOk result (All IsOp) }
    ensures bad { IfErr result (IsRefused bytes.now) }

    // The text that operations have is read as these operations.
    ensures again { (ops : List RawOp) → Means bytes.now ops → IfOk result (λ read. read ≡ ops) × IfErr result (λ end. end ≡ OutOfMemory) }
{
    let mut ops = RawList::new(alloc);
    let mut rest = bytes;
    while !rest.is_empty() {
        let room = MAX_BYTES - (bytes.len() - rest.len());
        let Some((line, after)) = next_line(rest, room) else {
            return Err(bad_after(&ops));
        };
        let Some(op) = read_op(alloc, line)? else {
            return Err(bad_after(&ops));
        };
        ops.push(op)?;
        rest = after;
    }
    Ok(ops)
}

// The end of a text whose first bad line stands after these operations.
fn bad_after(ops: &RawList) -> TextEnd
    requires { length ops.now ≤ 16777216 }
    ensures { result ≡ Bad (length ops.now + 1) }
{
    TextEnd::Bad {
        line: ops.len() as u32 + 1,
    }
}

// The line at the front of what is left, without its line feed, and what follows it, if with the line feed it has not
// more than `room` bytes.
fn next_line(rest: &[u8], room: usize) -> Option<(&[u8], &[u8])>
    ensures some { IfSome result (λ next. (rest.now ≡ next.0.now ++ 10 ∷ next.1.now) × All (λ b. b ≢ 10) next.0.now × (length next.0.now < room)) }
    ensures none { IfNone result ((line after : List ℕ) → rest.now ≡ line ++ 10 ∷ after → All (λ b. b ≢ 10) line → room ≤ length line) }
{
    let (line, after) = split_once(rest, b'\n')?;
    if line.len() >= room {
        return None;
    }
    Some((line, after))
}
