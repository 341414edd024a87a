// A trace's text.
ghost use Rattle.std.specs.Prelude.{◌≡◌, ◌+◌, ◌≤◌, ◌++◌, ℕ, List, IfOk, IfErr, IfNone, IfSome, length};
ghost use Rattle.storage_model.specs.declared.trace.Item.{Item};
ghost use Rattle.storage_model.specs.declared.ends.TextEnd.TheVariants.{Bad, NoMemory as OutOfMemory};
ghost use Rattle.trace_text.specs.Trace.{IsItem, IsRefused, Means, item_text};

use crate::item::read_item;
use std::alloc::Global;
use storage_model::{Item, ItemList, TextEnd};
use text_words::split_once;

/// The most bytes of a trace.
pub const MAX_BYTES: usize = 16_777_216;

/// The items that a trace's text means. `Bad` gives the first line, counted from 1, that is no item's text or passes the
/// limit of 16 MiB. Memory is taken for the list alone.
pub fn read_items(alloc: Global, bytes: &[u8]) -> Result<ItemList, TextEnd>
    ensures means { IfOk result (Means bytes.now) }
    ensures bad { IfErr result (IsRefused bytes.now) }

    // The text that items have is read as these items.
    ensures again { (items : List Item) → Means bytes.now items → IfOk result (λ read. read ≡ items) × IfErr result (λ end. end ≡ OutOfMemory) }
{
    let mut items = ItemList::new(alloc);
    let mut rest = bytes;
    while !rest.is_empty() {
        let room = MAX_BYTES - (bytes.len() - rest.len());
        let Some((item, after)) = next_item(rest, room) else {
            return Err(bad_after(&items));
        };
        items.push(item)?;
        rest = after;
    }
    Ok(items)
}

// The end of a text whose first bad line stands after these items.
fn bad_after(items: &ItemList) -> TextEnd
    requires { length items.now ≤ 16777216 }
    ensures { result ≡ Bad (length items.now + 1) }
{
    TextEnd::Bad {
        line: items.len() as u32 + 1,
    }
}

/// The item at the front of what is left of a trace, and what follows it, if its line has not more than `room` bytes. So a
/// trace is taken one line at a time, without memory.
pub fn next_item(rest: &[u8], room: usize) -> Option<(Item, &[u8])>
    ensures some { IfSome result (λ next. IsItem next.0 × (rest.now ≡ item_text next.0 ++ next.1.now) × (length (item_text next.0) ≤ room)) }
    ensures none { IfNone result ((item : Item) (after : List ℕ) → IsItem item → length (item_text item) ≤ room → ¬ (rest.now ≡ item_text item ++ after)) }
{
    let (line, after) = split_once(rest, b'\n')?;
    if line.len() >= room {
        return None;
    }
    let item = read_item(line)?;
    Some((item, after))
}
