// Lines of the cache on their way to the array.
ghost use Rattle.std.specs.Prelude.{◌≡◌, ◌⊎◌, ◌<◌, ◌≤◌, ◌==◌, true, false, not, [], drop, filter, length, remove, slice_get, Some, OnOk, OnErr, Ok};
ghost use Rattle.std.specs.List.{AllByRecursion};
ghost use Rattle.storage_model.specs.Keep.{is_named};
ghost use Rattle.array_edge.specs.Array.{ArrayState, IsTorn, with_page};
ghost use Rattle.intent_store.specs.Intent.{IntentStands, IsRefusedOff, StoreEnds, shown_by};
ghost use Rattle.card_store.specs.Staging.{Fit, HasRoom, IsFull, IsStaged, Places, only_settled, with_line};

use array_edge::{Array, ArrayEnd};
use epoch_cache::{EpochCache, Full, Line};
use intent_store::{Intent, StoreEnd};
use storage_model::Put;

// Programs the sector of a line, whole where the line says so.
fn program<A: Array>(line: &Line, intent: &mut Intent, array: &mut A) -> Result<(), StoreEnd>
    requires sector { line.now.sector < intent.old.sectors }
    requires stands { IntentStands intent.old (A.state array.old) }
    ensures stands { IntentStands intent.new (A.state array.new) }
    ensures sectors { intent.new.sectors ≡ intent.old.sectors }
    ensures ok { OnOk result (shown_by (A.state array.new) ≡ with_page (shown_by (A.state array.old)) line.now.sector line.now.value) }
    ensures torn { line.now.whole ≡ false → OnErr result (IsTorn (shown_by (A.state array.old)) line.now.sector line.now.value (shown_by (A.state array.new))) }
    ensures whole { line.now.whole ≡ true → (shown_by (A.state array.new) ≡ shown_by (A.state array.old)) ⊎ (shown_by (A.state array.new) ≡ with_page (shown_by (A.state array.old)) line.now.sector line.now.value) }
    ensures ends { StoreEnds (A.state array.old) (A.state array.new) result }
{
    if line.whole {
        intent.program_whole(line.sector, &line.value, array)
    } else {
        intent.program(line.sector, &line.value, array)
    }
}

// Programs the oldest line and drops it. After an error it stays.
pub fn stage_oldest<A: Array>(
    cache: &mut EpochCache,
    intent: &mut Intent,
    array: &mut A,
) -> Result<(), StoreEnd>
    requires some { 0 < length cache.old.lines }
    requires fit { Fit (record { cache = cache.old; known = intent.old; array = A.state array.old }) }
    ensures staged { IsStaged (record { cache = cache.old; known = intent.old; array = A.state array.old }) (record { cache = cache.new; known = intent.new; array = A.state array.new }) }
    ensures ok { OnOk result (cache.new ≡ record cache.old { lines = drop 1 cache.old.lines }) }
    ensures err { OnErr result (cache.new ≡ cache.old) }
    ensures ends { StoreEnds (A.state array.old) (A.state array.new) result }
{
    let Some(line) = cache.oldest_line() else {
        unreachable!()
    };
    program(&line, intent, array)?;
    cache.drop_line();
    Ok(())
}

// Stages all lines, the oldest first.
pub fn stage_all<A: Array>(
    cache: &mut EpochCache,
    intent: &mut Intent,
    array: &mut A,
) -> Result<(), StoreEnd>
    requires fit { Fit (record { cache = cache.old; known = intent.old; array = A.state array.old }) }
    ensures staged { IsStaged (record { cache = cache.old; known = intent.old; array = A.state array.old }) (record { cache = cache.new; known = intent.new; array = A.state array.new }) }
    ensures ok { OnOk result (cache.new.lines ≡ []) }
    ensures bare { cache.old.lines ≡ [] → (result ≡ Ok tt) × (A.state array.new ≡ A.state array.old) }
    ensures ends { StoreEnds (A.state array.old) (A.state array.new) result }
{
    while cache.has_lines() {
        stage_oldest(cache, intent, array)?;
    }
    Ok(())
}

// Stages all lines of epochs before the last, the oldest first.
pub fn stage_older<A: Array>(
    cache: &mut EpochCache,
    intent: &mut Intent,
    array: &mut A,
) -> Result<(), StoreEnd>
    requires fit { Fit (record { cache = cache.old; known = intent.old; array = A.state array.old }) }
    ensures staged { IsStaged (record { cache = cache.old; known = intent.old; array = A.state array.old }) (record { cache = cache.new; known = intent.new; array = A.state array.new }) }
    ensures ok { OnOk result (AllByRecursion (λ line. line.epoch ≡ cache.new.last) cache.new.lines) }
    ensures left { OnOk result (cache.new.lines ≡ filter (λ line. line.epoch == cache.old.last) cache.old.lines) }
    ensures ends { StoreEnds (A.state array.old) (A.state array.new) result }
{
    while cache.older() {
        stage_oldest(cache, intent, array)?;
    }
    Ok(())
}

// Programs line `k`, where all lines are of the last epoch, and drops it. After an error it stays.
fn stage_at<A: Array>(
    k: u16,
    line: &Line,
    cache: &mut EpochCache,
    intent: &mut Intent,
    array: &mut A,
) -> Result<(), StoreEnd>
    requires line { slice_get cache.old.lines k ≡ Some line.now }
    requires now { AllByRecursion (λ line. line.epoch ≡ cache.old.last) cache.old.lines }
    requires fit { Fit (record { cache = cache.old; known = intent.old; array = A.state array.old }) }
    ensures staged { IsStaged (record { cache = cache.old; known = intent.old; array = A.state array.old }) (record { cache = cache.new; known = intent.new; array = A.state array.new }) }
    ensures ok { OnOk result (cache.new ≡ record cache.old { lines = remove cache.old.lines k }) }
    ensures err { OnErr result (cache.new ≡ cache.old) }
    ensures ends { StoreEnds (A.state array.old) (A.state array.new) result }
{
    program(line, intent, array)?;
    cache.drop_oldest_at(k);
    Ok(())
}

// Stages the lines of the `blocks` sectors from `first` on, in the order in which they came to be.
pub fn stage_named<A: Array>(
    first: u32,
    blocks: u16,
    cache: &mut EpochCache,
    intent: &mut Intent,
    array: &mut A,
) -> Result<(), StoreEnd>
    requires now { AllByRecursion (λ line. line.epoch ≡ cache.old.last) cache.old.lines }
    requires fit { Fit (record { cache = cache.old; known = intent.old; array = A.state array.old }) }
    ensures staged { IsStaged (record { cache = cache.old; known = intent.old; array = A.state array.old }) (record { cache = cache.new; known = intent.new; array = A.state array.new }) }
    ensures now { OnOk result (AllByRecursion (λ line. line.epoch ≡ cache.new.last) cache.new.lines) }
    ensures ok { OnOk result (AllByRecursion (λ line. is_named first blocks line.sector ≡ false) cache.new.lines) }
    ensures left { OnOk result (cache.new.lines ≡ filter (λ line. not (is_named first blocks line.sector)) cache.old.lines) }
    ensures ends { StoreEnds (A.state array.old) (A.state array.new) result }
{
    let mut k = 0;
    while let Some(line) = cache.oldest_at(k) {
        if is_in(line.sector, first, blocks) {
            stage_at(k, &line, cache, intent, array)?;
        } else {
            k += 1;
        }
    }
    cache.mark_lines();
    Ok(())
}

fn is_in(sector: u32, first: u32, blocks: u16) -> bool
    ensures { result ≡ is_named first blocks sector }
{
    first <= sector && u64::from(sector) < u64::from(first) + u64::from(blocks)
}

// Puts a value into the cache. Where that is full the oldest line is staged before.
pub fn place<A: Array>(
    cache: &mut EpochCache,
    intent: &mut Intent,
    put: &Put,
    array: &mut A,
) -> Result<(), StoreEnd>
    requires room { 1 ≤ cache.old.room }
    requires sector { put.now.sector < intent.old.sectors }
    requires fit { Fit (record { cache = cache.old; known = intent.old; array = A.state array.old }) }
    ensures fit { Fit (record { cache = cache.new; known = intent.new; array = A.state array.new }) }
    ensures sectors { intent.new.sectors ≡ intent.old.sectors }
    ensures last { cache.new.last ≡ cache.old.last }
    ensures room { cache.new.room ≡ cache.old.room }
    ensures ok { OnOk result (Places put.now cache.old (A.state array.old) cache.new (A.state array.new)) }
    ensures err { OnErr result (IsStaged (record { cache = cache.old; known = intent.old; array = A.state array.old }) (record { cache = cache.new; known = intent.new; array = A.state array.new })) }
    ensures free { HasRoom put.now cache.old → (result ≡ Ok tt) × (A.state array.new ≡ A.state array.old) }
    ensures line { HasRoom put.now cache.old → cache.new ≡ with_line put.now cache.old }
    ensures full { IsFull put.now cache.old → OnOk result (cache.new ≡ with_line put.now (record cache.old { lines = drop 1 cache.old.lines })) }
    ensures kept { OnErr result (cache.new ≡ cache.old) }
    ensures ends { StoreEnds (A.state array.old) (A.state array.new) result }
{
    if let Ok(()) = cache.put(put) {
        return Ok(());
    }
    stage_oldest(cache, intent, array)?;
    match cache.put(put) {
        Ok(()) => Ok(()),
        Err(Full) => unreachable!(),
    }
}

// Makes what was programmed durable.
pub fn settle<A: Array>(array: &mut A) -> Result<(), StoreEnd>
    ensures same { (A.state array.new).told ≡ (A.state array.old).told }
    ensures only { A.state array.new ≡ only_settled (A.state array.old) (A.state array.new) }
    ensures settled { OnOk result ((A.state array.new).settled ≡ true) }
    ensures ends { StoreEnds (A.state array.old) (A.state array.new) result }
{
    match array.settle() {
        Ok(()) => Ok(()),
        Err(ArrayEnd::Failed) => Err(StoreEnd::Flash),
        Err(ArrayEnd::PowerLost) => Err(StoreEnd::PowerLost),
    }
}
