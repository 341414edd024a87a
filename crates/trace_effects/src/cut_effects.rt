// What a power cut, the lines after it and the end do.
ghost use Rattle.std.specs.Prelude.{◌≡◌, ◌<◌, ◌+◌, ◌==◌, ◌&&◌, ℕ, nat_lt, min, not, length, IfOk, OnOk, OnErr};
ghost use Rattle.std.specs.List.{list_any};
ghost use Rattle.storage_model.specs.declared.trace.End.TheVariants.{Good};
ghost use Rattle.trace_effects.specs.Cuts.{add_place, all_epochs, epochs_with, is_deferred, places_of, used};
ghost use Rattle.storage_machine.specs.Cuts.{next_left};
ghost use Rattle.storage_machine.specs.Host.{recovery_steps, to_do};
ghost use Rattle.trace_effects.specs.Effects.{after_cut, after_left, after_lost, after_off, after_on, at_cut, first_cut, is_last, is_quiet, kept_at, left_from, left_on, line_used, powered, without_data};
ghost use Rattle.storage_model.specs.Contents.{contents_now, mark_on};

use crate::effects::{letters_left, over};
use crate::keeping::{copy_of, keep_marks, with_kept};
use crate::lists::{place_of, put_in};
use std::alloc::Global;
use storage_machine::cuts::due_line;
use storage_machine::host::{recovery_steps, to_do};
use storage_machine::slots::{Change, change_slots, tag_with};
use storage_machine::{EpochList, Event, Owed, Recovery, State, Stop, UsedLines};
use storage_model::{
    Block, BlockList, Bytes, End, Job, Letter, Mark, MarkList, NoMemory, Put, Sequence, count_bars,
};

fn use_line(cuts: &mut UsedLines, line: Option<usize>)
    ensures { cuts.new ≡ used cuts.old line }
{
    if let Some(line) = line {
        cuts.use_line(line);
    }
}

fn line_used(s: &State) -> Option<usize>
    ensures { result ≡ line_used s.now s.now.event }
{
    match s.event {
        Event::Due => due_line(s),
        _ => None,
    }
}

fn is_quiet(event: &Event) -> bool
    ensures { result ≡ is_quiet event.now }
{
    matches!(event, Event::Told(Letter::Engine | Letter::Card))
}

// Whether nothing is to do behind the silent steps of a recovery.
#[tactic(auto, unfolding(storage_machine::specs::Host::to_do, storage_machine::specs::Host::recovery_steps))]
fn is_over(s: &State) -> bool
    ensures { result ≡ not (to_do (recovery_steps s.now)) }
{
    match s.recovery {
        Recovery::Calm => !to_do(s),
        Recovery::Halted | Recovery::Cleared => false,
        Recovery::Discarded | Recovery::Cleaned | Recovery::Resumed => { !s.waiting.has_any() }
    }
}

fn is_last(s: &State) -> bool
    ensures { result ≡ is_last s.now }
{
    is_quiet(&s.event) && !letters_left(s) && is_over(s)
}

// Takes those steps where the cut may be one of the last flush.
fn at_cut(s: &mut State)
    ensures { s.new ≡ at_cut s.old }
{
    if is_last(s) {
        recovery_steps(s);
    }
}

fn first_cut(s: &mut State)
    ensures { s.new ≡ first_cut s.old }
{
    let line = line_used(s);
    at_cut(s);
    s.worked = to_do(s);
    use_line(&mut s.cuts, line);
    s.spent = 0;
    s.notice = false;
    s.count = 0;
    over(s, Owed::Dark { cuts: 0 });
}

fn cut_more(cuts: u8) -> u8
    ensures { result ≡ min (cuts + 1) 8 }
{
    if cuts < 8 { cuts + 1 } else { 8 }
}

#[tactic(auto, unfolding(crate::specs::Effects::after_cut))]
pub fn after_cut(s: &mut State)
    ensures { s.new ≡ after_cut s.old }
{
    match s.owed {
        Owed::Dark { cuts } => {
            over(
                s,
                Owed::Dark {
                    cuts: cut_more(cuts),
                },
            );
        }
        _ => first_cut(s),
    }
}

fn drop_data(sectors: &mut Sequence<BlockList>, alloc: Global, tag: Option<usize>)
    ensures { sectors.new ≡ without_data sectors.old tag }
{
    if let Some(tag) = tag {
        put_in(sectors, tag, BlockList::new(alloc));
    }
}

#[tactic(auto, unfolding(crate::specs::Effects::after_lost))]
pub fn after_lost(s: &mut State, alloc: Global, id: u32)
    ensures { s.new ≡ after_lost s.old id }
{
    let tag = tag_with(id, &s.slots);
    drop_data(&mut s.data, alloc, tag);
    s.waiting.lower(place_of(id));
    change_slots(&mut s.slots, Change::Answer(id));
    let owed = s.owed;
    over(s, owed);
}

fn has_place(places: &[(usize, u32)], epoch: usize, sector: u32) -> bool
    ensures { result ≡ list_any (λ place. (place.0 == epoch) && (place.1 == sector)) places.now }
{
    places
        .iter()
        .any(|place| place.0 == epoch && place.1 == sector)
}

fn note_place(places: &mut Vec<(usize, u32)>, epoch: usize, put: &Put) -> Result<(), NoMemory>
    ensures { OnOk result (places.new.items ≡ add_place places.old.items (record { epoch = epoch; put = put.now })) }
{
    if !has_place(places, epoch, put.sector) {
        places.push((epoch, put.sector))?;
    }
    Ok(())
}

// Whether the different pairs of epoch and sector are fewer than the lines of the cache.
fn has_room(alloc: Global, pend: &[Mark], lines: u16) -> Result<bool, NoMemory>
    ensures { IfOk result (λ room. room ≡ nat_lt (length (places_of pend.now)) lines) }
{
    let mut places = Vec::new(alloc);
    let mut epoch = 0;
    for mark in pend {
        if places.len() >= usize::from(lines) {
            return Ok(false);
        }
        match mark {
            Mark::Bar => epoch += 1,
            Mark::Put(put) => note_place(&mut places, epoch, put)?,
        }
    }
    Ok(places.len() < usize::from(lines))
}

#[tactic(auto, unfolding(crate::specs::Cuts::is_deferred))]
fn is_deferred(alloc: Global, s: &State) -> Result<bool, NoMemory>
    ensures { IfOk result (λ deferred. deferred ≡ is_deferred s.now) }
{
    if s.plan.through {
        return Ok(false);
    }
    if s.staged {
        return Ok(false);
    }
    if s.kept {
        return Ok(false);
    }
    if !s.worked {
        return Ok(false);
    }
    has_room(alloc, s.pend.as_slice(), s.plan.lines)
}

#[tactic(auto, unfolding(crate::specs::Cuts::all_epochs))]
fn all_epochs(alloc: Global, pend: &[Mark]) -> Result<EpochList, NoMemory>
    ensures { IfOk result (λ epochs. epochs ≡ all_epochs pend.now) }
{
    let mut epochs = EpochList::new(alloc);
    let last = count_bars(pend);
    for epoch in 0..last {
        epochs.push(epoch)?;
    }
    epochs.push(last)?;
    Ok(epochs)
}

fn power(s: &mut State, alloc: Global)
    ensures { s.new ≡ powered s.old }
{
    s.order = Bytes::new(alloc);
    s.bars = 0;
    s.busy = false;
    s.stop = Stop::Running;
    s.recovery = Recovery::Calm;
}

// Nothing was pending.
fn none_left(s: &mut State, alloc: Global)
    ensures { s.new ≡ left_from (powered s.old) None }
{
    power(s, alloc);
    s.pend.clear(alloc);
    let kept = s.kept;
    with_kept(s, kept);
    over(s, Owed::Nothing);
}

fn some_left(s: &mut State, alloc: Global) -> Result<(), NoMemory>
    ensures ok { OnOk result (s.new ≡ left_from (powered s.old) (Some 0)) }
    ensures err { OnErr result (s.new ≡ s.old) }
{
    let epochs = all_epochs(alloc, s.pend.as_slice())?;
    let deferred = is_deferred(alloc, s)?;
    power(s, alloc);
    s.epochs = epochs;
    s.deferred = deferred;
    s.lefts = MarkList::new(alloc);
    over(s, Owed::Left { from: 0 });
    Ok(())
}

#[tactic(auto, unfolding(crate::specs::Effects::after_on))]
pub fn after_on(s: &mut State, alloc: Global) -> Result<(), NoMemory>
    ensures ok { OnOk result (s.new ≡ after_on s.old) }
    ensures err { OnErr result (s.new ≡ s.old) }
{
    match s.pend.next_left(0) {
        None => {
            none_left(s, alloc);
            Ok(())
        }
        Some(_) => some_left(s, alloc),
    }
}

#[tactic(auto, unfolding(crate::specs::Cuts::epochs_with))]
fn epochs_with(
    alloc: Global,
    s: &State,
    sector: usize,
    value: &Block,
) -> Result<EpochList, NoMemory>
    requires { sector < length s.now.base }
    ensures { IfOk result (λ epochs. epochs ≡ epochs_with s.now sector value.now) }
{
    let base = s.base.as_slice();
    let mut epochs = EpochList::new(alloc);
    for epoch in s.epochs.as_slice() {
        if s.pend.allows(base, *epoch, sector, value) {
            epochs.push(*epoch)?;
        }
    }
    Ok(epochs)
}

// Writes the puts of marks into contents.
#[tactic(auto, unfolding(storage_model::specs::Contents::contents_now))]
fn write_all(base: &mut BlockList, marks: &[Mark])
    ensures { base.new ≡ contents_now base.old marks.now }
{
    for mark in marks {
        write_one(base, mark);
    }
}

fn write_one(base: &mut BlockList, mark: &Mark)
    ensures { base.new ≡ mark_on base.old mark.now }
{
    if let Mark::Put(put) = mark {
        put_in(base, put.sector as usize, put.value);
    }
}

fn last_left(s: &mut State, alloc: Global)
    ensures { (sector : ℕ) → s.new ≡ left_on s.old sector None }
{
    write_all(&mut s.base, s.lefts.as_slice());
    s.pend.clear(alloc);
    s.deferred = false;
    s.lefts = MarkList::new(alloc);
    s.epochs = EpochList::new(alloc);
    let kept = s.kept;
    with_kept(s, kept);
    over(s, Owed::Nothing);
}

fn go_on_left(s: &mut State, alloc: Global, sector: u32)
    ensures { s.new ≡ left_on s.old sector (next_left s.old.pend (sector + 1)) }
{
    let from = u64::from(sector) + 1;
    match s.pend.next_left(from) {
        None => last_left(s, alloc),
        Some(_) => over(s, Owed::Left { from }),
    }
}

#[tactic(auto, unfolding(crate::specs::Effects::after_left))]
pub fn after_left(s: &mut State, alloc: Global, sector: u32, value: &Block) -> Result<(), NoMemory>
    requires { sector < length s.old.base }
    ensures ok { OnOk result (s.new ≡ after_left s.old sector value.now) }
    ensures err { OnErr result (s.new ≡ s.old) }
{
    let epochs = epochs_with(alloc, s, sector as usize, value)?;
    let put = Put {
        sector,
        value: *value,
        reliable: false,
    };
    s.lefts.push(Mark::Put(put))?;
    s.epochs = epochs;
    go_on_left(s, alloc, sector);
    Ok(())
}

#[tactic(auto, unfolding(crate::specs::Phases::after_keep))]
fn keep_all(s: &mut State, alloc: Global) -> Result<(), NoMemory>
    ensures ok { OnOk result (s.new ≡ kept_at s.old Good) }
    ensures err { OnErr result (s.new ≡ s.old) }
{
    let marks = copy_of(alloc, s.pend.as_slice())?;
    let kept = s.kept;
    keep_marks(s, alloc, marks.as_slice(), &Job::Flush)?;
    with_kept(s, kept);
    Ok(())
}

#[tactic(auto, unfolding(crate::specs::Effects::after_off))]
pub fn after_off(s: &mut State, alloc: Global, end: End) -> Result<(), NoMemory>
    ensures ok { OnOk result (s.new ≡ after_off s.old end) }
    ensures err { OnErr result (s.new ≡ s.old) }
{
    match end {
        End::Good => {
            keep_all(s, alloc)?;
            over(s, Owed::End);
        }
        _ => over(s, Owed::End),
    }
    Ok(())
}
