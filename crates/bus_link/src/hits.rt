ghost use Rattle.std.specs.Prelude.{◌≡◌};
ghost use Rattle.storage_model.specs.Faults.{IsValidHits};
ghost use Rattle.bus_link.specs.Hits.{IsPast, befalls, fault_of, is_execute};

use cmd_words::Command;
use storage_model::{BusKind, Hit};

/// The fault of a number in a list whose numbers rise. The place moves on past the faults of smaller numbers.
pub(crate) fn meet_hit(hits: &[Hit], place: &mut usize, number: u32) -> Option<Hit>
    requires valid { IsValidHits hits.now }
    requires past { IsPast hits.now number place.old }
    ensures past { IsPast hits.now number place.new }
    ensures met { result ≡ fault_of hits.now number }
{
    while *place < hits.len() {
        let hit = hits[*place];
        if hit.n == number {
            return Some(hit);
        }
        if hit.n > number {
            return None;
        }
        *place += 1;
    }
    None
}

/// Whether a fault is of the kind of a command with so many blocks.
pub(crate) fn befalls(kind: BusKind, command: &Command, blocks: u16) -> bool
    ensures { result ≡ befalls kind command.now blocks }
{
    match kind {
        BusKind::Lost | BusKind::NoResp => true,
        BusKind::Bad(block) => is_execute(command) && block <= blocks,
        BusKind::Late => is_execute(command),
    }
}

fn is_execute(command: &Command) -> bool
    ensures { result ≡ is_execute command.now }
{
    matches!(command, Command::Execute { .. })
}
