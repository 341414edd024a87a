// Which fault befalls a call, and what it leaves of a page.
ghost use Rattle.std.specs.Prelude.{IfSome, ◌≡◌, ◌≢◌, ◌<◌, ℕ};
ghost use Rattle.storage_model.specs.Faults.{IsValidArrayHits};
ghost use Rattle.storage_model.specs.Granule.{granule, IsMasked};
ghost use Rattle.array_edge.specs.Hits.{IsPast, IsValidHit, hit_of, is_hit};

use storage_model::{ArrayHit, ArrayHits, Block};

/// The fault that befalls the fetch (or the program) with this call number, which is the first in the list.
pub(crate) fn find_hit(hits: &ArrayHits, fetch: bool, number: u64) -> Option<ArrayHit>
    ensures { result ≡ hit_of hits.now fetch number }
{
    hits.as_slice()
        .iter()
        .copied()
        .find(|hit| befalls(hit, fetch, number))
}

/// The same over a list whose numbers rise, by its next faults: the place moves on past those of smaller numbers.
pub(crate) fn meet_hit(
    hits: &[ArrayHit],
    place: &mut usize,
    fetch: bool,
    number: u64,
) -> Option<ArrayHit>
    requires valid { IsValidArrayHits hits.now }
    requires past { IsPast hits.now fetch number place.old }
    ensures past { IsPast hits.now fetch number place.new }
    ensures met { result ≡ hit_of hits.now fetch number }
    ensures hit { IfSome result (λ hit. IsValidHit fetch number hit) }
{
    while *place < hits.len() {
        let hit = hits[*place];
        if hit.fetch == fetch {
            if u64::from(hit.n) == number {
                return Some(hit);
            }
            if u64::from(hit.n) > number {
                return None;
            }
        }
        *place += 1;
    }
    None
}

fn befalls(hit: &ArrayHit, fetch: bool, number: u64) -> bool
    ensures { result ≡ is_hit fetch number hit.now }
{
    hit.fetch == fetch && u64::from(hit.n) == number
}

/// The old page with the granules of the mask new.
pub(crate) fn masked(mask: u8, old: &Block, new: &Block) -> Block
    ensures { IsMasked mask old.now new.now result }
{
    let mut left = *old;
    for k in 0..8usize {
        if (mask >> k) & 1 == 1 {
            copy_granule(&mut left, new, k);
        }
    }
    left
}

fn copy_granule(block: &mut Block, from: &Block, k: usize)
    requires { k < 8 }
    ensures copied { granule block.new k ≡ granule from.now k }
    ensures others { (j : ℕ) → j ≢ k → j < 8 → granule block.new j ≡ granule block.old j }
{
    let start = 64 * k;
    block.0[start..start + 64].copy_from_slice(&from.0[start..start + 64]);
}
