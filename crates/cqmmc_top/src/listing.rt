// The fields of the card's extended CSD, a line each.
ghost use Rattle.std.specs.Prelude.{flat_map, OnErr};
ghost use Rattle.storage_model.specs.Count.{Later, Rose};
ghost use Rattle.io_edge.specs.Sink.{Wrote};
ghost use Rattle.cqmmc_top.specs.Listing.{csd_text, field_text};

use arrayvec::ArrayVec;
use ext_csd::{ExtCsd, Field};
use io_edge::{Failed, Sink, put_all};
use itoa::Buffer;

/// Writes index, name and value of each field, in the table's order.
pub fn put_csd<K: Sink>(csd: &ExtCsd, out: &mut K) -> Result<(), Failed>
    ensures wrote { Wrote K.took out.old (csd_text csd.now) result out.new }
    ensures faults { Later (K.faults out.old) (K.faults out.new) }
    ensures failed { OnErr result (Rose (K.faults out.old) (K.faults out.new)) }
{
    put_fields(&Field::ALL, csd, out)
}

fn put_fields<K: Sink>(fields: &[Field], csd: &ExtCsd, out: &mut K) -> Result<(), Failed>
    ensures wrote { Wrote K.took out.old (flat_map (field_text csd.now) fields.now) result out.new }
    ensures faults { Later (K.faults out.old) (K.faults out.new) }
    ensures failed { OnErr result (Rose (K.faults out.old) (K.faults out.new)) }
{
    for field in fields {
        put_field(*field, csd, out)?;
    }
    Ok(())
}

#[tactic(auto, using(crate::proofs::Names::short_name), unfolding(crate::specs::Listing::field_text))]
fn put_field<K: Sink>(field: Field, csd: &ExtCsd, out: &mut K) -> Result<(), Failed>
    ensures wrote { Wrote K.took out.old (field_text csd.now field) result out.new }
    ensures faults { Later (K.faults out.old) (K.faults out.new) }
    ensures failed { OnErr result (Rose (K.faults out.old) (K.faults out.new)) }
{
    let mut line: ArrayVec<u8, 128> = ArrayVec::new();
    let mut index = Buffer::new();
    let mut value = Buffer::new();
    line.try_extend_from_slice(index.format(field.index()).as_bytes())
        .unwrap();
    line.push(b' ');
    line.try_extend_from_slice(field.name().as_bytes()).unwrap();
    line.push(b' ');
    line.try_extend_from_slice(value.format(csd.get(field)).as_bytes())
        .unwrap();
    line.push(b'\n');
    put_all(out, line.as_slice())
}
