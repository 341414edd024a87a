// The opening of an image.
ghost use Rattle.std.specs.Prelude.{◌≡◌, IfOk, IfErr, OnOk};
ghost use Rattle.storage_model.specs.Count.{Later};
ghost use Rattle.intent_store.specs.Intent.{ShowsImage, shown_by};
ghost use Rattle.cqmmc_top.specs.Opened.{IsOpen, OpeningRefused, HasSectors};

use crate::refusal::Refusal;
use array_edge::Array;
use intent_store::{Intent, StartEnd};

/// Opens an image. An opening that is cut begins again, at most 8 openings in a row. What the image shows stays.
pub fn open<A: Array>(array: &mut A) -> Result<Intent, Refusal>
    ensures open { IfOk result (λ intent. IsOpen intent (A.state array.new)) }
    ensures image { OnOk result (ShowsImage (A.state array.old)) }
    ensures sectors { IfOk result (λ intent. HasSectors (A.state array.old) intent.sectors) }
    ensures refused { IfErr result (OpeningRefused (A.state array.old) (A.state array.new)) }
    ensures shown { shown_by (A.state array.new) ≡ shown_by (A.state array.old) }
    ensures kept { ShowsImage (A.state array.old) → ShowsImage (A.state array.new) }
    ensures faults { Later (A.state array.old).faults (A.state array.new).faults }
    ensures cuts { Later (A.state array.old).cuts (A.state array.new).cuts }
{
    for opening in 0..8u32 {
        match Intent::start(array) {
            Ok(intent) => return Ok(intent),
            Err(StartEnd::Flash) => return Err(Refusal::ArrayFault),
            Err(StartEnd::BadImage) => return Err(Refusal::BadImage),
            Err(StartEnd::PowerLost) => {}
        }
    }
    Err(Refusal::NoPower)
}
