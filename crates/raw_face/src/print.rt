// Lines to the sink, with how that ended as the end of the script.
ghost use Rattle.std.specs.Prelude.{◌≡◌, ◌≢◌, ◌++◌, [], Some, IsErrOf};
ghost use Rattle.raw_face.specs.Output.{IsSinkCause, Prints, Shows, ending, halt_of, lines_text, nothing, with_end};
ghost use Rattle.raw_face.specs.Reply.{lines_in, output_of};
ghost use Rattle.storage_model.specs.declared.ends.Halt.TheVariants.{SinkFailed};
ghost use Rattle.storage_model.specs.declared.trace.Item.TheVariants.{Off};
ghost use Rattle.trace_text.specs.Trace.{item_text};

use crate::reply::Reply;
use io_edge::{Failed, Sink};
use raw_lines::{RawLine, put_raw_line};
use storage_model::{End, Halt, Item};
use trace_text::put_item;

/// Prints a line of a trace.
pub fn print<K: Sink>(item: &Item, out: &mut K) -> Result<(), Halt>
    ensures prints { Prints K.took out.old (item_text item.now) result out.new }
    ensures sink { IsSinkCause (K.faults out.old) (K.faults out.new) result }
{
    match put_item(item, out) {
        Ok(()) => Ok(()),
        Err(Failed) => Err(Halt::SinkFailed),
    }
}

/// Prints the line of an end, and answers as the script ends with it.
pub fn print_end<K: Sink>(end: End, out: &mut K) -> Result<(), Halt>
    ensures shows { Shows K.took out.old (ending end) result out.new }
    ensures sink { IsSinkCause (K.faults out.old) (K.faults out.new) result }
{
    print(&Item::Off { end }, out)?;
    halt_of(end)
}

// How a script ends with the line of an end.
fn halt_of(end: End) -> Result<(), Halt>
    ensures { result ≡ halt_of (Some end) }
{
    match end {
        End::Good => Ok(()),
        End::Fault => Err(Halt::OpenFault),
        End::Dead => Err(Halt::PowerGone),
        End::Image => Err(Halt::BadImage),
    }
}

/// Prints the line of a reply, and the line of the end where the script ends with it. The sink doesn't fail where there is neither.
pub fn print_reply<K: Sink>(reply: &Reply, out: &mut K) -> Result<(), Halt>
    ensures shows { Shows K.took out.old (output_of reply.now) result out.new }
    ensures failed { IsErrOf result SinkFailed → output_of reply.now ≢ nothing }
    ensures sink { IsSinkCause (K.faults out.old) (K.faults out.new) result }
{
    print_line(&reply.line, out)?;
    match reply.end {
        Some(end) => print_end(end, out),
        None => Ok(()),
    }
}

// Prints a line, if there is one.
fn print_line<K: Sink>(line: &Option<RawLine>, out: &mut K) -> Result<(), Halt>
    ensures prints { Prints K.took out.old (lines_text (lines_in line.now)) result out.new }
    ensures failed { IsErrOf result SinkFailed → lines_in line.now ≢ [] }
    ensures sink { IsSinkCause (K.faults out.old) (K.faults out.new) result }
{
    match line {
        None => Ok(()),
        Some(line) => match put_raw_line(line, out) {
            Ok(()) => Ok(()),
            Err(Failed) => Err(Halt::SinkFailed),
        },
    }
}
