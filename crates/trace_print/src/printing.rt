// Lines to the sink.
ghost use Rattle.std.specs.Prelude.{◌≡◌, ◌∷◌, ◌++◌, [], IfErr, OnErr};
ghost use Rattle.storage_model.specs.Count.{Later, Rose};
ghost use Rattle.storage_model.specs.declared.ends.Halt.TheVariants.{SinkFailed};
ghost use Rattle.trace_print.specs.Prints.{Takes, line_in};

use io_edge::Sink;
use std::marker::Model;
use storage_model::{Halt, Item};
use trace_text::put_item;

/// Prints a line of the trace.
///
/// # Errors
///
/// `SinkFailed` where the sink failed: a part of the line was taken.
pub fn print<K: Sink>(item: &Item, out: &mut K) -> Result<(), Halt>
    ensures takes { Takes K.took out.old (item.now ∷ []) result out.new }
    ensures halt { IfErr result (λ halt. halt ≡ SinkFailed) }
    ensures faults { Later (K.faults out.old) (K.faults out.new) }
    ensures failed { OnErr result (Rose (K.faults out.old) (K.faults out.new)) }
{
    match put_item(item, out) {
        Ok(()) => Ok(()),
        Err(_) => Err(Halt::SinkFailed),
    }
}

/// Two lines of the trace at most, in order.
#[derive(Drop)]
pub struct Lines {
    first: Option<Item>,
    second: Option<Item>,
}

impl Model for Lines {
    ghost use Rattle.std.specs.Prelude.{◌++◌, List};
    ghost use Rattle.storage_model.specs.declared.trace.Item.{Item};
    ghost use Rattle.trace_print.specs.Prints.{line_in};

    ghost Value = { List Item };

    ghost view = { λ it. line_in it.first ++ line_in it.second };
}

impl Lines {
    /// The lines that there are of these.
    pub fn of(first: Option<Item>, second: Option<Item>) -> Lines
        ensures { result ≡ line_in first ++ line_in second }
    {
        Lines { first, second }
    }

    /// Prints them.
    ///
    /// # Errors
    ///
    /// `SinkFailed` where the sink failed: whole lines and a part of one were taken.
    pub fn print<K: Sink>(&self, out: &mut K) -> Result<(), Halt>
        ensures takes { Takes K.took out.old self.now result out.new }
        ensures halt { IfErr result (λ halt. halt ≡ SinkFailed) }
        ensures faults { Later (K.faults out.old) (K.faults out.new) }
        ensures failed { OnErr result (Rose (K.faults out.old) (K.faults out.new)) }
    {
        print_if(&self.first, out)?;
        print_if(&self.second, out)
    }
}

// Prints a line, where there is one.
fn print_if<K: Sink>(item: &Option<Item>, out: &mut K) -> Result<(), Halt>
    ensures takes { Takes K.took out.old (line_in item.now) result out.new }
    ensures halt { IfErr result (λ halt. halt ≡ SinkFailed) }
    ensures faults { Later (K.faults out.old) (K.faults out.new) }
    ensures failed { OnErr result (Rose (K.faults out.old) (K.faults out.new)) }
{
    match item {
        None => Ok(()),
        Some(item) => print(item, out),
    }
}
