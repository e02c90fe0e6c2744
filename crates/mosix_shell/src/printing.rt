// What is written of a run.
ghost use Rattle.shell_text.specs.Printing.{Prints};
ghost use Rattle.mosix_shell.specs.Writing.{writes_of};

use node_event::Script;
use outside::Sink;
use shell_text::{PrintFault, Run, print_report, print_summary};
use std::alloc::Global;

/// The form in which a run is told.
#[derive(Clone, Copy, Debug, PartialEq, Eq)]
pub enum Form {
    /// The report, with the lines of the events where they are asked for.
    Report { events: bool },
    /// Six lines.
    Summary,
}

/// Writes a run of these orders in a form. Where the sink fails or memory is wanting, a front of its writes was made.
pub fn print_run<O: Sink>(
    alloc: Global,
    form: Form,
    run: &Run,
    orders: &Script,
    out: &mut O,
) -> Result<(), PrintFault>
    ensures { Prints O.written O.faults (writes_of form orders.now run.now) out.old out.new result }
{
    match form {
        Form::Report { events } => match print_report(alloc, run, orders, events, out) {
            Ok(()) => Ok(()),
            Err(e) => Err(e),
        },
        Form::Summary => match print_summary(alloc, run, out) {
            Ok(()) => Ok(()),
            Err(e) => Err(e),
        },
    }
}
