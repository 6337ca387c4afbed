//! What is told where no command runs.
ghost use Rattle.std.specs.Prelude.{◌≡◌, IfOk};
ghost use Rattle.luks_explain.specs.Names.{fault_called, name_in};
ghost use Rattle.luks_main.specs.Statuses.{IsProgramStatus, IsStatusWithout, named_status};

use crate::{FAULT, TOLD, USAGE};
use clap::error::ErrorKind as FaultKind;
use luks_explain::Fault;
use luks_timing::CostFault;
use std::io;

/// Prints what `clap` says of the words: a fault of them on standard error, and a help that they ask
/// for on standard output.
pub(crate) fn tell_usage<R: Print + Eprint>(rt: &R, fault: &clap::Error) -> io::Result<u8>
    ensures { IfOk result IsStatusWithout }
{
    if fault.kind() == FaultKind::OutOfMemory {
        return no_memory(rt);
    }
    if fault.use_stderr() {
        let _ = fault.print(rt);
        return Ok(USAGE);
    }
    fault.print(rt)?;
    Ok(TOLD)
}

/// Prints what is said of a fault; that no fault has the name is a mistake in the words.
pub(crate) fn explain<R: Print + Eprint>(rt: &R, fault: &str) -> io::Result<u8>
    ensures named { IfOk result (λ status. status ≡ named_status (fault_called (name_in fault.now))) }
    ensures status { IfOk result IsProgramStatus }
{
    let Some(found) = Fault::find(fault) else {
        let _ = eprintln!(rt; "luks: no fault has the name {fault}: luks explain lists them");
        return Ok(USAGE);
    };
    let explanation = found.explanation();
    println!(rt; "{explanation}")?;
    Ok(TOLD)
}

/// Prints a line for each fault.
pub(crate) fn list_faults<R: Print>(rt: &R) -> io::Result<u8>
    ensures { IfOk result (λ status. status ≡ 0) }
{
    for fault in Fault::ALL.iter() {
        let explanation = fault.explanation();
        println!(rt; "{:<15}  {}", explanation.name, explanation.means)?;
    }
    Ok(TOLD)
}

/// Answers that the system failed.
pub(crate) fn device_fault<R: Print>(rt: &R) -> io::Result<u8>
    ensures { IfOk result (λ status. status ≡ 4) }
{
    println!(rt; "device fault")?;
    Ok(FAULT)
}

/// Answers that memory for the words of the command line was refused.
pub(crate) fn no_memory<R: Print + Eprint>(rt: &R) -> io::Result<u8>
    ensures { IfOk result (λ status. status ≡ 4) }
{
    let _ = eprintln!(rt; "luks: memory for the command line was refused");
    println!(rt; "no memory")?;
    Ok(FAULT)
}

/// Answers that no costs were found that take a wanted time.
pub(crate) fn tell_untimed<R: Print + Eprint>(rt: &R, fault: &CostFault, quiet: bool) -> u8
    ensures { result ≡ 4 }
{
    let answer = match fault {
        CostFault::Clock(error) => {
            let _ = eprintln!(rt; "luks: --iter-time: the clock can't be read: {error}");
            "device fault"
        }
        CostFault::Memory => {
            if !quiet {
                let _ = eprintln!(rt; "luks: --iter-time: memory was refused");
            }
            "no memory"
        }
    };
    let _ = println!(rt; "{answer}");
    FAULT
}
