//! What is printed of a message that was refused.
use crate::report::{REFUSED, print_fault};
use gw_diagnostics::write_place;
use gw_er7::ReadFault;
use gw_stream::RunFault;
use gw_validate::Breach;
use std::io::Write;

/// Prints why standard input is no message.
pub(crate) fn print_message<E: Write>(errors: &mut E, fault: ReadFault) -> u8 {
    if fault == ReadFault::Memory {
        return print_fault(errors, RunFault::Memory);
    }
    let number = fault.number();
    let _ = writeln!(errors, "message refused {number}\nstandard input: {fault}");
    REFUSED
}

/// Reports what a message breaks: the code and the place.
pub(crate) fn print_breach<E: Write>(errors: &mut E, breach: Breach) -> u8 {
    let code = breach.code();
    let _ = write!(errors, "breaks {code} ");
    let _ = write_place(errors, breach);
    let _ = writeln!(errors);
    REFUSED
}
