//! The figures of a receiver, one by one.
ghost use Rattle.std.specs.Prelude.{◌≡◌};
ghost use Rattle.gw_page.specs.Samples.{as_number, figure_of};

use crate::Receiver;

/// Which figure.
#[derive(Clone, Copy)]
pub enum Figure {
    Connected,
    Held,
    Due,
    Oldest,
    Sent,
    Lying,
}

fn as_number(is_so: bool) -> u64
    ensures { result ≡ as_number is_so }
{
    if is_so { 1 } else { 0 }
}

/// This figure of a receiver.
pub(crate) fn figure_of(figure: Figure, receiver: &Receiver) -> u64
    ensures { result ≡ figure_of figure receiver.now }
{
    match figure {
        Figure::Connected => as_number(receiver.is_connected),
        Figure::Held => as_number(receiver.is_held),
        Figure::Due => receiver.waiting,
        Figure::Oldest => receiver.oldest,
        Figure::Sent => receiver.sent,
        Figure::Lying => receiver.lying,
    }
}
