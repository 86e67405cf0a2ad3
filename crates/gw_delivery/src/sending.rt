//! A receiver is sent what is due to it.
ghost use Rattle.std.specs.Prelude.{◌≡◌, OnErr, OnOk, false};
ghost use Rattle.gw_delivery.specs.Delivering.{HasDelivered, HasStopped};

use crate::pending::{Line, Pending};
use gw_forward::{Ended, ForwardFault, forward};
use gw_gateway::Times;
use gw_journal::{Naming, Storage};
use gw_log::Calls;
use gw_stream::{Sink, Source};
use std::alloc::Global;
use std::sync::Wait;

/// Sends a receiver what is due to it, over a line: in order, none passed over, each as the plan of its place makes it, and each once its predecessor was
/// acknowledged and passed. It ends as [`forward`] does.
///
/// Where the next of another is passed meanwhile, or what is left can't be seen of the journal, it is `Disk`.
pub fn forward_due<
    'a,
    J: Naming,
    S: Storage + Drop,
    V: Calls + Drop,
    R: Wait,
    L: Line,
    T: Times,
    I: Source,
    W: Sink,
>(
    alloc: Global,
    pending: &mut Pending<'a, J, S, V, R, L, T>,
    reader: &mut I,
    writer: &mut W,
) -> Result<Ended, ForwardFault>
    requires reads { I.has_failed reader.old ≡ false }
    requires writes { W.has_failed writer.old ≡ false }
    ensures delivered { OnOk result (HasDelivered J.before
        (record { receiver = pending.old.receiver; name = pending.old.name.now; backlog = pending.old.backlog; next = pending.old.next })
        (record { receiver = pending.new.receiver; name = pending.new.name.now; backlog = pending.new.backlog; next = pending.new.next })
        (W.contents writer.old) (W.contents writer.new)) }
    ensures stopped { OnErr result (HasStopped J.before
        (record { receiver = pending.old.receiver; name = pending.old.name.now; backlog = pending.old.backlog; next = pending.old.next })
        (record { receiver = pending.new.receiver; name = pending.new.name.now; backlog = pending.new.backlog; next = pending.new.next })
        (W.contents writer.old) (W.contents writer.new)) }
{
    if !pending.begin() {
        return Err(ForwardFault::Disk);
    }
    forward(alloc, pending, reader, writer)
}
