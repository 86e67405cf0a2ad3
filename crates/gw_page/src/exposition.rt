//! The metrics of a gateway, in Prometheus' text format (version 0.0.4).
ghost use Rattle.std.specs.Prelude.{IfOk, OnOk};
ghost use Rattle.gw_page.specs.Rows.{Extends, Shows};
ghost use Rattle.gw_page.specs.Samples.{samples};

use crate::figure::Figure;
use crate::samples::{Metric, put_answers, put_codes, put_each, put_metric, put_whole};
use crate::{Figures, Receiver};
use std::alloc::{AllocError, Global};

const GAUGE: &[u8] = b"gauge";

const COUNTER: &[u8] = b"counter";

const ACCEPTED: Metric = Metric {
    name: b"hl7gate_accepted_total",
    kind: COUNTER,
    help: b"Messages that were accepted since the start.",
};

const REFUSED: Metric = Metric {
    name: b"hl7gate_refused_total",
    kind: COUNTER,
    help: b"Messages that were answered AE or AR since the start, by the condition code (HL7 table 0357).",
};

const SESSIONS: Metric = Metric {
    name: b"hl7gate_sessions",
    kind: GAUGE,
    help: b"Connections of senders that are open.",
};

const TAKEN: Metric = Metric {
    name: b"hl7gate_sessions_total",
    kind: COUNTER,
    help: b"Connections of senders since the start.",
};

const PLAN: Metric = Metric {
    name: b"hl7gate_plan_version",
    kind: GAUGE,
    help: b"The plan: 0 is the one of the start, each swap adds 1.",
};

const ENTRIES: Metric = Metric {
    name: b"hl7gate_entries",
    kind: GAUGE,
    help: b"Records of the log.",
};

const BYTES: Metric = Metric {
    name: b"hl7gate_log_bytes",
    kind: GAUGE,
    help: b"Bytes of the log's files.",
};

const SHORT: Metric = Metric {
    name: b"hl7gate_short_of_room",
    kind: GAUGE,
    help: b"1 while the disk is short of room, and messages are answered AR.",
};

const DUE: Metric = Metric {
    name: b"hl7gate_due",
    kind: GAUGE,
    help: b"Messages that wait for a receiver.",
};

const OLDEST: Metric = Metric {
    name: b"hl7gate_oldest_due_seconds",
    kind: GAUGE,
    help: b"Seconds for which the first message that waits for a receiver has been the first.",
};

const SENT: Metric = Metric {
    name: b"hl7gate_sent_total",
    kind: COUNTER,
    help: b"Messages that were sent to a receiver since the start, repeats included.",
};

const ANSWERED: Metric = Metric {
    name: b"hl7gate_acknowledged_total",
    kind: COUNTER,
    help: b"Answers of a receiver since the start, by their code (HL7 table 0008).",
};

const LYING: Metric = Metric {
    name: b"hl7gate_refused_messages",
    kind: GAUGE,
    help: b"Messages that lie refused by a receiver, and weren't sent again.",
};

const CONNECTED: Metric = Metric {
    name: b"hl7gate_receiver_connected",
    kind: GAUGE,
    help: b"1 while a receiver is connected.",
};

const HELD: Metric = Metric {
    name: b"hl7gate_receiver_held",
    kind: GAUGE,
    help: b"1 while a receiver is held.",
};

fn put_gateway(out: &mut Vec<u8>, figures: &Figures) -> Result<(), AllocError> {
    put_whole(out, &ACCEPTED, figures.accepted)?;
    put_metric(out, &REFUSED)?;
    put_codes(out, REFUSED.name, &figures.codes)?;
    put_whole(out, &SESSIONS, figures.open)?;
    put_whole(out, &TAKEN, figures.sessions)?;
    put_whole(out, &PLAN, figures.plan)?;
    put_whole(out, &ENTRIES, figures.entries)?;
    put_whole(out, &BYTES, figures.bytes)?;
    put_whole(out, &SHORT, u64::from(figures.is_short))
}

fn put_family(
    out: &mut Vec<u8>,
    metric: &Metric,
    figure: Figure,
    receivers: &[Receiver],
) -> Result<(), AllocError>
    ensures { OnOk result (Extends out.old.items out.new.items) }
{
    put_metric(out, metric)?;
    put_each(out, metric.name, figure, receivers)
}

fn put_others(out: &mut Vec<u8>, receivers: &[Receiver]) -> Result<(), AllocError>
    ensures { OnOk result (Extends out.old.items out.new.items) }
{
    put_family(out, &OLDEST, Figure::Oldest, receivers)?;
    put_family(out, &SENT, Figure::Sent, receivers)?;
    put_metric(out, &ANSWERED)?;
    put_answers(out, ANSWERED.name, receivers)?;
    put_family(out, &LYING, Figure::Lying, receivers)?;
    put_family(out, &CONNECTED, Figure::Connected, receivers)?;
    put_family(out, &HELD, Figure::Held, receivers)
}

/// The metrics, as `text/plain; version=0.0.4`. The one error is an allocation failure.
pub fn metrics(alloc: Global, figures: &Figures) -> Result<Vec<u8>, AllocError>
    ensures { IfOk result (λ text. Shows (samples figures.now.receivers.items) text.items) }
{
    let mut out = Vec::new(alloc);
    put_gateway(&mut out, figures)?;
    put_metric(&mut out, &DUE)?;
    put_each(&mut out, DUE.name, Figure::Due, &figures.receivers)?;
    put_others(&mut out, &figures.receivers)?;
    Ok(out)
}
