//! Metrics in Prometheus' text format (version 0.0.4), line by line.
ghost use Rattle.std.specs.Prelude.{◌≡◌, ◌++◌, OnOk};
ghost use Rattle.gw_page.specs.Rows.{Extends};
ghost use Rattle.gw_page.specs.Samples.{label, sample, each};

use crate::figure::{Figure, figure_of};
use crate::texts::{put, put_number, put_quoted};
use crate::{Receiver, Refused};
use std::alloc::AllocError;

/// A metric: its name, its type and what it says.
#[derive(Clone, Copy)]
pub(crate) struct Metric {
    pub(crate) name: &'static [u8],
    pub(crate) kind: &'static [u8],
    pub(crate) help: &'static [u8],
}

/// Adds the lines HELP and TYPE of a metric.
pub(crate) fn put_metric(out: &mut Vec<u8>, metric: &Metric) -> Result<(), AllocError>
    ensures { OnOk result (Extends out.old.items out.new.items) }
{
    put(out, b"# HELP ")?;
    put(out, metric.name)?;
    put(out, b" ")?;
    put(out, metric.help)?;
    put(out, b"\n# TYPE ")?;
    put(out, metric.name)?;
    put(out, b" ")?;
    put(out, metric.kind)?;
    put(out, b"\n")
}

fn put_label(out: &mut Vec<u8>, receiver: &Receiver) -> Result<(), AllocError>
    ensures { OnOk result (out.new.items ≡ out.old.items ++ label receiver.now) }
{
    put(out, b"{receiver=\"")?;
    put_quoted(out, receiver.name.as_slice())?;
    put(out, b"\"} ")
}

fn put_sample(
    out: &mut Vec<u8>,
    name: &[u8],
    figure: Figure,
    receiver: &Receiver,
) -> Result<(), AllocError>
    ensures { OnOk result (out.new.items ≡ out.old.items ++ sample name.now figure receiver.now) }
{
    put(out, name)?;
    put_label(out, receiver)?;
    put_number(out, figure_of(figure, receiver))?;
    put(out, b"\n")
}

/// Adds a figure of each receiver.
pub(crate) fn put_each(
    out: &mut Vec<u8>,
    name: &[u8],
    figure: Figure,
    receivers: &[Receiver],
) -> Result<(), AllocError>
    ensures { OnOk result (out.new.items ≡ out.old.items ++ each name.now figure receivers.now) }
{
    for receiver in receivers {
        put_sample(out, name, figure, receiver)?;
    }
    Ok(())
}

/// Adds how many messages were refused, by the code of the condition.
pub(crate) fn put_codes(out: &mut Vec<u8>, name: &[u8], codes: &[Refused]) -> Result<(), AllocError>
    ensures { OnOk result (Extends out.old.items out.new.items) }
{
    for refused in codes {
        put(out, name)?;
        put(out, b"{code=\"")?;
        put_number(out, refused.code)?;
        put(out, b"\"} ")?;
        put_number(out, refused.count)?;
        put(out, b"\n")?;
    }
    Ok(())
}

fn put_answer(
    out: &mut Vec<u8>,
    name: &[u8],
    receiver: &Receiver,
    code: &[u8],
    count: u64,
) -> Result<(), AllocError>
    ensures { OnOk result (Extends out.old.items out.new.items) }
{
    put(out, name)?;
    put(out, b"{receiver=\"")?;
    put_quoted(out, receiver.name.as_slice())?;
    put(out, b"\",code=\"")?;
    put(out, code)?;
    put(out, b"\"} ")?;
    put_number(out, count)?;
    put(out, b"\n")
}

/// Adds how often each receiver answered each code (HL7 table 0008).
pub(crate) fn put_answers(
    out: &mut Vec<u8>,
    name: &[u8],
    receivers: &[Receiver],
) -> Result<(), AllocError>
    ensures { OnOk result (Extends out.old.items out.new.items) }
{
    for receiver in receivers {
        put_answer(out, name, receiver, b"AA", receiver.aa)?;
        put_answer(out, name, receiver, b"AE", receiver.ae)?;
        put_answer(out, name, receiver, b"AR", receiver.ar)?;
    }
    Ok(())
}

/// Adds a metric with one value.
pub(crate) fn put_whole(out: &mut Vec<u8>, metric: &Metric, value: u64) -> Result<(), AllocError>
    ensures { OnOk result (Extends out.old.items out.new.items) }
{
    put_metric(out, metric)?;
    put(out, metric.name)?;
    put(out, b" ")?;
    put_number(out, value)?;
    put(out, b"\n")
}
