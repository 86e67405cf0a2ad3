//! The page.
ghost use Rattle.std.specs.Prelude.{IfOk, OnOk};
ghost use Rattle.gw_page.specs.Answers.{IsPage};
ghost use Rattle.gw_page.specs.Rows.{Extends};

use crate::parts::{put_entries, put_rows, put_time};
use crate::texts::{put, put_escaped, put_number};
use crate::wellness::{health, is_well, put_notes};
use crate::{Figures, Refusal};
use std::alloc::{AllocError, Global};

/// The beginning: the page is loaded anew each five seconds.
const HEAD: &[u8] = b"<!DOCTYPE html>
<html lang=\"en\">
<head>
<meta charset=\"utf-8\">
<meta name=\"viewport\" content=\"width=device-width, initial-scale=1\">
<meta http-equiv=\"refresh\" content=\"5\">
<title>hl7gate</title>
<style>
body { font: 16px/1.5 system-ui, sans-serif; color: #1b1f24; background: #fff; margin: 2rem auto; max-width: 64rem; padding: 0 1rem; }
h1 { font-size: 1.5rem; margin: 0; }
h2 { font-size: 1.15rem; margin: 2rem 0 .5rem; }
table { border-collapse: collapse; width: 100%; }
th, td { padding: .35rem .75rem; text-align: left; border-bottom: 1px solid #d5dae0; font-variant-numeric: tabular-nums; }
thead th { border-bottom: 2px solid #8a94a0; }
.numbers td:nth-child(n+3), .numbers th:nth-child(n+3) { text-align: right; }
.state { padding: .5rem .75rem; border-left: .4rem solid #1a7f37; background: #eef7f0; white-space: pre-line; }
.state.bad { border-color: #b42318; background: #fdf0ee; }
.note { color: #57606a; }
strong { color: #b42318; }
</style>
</head>
<body>
<h1>hl7gate gateway</h1>
";

const RECEIVERS: &[u8] = b"<h2 id=\"receivers\">Receivers</h2>
<table class=\"numbers\" aria-labelledby=\"receivers\">
<thead>
<tr><th scope=\"col\">Receiver</th><th scope=\"col\">State</th><th scope=\"col\">Waiting</th>
<th scope=\"col\">First waits (s)</th><th scope=\"col\">Sent</th><th scope=\"col\">AA</th><th scope=\"col\">AE</th><th scope=\"col\">AR</th>
<th scope=\"col\">Lie refused</th><th scope=\"col\">Last refusal</th></tr>
</thead>
<tbody>
";

const SENDERS: &[u8] = b"</tbody>
</table>
<h2>Senders</h2>
<p>";

const REFUSALS: &[u8] = b"<h2 id=\"refusals\">Last refusals</h2>
<table aria-labelledby=\"refusals\">
<thead>
<tr><th scope=\"col\">Time (UTC)</th><th scope=\"col\">Session</th><th scope=\"col\">From</th><th scope=\"col\">Number</th>
<th scope=\"col\">Answer</th><th scope=\"col\">Code</th><th scope=\"col\">Place</th></tr>
</thead>
<tbody>
";

const NONE: &[u8] = b"<tr><td colspan=\"7\">none since the start</td></tr>\n";

const END: &[u8] = b"</tbody>
</table>
<p class=\"note\">The log of all refusals is refusals.log in the gateway's folder. Codes: HL7 table 0357. Places: ERR-2.</p>
</body>
</html>
";

fn put_state(out: &mut Vec<u8>, alloc: Global, figures: &Figures) -> Result<(), AllocError> {
    if !is_well(figures) {
        put(out, b"<p class=\"state bad\">")?;
        put_escaped(out, health(alloc, figures)?.as_slice().trim_ascii_end())?;
        return put(out, b"</p>\n");
    }
    let mut notes = Vec::from_slice(alloc, b"All is well.\n")?;
    put_notes(&mut notes, &figures.receivers)?;
    put(out, b"<p class=\"state\">")?;
    put_escaped(out, notes.as_slice().trim_ascii_end())?;
    put(out, b"</p>\n")
}

fn put_summary(out: &mut Vec<u8>, alloc: Global, figures: &Figures) -> Result<(), AllocError> {
    put(out, HEAD)?;
    put(out, b"<p class=\"note\">")?;
    put_time(out, &figures.time)?;
    put(out, b" UTC, plan ")?;
    put_number(out, figures.plan)?;
    put(out, b", hl7gate ")?;
    put_escaped(out, &figures.version)?;
    put(out, b" on ")?;
    put_escaped(out, &figures.host)?;
    put(out, b". This page is loaded anew each five seconds.</p>\n")?;
    put_state(out, alloc, figures)?;
    put(out, RECEIVERS)
}

fn put_senders(out: &mut Vec<u8>, figures: &Figures) -> Result<(), AllocError>
    ensures { OnOk result (Extends out.old.items out.new.items) }
{
    put(out, SENDERS)?;
    put_number(out, figures.open)?;
    put(out, b" connected, ")?;
    put_number(out, figures.sessions)?;
    put(out, b" connections since the start. Accepted ")?;
    put_number(out, figures.accepted)?;
    put(out, b", refused ")?;
    put_number(out, figures.refused)?;
    put(out, b".</p>\n")?;
    put(out, REFUSALS)
}

fn put_end(out: &mut Vec<u8>, refusals: &[Refusal]) -> Result<(), AllocError>
    ensures { OnOk result (Extends out.old.items out.new.items) }
{
    if refusals.is_empty() {
        put(out, NONE)?;
        return put(out, END);
    }
    put(out, END)
}

/// The page, as `text/html; charset=utf-8`. The one error is an allocation failure.
pub fn page(alloc: Global, figures: &Figures) -> Result<Vec<u8>, AllocError>
    ensures { IfOk result (λ text. IsPage figures.now text.items) }
{
    let mut out = Vec::new(alloc);
    put_summary(&mut out, alloc, figures)?;
    put_rows(&mut out, &figures.receivers)?;
    put_senders(&mut out, figures)?;
    put_entries(&mut out, &figures.refusals)?;
    put_end(&mut out, &figures.refusals)?;
    Ok(out)
}
