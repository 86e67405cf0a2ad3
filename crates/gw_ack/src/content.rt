//! Answers, as contents.
ghost use Rattle.std.specs.Prelude.{◌≡◌, ◌++◌, ◌∷◌, [], codes, map, IfOk, OnOk};
ghost use Rattle.std.specs.Fmt.{decimal};
ghost use Rattle.std.specs.List.{AllByRecursion};
ghost use Rattle.gw_er7.specs.Message.{IsMessage, IsOther};
ghost use Rattle.gw_er7.specs.Text.{IsCanonical};
ghost use Rattle.gw_er7.specs.Written.{closed_line, written};
ghost use Rattle.gw_ack.specs.declared.receipt.Ack.TheVariants as ack;
ghost use Rattle.gw_ack.specs.declared.reply.Reply.TheVariants.{Accept, Refuse, Reject};
ghost use Rattle.gw_ack.specs.Acknowledged.{Acknowledges};
ghost use Rattle.gw_ack.specs.Answers.{ack_of, ack_text, acknowledged, segment, msh, msa, err, reason, said_by};
ghost use Rattle.gw_ack.specs.Conditions.{IsRejection};
ghost use Rattle.gw_ack.specs.Seen.{rows};
ghost use Rattle.gw_ack.specs.own.Joined.{parties};

use crate::condition::{condition, location_for, named, said};
use crate::header::Header;
use crate::receipt::Ack;
use crate::reply::Reply;
use crate::rows::add_field;
use crate::stamp::Stamp;
use gw_er7::{Value, write_segment};
use gw_validate::Breach;
use itoa::Buffer;
use std::alloc::{AllocError, Global};

/// Bytes of an answer for which room is taken at once: most take fewer.
const ROOM: usize = 256;

/// The text of an acknowledgment code.
fn code_text<'a>(ack: Ack) -> &'a [u8]
    ensures { result.now ≡ ack_text ack }
{
    match ack {
        Ack::AA => b"AA",
        Ack::AE => b"AE",
        Ack::AR => b"AR",
    }
}

/// The rows of the answer's ERR, where `number` is the code in decimal.
fn err<'a>(
    alloc: Global,
    location: &[&'a [u8]],
    number: &'a [u8],
    code: u16,
) -> Result<Vec<Value<'a>>, AllocError>
    ensures { number.now ≡ decimal code → IfOk result (λ table. rows table.items ≡ err (map (λ part. part.now) location.now) code) }
{
    let mut table = Vec::new(alloc);
    add_field(&mut table, 2, location)?;
    let text = condition(code);
    add_field(&mut table, 3, &[number, text, b"HL70357"])?;
    add_field(&mut table, 4, &[b"E"])?;
    Ok(table)
}

/// Writes a field behind a separator.
fn push_field(content: &mut Vec<u8>, text: &[u8]) -> Result<(), AllocError>
    ensures { OnOk result (content.new.items ≡ content.old.items ++ 124 ∷ text.now) }
{
    content.push(b'|')?;
    content.extend_from_slice(text)
}

/// Writes the sender and the receiver of an answer: those of the message, in each other's place.
fn write_parties(content: &mut Vec<u8>, header: &Header) -> Result<(), AllocError>
    ensures { OnOk result (content.new.items ≡ content.old.items ++ parties header.now) }
{
    push_field(content, header.receiving_application())?;
    push_field(content, header.receiving_facility())?;
    push_field(content, header.sending_application())?;
    push_field(content, header.sending_facility())
}

/// Writes the MSH of an answer.
fn write_msh(
    content: &mut Vec<u8>,
    header: &Header,
    stamp: &[u8],
    arrival: u64,
) -> Result<(), AllocError>
    ensures { OnOk result (content.new.items
        ≡ content.old.items ++ closed_line (codes "MSH") (msh header.now stamp.now arrival)) }
{
    content.extend_from_slice(b"MSH|^~\\&")?;
    write_parties(content, header)?;
    push_field(content, stamp)?;
    content.extend_from_slice(b"||ACK^")?;
    content.extend_from_slice(header.event())?;
    content.extend_from_slice(b"^ACK|G")?;
    content.extend_from_slice(Buffer::new().format(arrival).as_bytes())?;
    push_field(content, header.processing())?;
    content.extend_from_slice(b"|2.5.1\r")?;
    Ok(())
}

/// Writes the MSA of an answer.
fn write_msa(content: &mut Vec<u8>, ack: Ack, control: &[u8]) -> Result<(), AllocError>
    ensures { OnOk result (content.new.items
        ≡ content.old.items ++ closed_line (codes "MSA") (msa (ack_text ack) control.now)) }
{
    content.extend_from_slice(b"MSA|")?;
    content.extend_from_slice(code_text(ack))?;
    if control.is_empty() {
        return content.extend_from_slice(b"\r");
    }
    push_field(content, control)?;
    content.extend_from_slice(b"\r")
}

/// Writes the MSH and the MSA of an answer.
fn write_opening(
    content: &mut Vec<u8>,
    header: &Header,
    stamp: &Stamp,
    arrival: u64,
    ack: Ack,
) -> Result<(), AllocError>
    ensures lawful { OnOk result (IsMessage (acknowledged ack header.now stamp.now arrival)) }
    ensures lines { OnOk result (content.new.items
        ≡ content.old.items ++ written (acknowledged ack header.now stamp.now arrival)) }
{
    write_msh(content, header, stamp.digits(), arrival)?;
    write_msa(content, ack, header.control())
}

/// Writes an ERR, where `number` is the code in decimal.
fn write_err<'a>(
    content: &mut Vec<u8>,
    location: &[&'a [u8]],
    number: &'a [u8],
    code: u16,
) -> Result<(), AllocError>
    requires number { number.now ≡ decimal code }
    requires location { AllByRecursion IsCanonical (map (λ part. part.now) location.now) }
    ensures lawful { OnOk result (AllByRecursion IsOther
        (segment (codes "ERR") (err (map (λ part. part.now) location.now) code) ∷ [])) }
    ensures line { OnOk result (content.new.items
        ≡ content.old.items ++ written (segment (codes "ERR") (err (map (λ part. part.now) location.now) code) ∷ [])) }
{
    let alloc = *content.allocator();
    let err = err(alloc, location, number, code)?;
    write_segment(content, *b"ERR", &err)
}

/// Writes the ERR that names the place of a breach, as far as it is said.
#[tactic(auto, using(crate::proofs::AnswerRows::named_is_canonical))]
fn write_breach(content: &mut Vec<u8>, breach: &Breach) -> Result<(), AllocError>
    ensures lawful { OnOk result (AllByRecursion IsOther (reason (Refuse breach.now))) }
    ensures line { OnOk result (content.new.items ≡ content.old.items ++ written (reason (Refuse breach.now))) }
{
    let alloc = *content.allocator();
    let segment = Vec::from_slice(alloc, named(&breach.segment))?;
    let sequence = said(alloc, breach.sequence)?;
    let field = said(alloc, breach.field)?;
    let rep = said(alloc, breach.rep)?;
    let comp = said(alloc, breach.comp)?;
    let sub = said(alloc, breach.sub)?;
    let code = breach.code();
    write_err(
        content,
        &[&segment, &sequence, &field, &rep, &comp, &sub],
        Buffer::new().format(code).as_bytes(),
        code,
    )
}

/// Writes the ERR that reports why a message isn't accepted, where it isn't.
#[tactic(auto, using(crate::proofs::AnswerRows::location_for_is_canonical))]
fn write_reason(content: &mut Vec<u8>, reply: Reply) -> Result<(), AllocError>
    ensures lawful { OnOk result (AllByRecursion IsOther (reason reply)) }
    ensures line { OnOk result (content.new.items ≡ content.old.items ++ written (reason reply)) }
{
    match reply {
        Reply::Accept => Ok(()),
        Reply::Refuse(breach) => write_breach(content, &breach),
        Reply::Reject(code) => {
            let mut digits = Buffer::new();
            let number = digits.format(code).as_bytes();
            write_err(content, location_for(code), number, code)
        }
    }
}

/// The content of the answer that says this to the message with this header. `arrival` is its number. The one error is an allocation failure.
pub fn answer(
    alloc: Global,
    header: &Header,
    stamp: Stamp,
    arrival: u64,
    reply: Reply,
) -> Result<Vec<u8>, AllocError>
    ensures content { IfOk result (λ content. content.items ≡ written (said_by header.now stamp arrival reply)) }
    ensures read { IfOk result (λ content. Acknowledges content.items header.now.control (ack_of reply)) }
{
    let mut content = Vec::with_capacity(alloc, ROOM)?;
    write_opening(&mut content, header, &stamp, arrival, reply.ack())?;
    write_reason(&mut content, reply)?;
    Ok(content)
}

/// The content of the answer AA to a message that is accepted. The one error is an allocation failure.
pub fn accept_ack(
    alloc: Global,
    header: &Header,
    stamp: Stamp,
    arrival: u64,
) -> Result<Vec<u8>, AllocError>
    ensures content { IfOk result (λ content. content.items ≡ written (said_by header.now stamp arrival Accept)) }
    ensures read { IfOk result (λ content. Acknowledges content.items header.now.control ack.AA) }
{
    answer(alloc, header, stamp, arrival, Reply::Accept)
}

/// The content of the answer AE to a message that breaks its profile: ERR-2 names the place of the breach. The one error is an allocation failure.
pub fn error_ack(
    alloc: Global,
    header: &Header,
    stamp: Stamp,
    arrival: u64,
    breach: &Breach,
) -> Result<Vec<u8>, AllocError>
    ensures content { IfOk result (λ content. content.items ≡ written (said_by header.now stamp arrival (Refuse breach.now))) }
    ensures read { IfOk result (λ content. Acknowledges content.items header.now.control ack.AE) }
{
    answer(alloc, header, stamp, arrival, Reply::Refuse(*breach))
}

/// The content of the answer AR under one of these codes: 200 (message type), 201 (event), 202 (processing id), 203 (version), 207 (unreadable).
/// The one error is an allocation failure.
pub fn reject_ack(
    alloc: Global,
    header: &Header,
    stamp: Stamp,
    arrival: u64,
    code: u16,
) -> Result<Vec<u8>, AllocError>
    requires { IsRejection code }
    ensures content { IfOk result (λ content. content.items ≡ written (said_by header.now stamp arrival (Reject code))) }
    ensures read { IfOk result (λ content. Acknowledges content.items header.now.control ack.AR) }
{
    answer(alloc, header, stamp, arrival, Reply::Reject(code))
}
