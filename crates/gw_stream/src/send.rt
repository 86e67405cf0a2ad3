//! Bytes to sinks.
ghost use Rattle.std.specs.Prelude.{◌≡◌, ◌↔◌, ◌<◌, IsTrue, IsErr, OnOk, OnErr, false, length, map};
ghost use Rattle.std.specs.List.{list_any};
ghost use Rattle.std.specs.Io.KnownBytes.{Appends};
ghost use Rattle.gw_stream.specs.own.Prepared.{AreWithin, post, posts};
ghost use Rattle.gw_stream.specs.Posts.{Changes, Sends, SendsOut, SendsSome, SendsSomeOut, one_for, some_failed};
ghost use Rattle.gw_stream.specs.Sent.{SendsPart};

use crate::delivery::Delivery;
use crate::sink::Sink;
use crate::source::Failed;

/// Writes all the bytes, or as many as the sink takes before it fails. Where it takes all at once, they go out in one write.
pub fn send_all<W: Sink>(writer: &mut W, bytes: &[u8]) -> Result<(), Failed>
    requires { W.has_failed writer.old ≡ false }
    ensures ok { OnOk result (Appends (W.contents writer.old) (W.contents writer.new) bytes.now) }
    ensures part { OnErr result (SendsPart (W.contents writer.old) (W.contents writer.new) bytes.now) }
    ensures failed { IsTrue (W.has_failed writer.new) ↔ IsErr result }
{
    let mut sent = 0;
    'pieces: for _turn in 0..bytes.len() {
        if sent == bytes.len() {
            return Ok(());
        }
        let rest = &bytes[sent..];
        sent += writer.write(rest)?;
    }
    Ok(())
}

/// Writes all the bytes to the writer of a receiver.
#[tactic(auto, using(std::proofs::lemmas::Result::on_ok_weaker, crate::proofs::Posting::sends_to, crate::proofs::Posting::any_set))]
fn send_to<W: Sink>(outs: &mut Vec<W>, number: usize, bytes: &[u8]) -> Result<(), Failed>
    requires within { number < length outs.old.items }
    requires works { list_any W.has_failed outs.old.items ≡ false }
    ensures count { length outs.new.items ≡ length outs.old.items }
    ensures ok { OnOk result (SendsOut (one_for number bytes.now) (map W.contents outs.old.items) (map W.contents outs.new.items)) }
    ensures part { OnErr result (SendsSomeOut (one_for number bytes.now) (map W.contents outs.old.items) (map W.contents outs.new.items)) }
    ensures failed { IsTrue (list_any W.has_failed outs.new.items) ↔ IsErr result }
{
    send_all(&mut outs[number], bytes)
}

/// Writes the receivers' blocks in order.
fn send_deliveries<W: Sink>(outs: &mut Vec<W>, deliveries: &[Delivery]) -> Result<(), Failed>
    requires within { AreWithin (length outs.old.items) deliveries.now }
    requires works { list_any W.has_failed outs.old.items ≡ false }
    ensures count { length outs.new.items ≡ length outs.old.items }
    ensures ok { OnOk result (SendsOut (map post deliveries.now) (map W.contents outs.old.items) (map W.contents outs.new.items)) }
    ensures part { OnErr result (SendsSomeOut (map post deliveries.now) (map W.contents outs.old.items) (map W.contents outs.new.items)) }
    ensures failed { IsTrue (list_any W.has_failed outs.new.items) ↔ IsErr result }
{
    'deliveries: for delivery in deliveries {
        send_to(outs, delivery.receiver, &delivery.block)?;
    }
    Ok(())
}

/// Writes the receivers' blocks in order, and then the answer's. Each goes out in one write where its writer takes it.
#[tactic(auto, using(crate::proofs::Posting::outcome))]
pub(crate) fn send_outcome<A: Sink, W: Sink>(
    answers: &mut A,
    outs: &mut Vec<W>,
    deliveries: &[Delivery],
    block: &[u8],
) -> Result<(), Failed>
    requires answers { A.has_failed answers.old ≡ false }
    requires outs { list_any W.has_failed outs.old.items ≡ false }
    requires within { AreWithin (length outs.old.items) deliveries.now }
    ensures count { length outs.new.items ≡ length outs.old.items }
    ensures ok { OnOk result (Changes A.Sink W.Sink answers.old answers.new outs.old outs.new (Sends (posts deliveries.now block.now))) }
    ensures part { OnErr result (Changes A.Sink W.Sink answers.old answers.new outs.old outs.new (SendsSome (posts deliveries.now block.now))) }
    ensures failed { IsTrue (some_failed A.has_failed W.has_failed answers.new outs.new.items) ↔ IsErr result }
{
    send_deliveries(outs, deliveries)?;
    send_all(answers, block)
}
