//! Acknowledgments that are read.
use gw_ack::{Ack, AckFault, read_ack};
use std::test::Fail;

const H: &[u8] = b"MSH|^~\\&|LAB|H1|GW|H2|20240102030405||ADT^A01^ADT_A01|7|P|2.5.1\r";

const ACCEPTED: &[u8] =
    b"MSH|^~\\&|GW|H2|LAB|H1|20240102030406||ACK^A01^ACK|G1|P|2.5.1\rMSA|AA|7\r";

#[test]
fn read_back(rt: HostRuntime) -> Result<(), Fail> {
    let rows: [(&[u8], &[u8], Result<Ack, AckFault>); 6] = [
        (ACCEPTED, b"7", Ok(Ack::AA)),
        (ACCEPTED, b"8", Err(AckFault::OtherMessage)),
        (b"MSH|^~\\&|GW\rMSA|AE|7\rERR|PID^1^3\r", b"7", Ok(Ack::AE)),
        (b"MSH|^~\\&|GW\rMSA|AR\r", b"", Ok(Ack::AR)),
        (H, b"7", Err(AckFault::NotAnAck)),
        (b"", b"7", Err(AckFault::Unreadable)),
    ];
    for (content, control, wanted) in rows {
        assert_eq!(rt; read_ack(rt.alloc(), content, control), wanted);
    }
    Ok(())
}
