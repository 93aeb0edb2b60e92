use crate::UdpLink;
use std::test::Fail;
use tcs_link::{Link, LinkStop, Polled};

/// A frame that tells the outcome of a transaction.
const FRAME: [u8; 7] = [15, 1, 0, 0, 0, 1, 0];

#[test]
fn a_datagram_comes_to_its_node(rt: HostRuntime) -> Result<(), Fail> {
    let mut link = UdpLink::new(rt.alloc(), &rt);
    // Another program may have some of these ports.
    let mut attached = Err(LinkStop::Failed);
    for port in [47_100, 48_200, 49_300, 50_400, 51_500, 52_600] {
        attached = link.attach(&[0, 1], port);
        if attached.is_ok() {
            break;
        }
    }
    assert_eq!(rt; attached, Ok(()));
    assert_eq!(rt; link.send(1, 1, &FRAME), Ok(()));
    let mut buf = [0u8; 16];
    let mut polled = Ok(Polled::Nothing);
    for _ in 0..100_000 {
        polled = link.poll(1, &mut buf);
        if polled != Ok(Polled::Nothing) {
            break;
        }
    }
    assert_eq!(rt; polled, Ok(Polled::Frame { from: 1, len: 7 }));
    assert_eq!(rt; &buf[..7], FRAME.as_slice());
    assert_eq!(rt; link.poll(1, &mut buf), Ok(Polled::Nothing));
    // No socket has the name 3, and no port is above 65535.
    assert_eq!(rt; link.send(3, 1, &FRAME), Err(LinkStop::Failed));
    assert_eq!(rt; link.poll(3, &mut buf), Err(LinkStop::Failed));
    assert_eq!(rt; link.attach(&[2], 65_534), Err(LinkStop::Failed));
    Ok(())
}
