// Packets on links.
ghost use Rattle.std.specs.Prelude.{◌≡◌, ◌≤◌, ◌<◌, ◌+◌, ◌^◌, length};

use cl_base::{DropCause, NodeId};
use interconnect::{Net, Sent};
use std::process::Abort;
use std::test::Fail;

/// The most bytes of a packet.
const MOST: usize = 131_072;

/// A packet of this many bytes is answered so.
fn sends(rt: &impl Abort, net: &mut Net, way: (NodeId, NodeId), bytes: &[u8], answer: Sent)
    requires number { net.old.next < 2 ^ 63 }
    requires size { length bytes.now ≤ 131072 }
    ensures next { net.new.next ≡ net.old.next + 1 }
{
    let sent = net.send(way.0, way.1, bytes);
    assert!(rt; sent == answer);
}

fn in_flight(number: u64) -> Sent {
    Sent {
        number: Some(number),
        dropped: None,
    }
}

/// Of three cells the first packet takes all, so that the second is dropped.
fn takes_cells(rt: &impl Abort, net: &mut Net, out: &mut [u8], one: NodeId, two: NodeId)
    requires first { net.old.next ≡ 1 }
    requires room { 131072 ≤ length out.old }
{
    sends(rt, net, (one, two), &[5; 600], in_flight(1));
    let dropped = Sent {
        number: None,
        dropped: Some((2, DropCause::Pool)),
    };
    sends(rt, net, (two, one), &[6], dropped);
    assert!(rt; net.route(1) == Some((one, two)));
    assert!(rt; net.oldest(one, two) == Some(1));
    assert!(rt; net.deliver(1, out).is_ok());
    assert!(rt; out[599] == 5 && out[600] == 0);
    sends(rt, net, (two, one), &[7], in_flight(3));
    assert!(rt; net.repeat(3).is_ok());
    assert!(rt; net.lose(3).is_ok());
    assert!(rt; net.first_from(1) == Some(4));
    assert!(rt; net.next_number() == 5);
    assert!(rt; net.in_flight(two, one) == 1);
}

#[test]
fn cells_of_a_send(rt: HostRuntime) -> Result<(), Fail> {
    let (one, two) = (NodeId::new(1)?, NodeId::new(2)?);
    let mut net = Net::new(rt.alloc(), 3)?;
    let mut out = vec![in rt.alloc(); 0u8; MOST]?;
    takes_cells(&rt, &mut net, &mut out, one, two);
    Ok(())
}

/// Packets 2 to 39 come and are lost while packet 1 stays.
fn comes_and_goes(rt: &impl Abort, net: &mut Net, one: NodeId, two: NodeId)
    requires first { net.old.next ≡ 1 }
{
    sends(rt, net, (one, two), &[5], in_flight(1));
    for number in 2..40u64 {
        sends(rt, net, (two, one), &[6], in_flight(number));
        assert!(rt; net.lose(number).is_ok());
    }
    assert!(rt; net.first_from(1) == Some(1));
    assert!(rt; net.first_from(2) == None);
}

#[test]
fn old_packet(rt: HostRuntime) -> Result<(), Fail> {
    let (one, two) = (NodeId::new(1)?, NodeId::new(2)?);
    let mut net = Net::new(rt.alloc(), 4)?;
    comes_and_goes(&rt, &mut net, one, two);
    Ok(())
}

/// The 65th packet of a link pushes the first out.
fn pushes_out(rt: &impl Abort, net: &mut Net, one: NodeId, two: NodeId)
    requires first { net.old.next ≡ 1 }
{
    for number in 1..65u64 {
        sends(rt, net, (one, two), &[1], in_flight(number));
    }
    let pushed = Sent {
        number: Some(65),
        dropped: Some((1, DropCause::Link)),
    };
    sends(rt, net, (one, two), &[2], pushed);
    assert!(rt; net.oldest(one, two) == Some(2));
}

#[test]
fn full_link(rt: HostRuntime) -> Result<(), Fail> {
    let (one, two) = (NodeId::new(1)?, NodeId::new(2)?);
    let mut net = Net::new(rt.alloc(), 100)?;
    pushes_out(&rt, &mut net, one, two);
    Ok(())
}
