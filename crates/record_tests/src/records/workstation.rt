ghost use Rattle.std.specs.Prelude.{IfOk};
ghost use Rattle.std.specs.List.{AllByRecursion};
ghost use Rattle.fw_command.specs.WellFormed.{IsLine};
ghost use Rattle.record_tests.specs.TwoLanes.{AreTwoLanes};

use super::packets::{End, Packet};
use super::{configured, judge, printed};
use fw_base::{Direction, Link, Name, Port};
use fw_command::{Line, Pace, Script, parse_script};
use fw_rule::Items;
use ip6_headers::{AnyIp, AnyPacket, read_any};
use memory_files::MemorySink;
use report_texts::{CaptureEnd, Ends};
use serial_world::{OpenSerial, SerialDesk, SerialLane, SerialWorld};
use std::alloc::Global;
use std::process::Abort;
use std::test::Fail;

/// The workstation.
const M: [u8; 4] = [10, 0, 0, 2];

/// Its name server.
const N: [u8; 4] = [10, 0, 0, 1];

/// A server of the web.
const B: [u8; 4] = [192, 0, 2, 1];

/// A stranger.
const X: [u8; 4] = [198, 51, 100, 7];

const SSH: End = (M, 22);

const SYN: u8 = 2;

const RST: u8 = 4;

const ACK: u8 = 16;

const FIN_ACK: u8 = 17;

const SYN_ACK: u8 = 18;

/// A packet, which way it passed em0, and the second of its record.
pub type Passed = (u32, Direction, Packet);

/// What the workstation sends and receives, in the order of the seconds.
pub const RECORDS: &[Passed] = &[
    (1000, Direction::Out, Packet::Udp((M, 5000), (N, 53))),
    (1001, Direction::In, Packet::Udp((N, 53), (M, 5000))),
    (1002, Direction::Out, Packet::Tcp((M, 5001), (B, 443), SYN)),
    (
        1003,
        Direction::In,
        Packet::Tcp((B, 443), (M, 5001), SYN_ACK),
    ),
    (1004, Direction::Out, Packet::Tcp((M, 5001), (B, 443), ACK)),
    (1005, Direction::In, Packet::Tcp((X, 80), (M, 6000), ACK)),
    (1006, Direction::In, Packet::Tcp((X, 4000), SSH, SYN)),
    (1007, Direction::In, Packet::Tcp((X, 4001), SSH, SYN)),
    (1008, Direction::In, Packet::Tcp((X, 4002), SSH, SYN)),
    (1009, Direction::In, Packet::Icmp(X, M, 8)),
    (1010, Direction::Out, Packet::Icmp(M, X, 0)),
    (1011, Direction::In, Packet::Udp((N, 53), (M, 5000))),
    (1012, Direction::In, Packet::Fragment([198, 51, 100, 9], M)),
    (
        1013,
        Direction::In,
        Packet::Tcp(([198, 51, 100, 8], 4000), (M, 23), SYN),
    ),
    (
        1014,
        Direction::In,
        Packet::Tcp(([127, 0, 0, 1], 4000), SSH, SYN),
    ),
    (
        1015,
        Direction::Out,
        Packet::Tcp((M, 5001), (B, 443), FIN_ACK),
    ),
    (
        1016,
        Direction::In,
        Packet::Tcp((B, 443), (M, 5001), FIN_ACK),
    ),
    (1017, Direction::Out, Packet::Tcp((M, 5001), (B, 443), ACK)),
    (1018, Direction::In, Packet::Tcp((X, 4000), SSH, RST)),
    (1019, Direction::In, Packet::Tcp((X, 4003), SSH, SYN)),
];

/// How many of them are sent.
const SENT: u64 = 6;

/// How many are received.
const RECEIVED: u64 = 14;

pub const SCRIPT: &str = "# workstation\nlocal 10.0.0.2\nadd 100 allow ip from any to any via lo0\n\
    add 200 deny ip from any to 127.0.0.0/8\nadd 300 deny ip from 127.0.0.0/8 to any\n\
    add 400 check-state\nadd 500 deny tcp from any to any established\n\
    add 600 allow tcp from me to any setup keep-state\n\
    add 700 allow udp from me to any 53 keep-state\n\
    add 800 allow icmp from any to any icmptypes 0,3,8,11\n\
    add 900 allow tcp from any to me 22 setup limit src-addr 2\n\
    add 1000 count ip from any to any frag\nadd 1100 unreach port udp from any to me\n\
    add 65000 deny log ip from any to any\n";

/// The report, with its journal.
pub const TEXT: &str = "1.1 allow 00700 at 1\n1.2 allow 00600 at 1\n1.3 allow 00600 at 1\n\
    1.4 allow 00800 at 1\n1.5 allow 00600 at 1\n1.6 deny 00500 at 1\nend 1 records 6\n\
    2.1 allow 00700 at 1\n2.2 allow 00600 at 1\n2.3 deny 00500 at 1\n2.4 allow 00900 at 1\n\
    2.5 allow 00900 at 1\n2.6 deny 00900 at 1 limit 2\n2.7 allow 00800 at 1\n\
    2.8 unreach port 01100 at 1\n2.9 unreach port 01100 at 1\n2.10 deny 65000 at 1\n\
    2.11 deny 00300 at 1\n2.12 allow 00600 at 1\n2.13 allow 00900 at 1\n2.14 allow 00900 at 1\n\
    end 2 records 14\neditions 1\nrules 13\n00100 0 0 allow ip from any to any via lo0\n\
    00200 0 0 deny ip from any to 127.0.0.0/8\n00300 1 40 deny ip from 127.0.0.0/8 to any\n\
    00400 0 0 check-state\n00500 2 80 deny tcp from any to any established\n\
    00600 5 200 allow tcp from me to any setup keep-state\n\
    00700 2 56 allow udp from me to any 53 keep-state\n\
    00800 2 56 allow icmp from any to any icmptypes 0,3,8,11\n\
    00900 4 160 allow tcp from any to me 22 setup limit src-addr 2\n\
    01000 1 28 count ip from any to any frag\n01100 2 56 unreach port udp from any to me\n\
    65000 1 40 deny log ip from any to any\n65535 0 0 set 31 deny ip from any to any\nclock 1019\n\
    states 2\n00900 tcp 198.51.100.7 4001 10.0.0.2 22 expires 1027\n\
    00900 tcp 198.51.100.7 4003 10.0.0.2 22 expires 1039\njournal 2 25\npublish 1\n\
    ask 1.1 1000 lookup :default udp 10.0.0.2 5000 10.0.0.1 53 - notfound\n\
    ask 1.1 1000 install 7 keep :default udp 10.0.0.2 5000 10.0.0.1 53 - created\n\
    ask 2.1 1001 lookup :default udp 10.0.0.1 53 10.0.0.2 5000 - found 7 reverse\n\
    ask 1.2 1002 lookup :default tcp 10.0.0.2 5001 192.0.2.1 443 S notfound\n\
    ask 1.2 1002 install 6 keep :default tcp 10.0.0.2 5001 192.0.2.1 443 S created\n\
    ask 2.2 1003 lookup :default tcp 192.0.2.1 443 10.0.0.2 5001 S found 6 reverse\n\
    ask 1.3 1004 lookup :default tcp 10.0.0.2 5001 192.0.2.1 443 - found 6 forward\n\
    ask 2.3 1005 lookup :default tcp 198.51.100.7 80 10.0.0.2 6000 - notfound\n\
    ask 2.4 1006 lookup :default tcp 198.51.100.7 4000 10.0.0.2 22 S notfound\n\
    ask 2.4 1006 install 9 limit src-addr 2 :default tcp 198.51.100.7 4000 10.0.0.2 22 S created\n\
    ask 2.5 1007 lookup :default tcp 198.51.100.7 4001 10.0.0.2 22 S notfound\n\
    ask 2.5 1007 install 9 limit src-addr 2 :default tcp 198.51.100.7 4001 10.0.0.2 22 S created\n\
    ask 2.6 1008 lookup :default tcp 198.51.100.7 4002 10.0.0.2 22 S notfound\n\
    ask 2.6 1008 install 9 limit src-addr 2 :default tcp 198.51.100.7 4002 10.0.0.2 22 S limit 2\n\
    ask 2.7 1009 lookup :default icmp 198.51.100.7 0 10.0.0.2 0 - notfound\n\
    ask 1.4 1010 lookup :default icmp 10.0.0.2 0 198.51.100.7 0 - notfound\n\
    ask 2.8 1011 lookup :default udp 10.0.0.1 53 10.0.0.2 5000 - notfound\n\
    ask 2.10 1013 lookup :default tcp 198.51.100.8 4000 10.0.0.2 23 S notfound\n\
    ask 1.5 1015 lookup :default tcp 10.0.0.2 5001 192.0.2.1 443 F found 6 forward\n\
    ask 2.12 1016 lookup :default tcp 192.0.2.1 443 10.0.0.2 5001 F found 6 reverse\n\
    ask 1.6 1017 lookup :default tcp 10.0.0.2 5001 192.0.2.1 443 - notfound\n\
    ask 2.13 1018 lookup :default tcp 198.51.100.7 4000 10.0.0.2 22 R found 9 forward\n\
    ask 2.14 1019 lookup :default tcp 198.51.100.7 4003 10.0.0.2 22 S notfound\n\
    ask 2.14 1019 install 9 limit src-addr 2 :default tcp 198.51.100.7 4003 10.0.0.2 22 S created\n\
    lane 1 refused 0 tracker 12\nlane 2 refused 0 tracker 28\n";

/// A world of two lanes.
#[derive(Drop)]
struct Pair {
    world: SerialWorld,
    first: SerialLane,
    second: SerialLane,
    desk: SerialDesk,
}

/// A world of two lanes that shows these commands' configuration as edition 1.
fn opened(alloc: Global, lines: &[Line]) -> Result<Pair, Fail>
    requires { AllByRecursion IsLine lines.now }
    ensures { IfOk result (λ pair. AreTwoLanes pair.world pair.desk pair.first pair.second) }
{
    let config = configured(alloc, lines)?;
    let OpenSerial {
        world,
        mut lanes,
        desk,
    } = SerialWorld::open(alloc, config, 2, None)?;
    let first = lanes.remove(0);
    let second = lanes.remove(0);
    Ok(Pair {
        world,
        first,
        second,
        desk,
    })
}

/// Judges a packet with the first lane.
fn judge_first(pair: Pair, packet: &AnyIp<'_>, port: &Port, at: u32) -> Result<Pair, Fail>
    requires { AreTwoLanes pair.world pair.desk pair.first pair.second }
    ensures { IfOk result (λ after.
        AreTwoLanes after.world after.desk after.first after.second) }
{
    let Pair {
        mut world,
        first,
        second,
        desk,
    } = pair;
    let first = judge(&mut world, first, packet, port, at)?;
    Ok(Pair {
        world,
        first,
        second,
        desk,
    })
}

/// Judges a packet with the second lane.
fn judge_second(pair: Pair, packet: &AnyIp<'_>, port: &Port, at: u32) -> Result<Pair, Fail>
    requires { AreTwoLanes pair.world pair.desk pair.first pair.second }
    ensures { IfOk result (λ after.
        AreTwoLanes after.world after.desk after.first after.second) }
{
    let Pair {
        mut world,
        first,
        second,
        desk,
    } = pair;
    let second = judge(&mut world, second, packet, port, at)?;
    Ok(Pair {
        world,
        first,
        second,
        desk,
    })
}

/// Judges a record: the first lane judges what is sent, the second what is received.
fn judge_record(rt: &impl Abort, alloc: Global, pair: Pair, passed: &Passed) -> Result<Pair, Fail>
    requires { AreTwoLanes pair.world pair.desk pair.first pair.second }
    ensures { IfOk result (λ after.
        AreTwoLanes after.world after.desk after.first after.second) }
{
    let (at, direction, packet) = *passed;
    let bytes = packet.bytes(alloc)?;
    assert!(rt; bytes.len() < 65_536);
    let AnyPacket::Ip(packet) = read_any(Link::Raw, &bytes) else {
        return Err(Fail::from("no packet"));
    };
    let port = Port {
        direction,
        interface: Name::new(alloc, b"em0")?,
    };
    match direction {
        Direction::Out => judge_first(pair, &packet, &port, at),
        Direction::In => judge_second(pair, &packet, &port, at),
    }
}

/// The report of the world.
fn report(rt: &impl Abort, alloc: Global, pair: Pair) -> Result<MemorySink, Fail>
    requires { AreTwoLanes pair.world pair.desk pair.first pair.second }
{
    let Pair {
        world,
        first,
        second,
        desk,
    } = pair;
    let record = world.close(vec![in alloc; first, second]?, desk)?;
    let sent = CaptureEnd::Read { records: SENT };
    let received = CaptureEnd::Read { records: RECEIVED };
    let ends = Ends {
        captures: Items::from_vec(vec![in alloc; sent, received]?),
        answers: Items::from_vec(Vec::new(alloc)),
    };
    printed(rt, alloc, &record, &ends)
}

/// Replays these records by a script, and compares the report.
pub fn replay(
    rt: &impl Abort,
    alloc: Global,
    script: &str,
    records: &[Passed],
    text: &str,
) -> Result<(), Fail> {
    let script = match parse_script(alloc, script.as_bytes(), Pace::Serial) {
        Ok(script) => script,
        Err(_) => return Err(Fail::from("no script")),
    };
    let Script { before, .. } = script;
    let mut pair = opened(alloc, before.as_slice())?;
    for passed in records {
        pair = judge_record(rt, alloc, pair, passed)?;
    }
    let out = report(rt, alloc, pair)?;
    assert_eq!(rt; out.written(), text.as_bytes());
    Ok(())
}
