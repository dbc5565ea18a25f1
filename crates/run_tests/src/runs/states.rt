use super::captures::{End, Packet};
use super::{A, B, Row, SERIAL, T, Timed, U, check};
use std::test::Fail;

const SYN: u8 = 2;

const SYN_ACK: u8 = 18;

const FIN_ACK: u8 = 17;

const ACK: u8 = 16;

const RST: u8 = 4;

const JOURNAL: &[&str] = &["serial", "--journal", "s", "in:em0:c"];

/// A connection is set up, closed from both sides, and over.
pub(super) const CONNECTION: &[Timed] = &[
    (100, Packet::Tcp((A, 1025), (B, 80), SYN)),
    (101, Packet::Tcp((B, 80), (A, 1025), SYN_ACK)),
    (102, Packet::Tcp((A, 1025), (B, 80), FIN_ACK)),
    (103, Packet::Tcp((B, 80), (A, 1025), FIN_ACK)),
    (104, Packet::Tcp((A, 1025), (B, 80), ACK)),
];

const LIMITED: &[Timed] = &[
    (100, Packet::Tcp((A, 1), (B, 80), SYN)),
    (101, Packet::Tcp((A, 2), (B, 80), SYN)),
    (102, Packet::Tcp((A, 3), (B, 80), SYN)),
    (122, Packet::Tcp((A, 4), (B, 80), SYN)),
];

const ROWS: [Row; 8] = [
    Row {
        name: "tcp_state_lives_and_dies",
        words: JOURNAL,
        script: "add 100 check-state\nadd 200 allow tcp from any to any setup keep-state\n",
        captures: &[CONNECTION],
        status: 0,
        text: "1.1 allow 00200 at 1\n1.2 allow 00200 at 1\n1.3 allow 00200 at 1\n\
            1.4 allow 00200 at 1\n1.5 deny 65535 at 1\nend 1 records 5\neditions 1\nrules 3\n\
            00100 0 0 check-state\n00200 4 160 allow tcp from any to any setup keep-state\n\
            65535 1 40 set 31 deny ip from any to any\nclock 104\nstates 0\njournal 2 7\n\
            publish 1\nask 1.1 100 lookup :default tcp 10.0.0.1 1025 192.0.2.1 80 S notfound\n\
            ask 1.1 100 install 2 keep :default tcp 10.0.0.1 1025 192.0.2.1 80 S created\n\
            ask 1.2 101 lookup :default tcp 192.0.2.1 80 10.0.0.1 1025 S found 2 reverse\n\
            ask 1.3 102 lookup :default tcp 10.0.0.1 1025 192.0.2.1 80 F found 2 forward\n\
            ask 1.4 103 lookup :default tcp 192.0.2.1 80 10.0.0.1 1025 F found 2 reverse\n\
            ask 1.5 104 lookup :default tcp 10.0.0.1 1025 192.0.2.1 80 - notfound\n\
            lane 1 refused 0 tracker 10\n",
    },
    Row {
        name: "limit_by_source_address",
        words: SERIAL,
        script: "add 100 allow tcp from any to any setup limit src-addr 2\n",
        captures: &[LIMITED],
        status: 0,
        text: "1.1 allow 00100 at 1\n1.2 allow 00100 at 1\n1.3 deny 00100 at 1 limit 2\n1.4 allow 00100 at 1\nend 1 records 4\neditions 1\nrules 2\n00100 3 120 allow tcp from any to any setup limit src-addr 2\n65535 0 0 set 31 deny ip from any to any\nclock 122\nstates 1\n00100 tcp 10.0.0.1 4 192.0.2.1 80 expires 142\n",
    },
    Row {
        name: "clock_never_goes_back",
        words: SERIAL,
        script: "add 100 allow udp from any to any keep-state\n",
        captures: &[&[(100, U), (109, U), (50, U)]],
        status: 0,
        text: "1.1 allow 00100 at 1\n1.2 allow 00100 at 1\n1.3 allow 00100 at 1\nend 1 records 3\neditions 1\nrules 2\n00100 3 84 allow udp from any to any keep-state\n65535 0 0 set 31 deny ip from any to any\nclock 109\nstates 1\n00100 udp 10.0.0.1 5 192.0.2.1 6 expires 119\n",
    },
    Row {
        name: "state_table_full",
        words: SERIAL,
        script: "sysctl dyn_max=1\nadd 100 allow udp from any to any keep-state\n",
        captures: &[&[(100, U), (101, Packet::Udp((A, 7), (B, 8)))]],
        status: 0,
        text: "1.1 allow 00100 at 1\n1.2 deny 00100 at 1 full 1\nend 1 records 2\neditions 1\nrules 2\n00100 1 28 allow udp from any to any keep-state\n65535 0 0 set 31 deny ip from any to any\nclock 101\nstates 1\n00100 udp 10.0.0.1 5 192.0.2.1 6 expires 110\n",
    },
    Row {
        name: "names_keep_states_apart",
        words: JOURNAL,
        script: "add 100 check-state :web\nadd 200 allow udp from any to any keep-state :dns\n",
        captures: &[&[(100, U), (101, U)]],
        status: 0,
        text: "1.1 allow 00200 at 1\n1.2 allow 00200 at 1\nend 1 records 2\neditions 1\nrules 3\n00100 0 0 check-state :web\n00200 2 56 allow udp from any to any keep-state :dns\n65535 0 0 set 31 deny ip from any to any\nclock 101\nstates 1\n00200 udp 10.0.0.1 5 192.0.2.1 6 expires 111 :dns\njournal 2 6\npublish 1\nask 1.1 100 lookup :web udp 10.0.0.1 5 192.0.2.1 6 - notfound\nask 1.1 100 lookup :dns udp 10.0.0.1 5 192.0.2.1 6 - notfound\nask 1.1 100 install 2 keep :dns udp 10.0.0.1 5 192.0.2.1 6 - created\nask 1.2 101 lookup :web udp 10.0.0.1 5 192.0.2.1 6 - notfound\nask 1.2 101 lookup :dns udp 10.0.0.1 5 192.0.2.1 6 - found 2 forward\nlane 1 refused 0 tracker 4\n",
    },
    Row {
        name: "check_state_any",
        words: JOURNAL,
        script: "add 100 check-state :any\nadd 200 allow udp from any to any keep-state :dns\n",
        captures: &[&[(100, U), (101, U)]],
        status: 0,
        text: "1.1 allow 00200 at 1\n1.2 allow 00200 at 1\nend 1 records 2\neditions 1\nrules 3\n00100 0 0 check-state :any\n00200 2 56 allow udp from any to any keep-state :dns\n65535 0 0 set 31 deny ip from any to any\nclock 101\nstates 1\n00200 udp 10.0.0.1 5 192.0.2.1 6 expires 111 :dns\njournal 2 4\npublish 1\nask 1.1 100 lookup :any udp 10.0.0.1 5 192.0.2.1 6 - notfound\nask 1.1 100 install 2 keep :dns udp 10.0.0.1 5 192.0.2.1 6 - created\nask 1.2 101 lookup :any udp 10.0.0.1 5 192.0.2.1 6 - found 2 forward\nlane 1 refused 0 tracker 4\n",
    },
    Row {
        name: "call_stack_full_and_empty",
        words: SERIAL,
        script: "add 100 count ip from any to any\nadd 200 call 100 ip from any to any\nadd 300 return ip from any to any\n",
        captures: &[&[(100, T)]],
        status: 0,
        text: "1.1 deny 65535 at 1\nend 1 records 1\neditions 1\nrules 4\n00100 17 680 count ip from any to any\n00200 17 680 call 100 ip from any to any\n00300 17 680 return ip from any to any\n65535 1 40 set 31 deny ip from any to any\nclock 0\nstates 0\n",
    },
    Row {
        name: "rules_that_call_each_other",
        words: SERIAL,
        script: "add 100 call 200 ip from any to any\nadd 200 call 100 ip from any to any\n",
        captures: &[&[(100, T)]],
        status: 0,
        text: "1.1 deny 65535 at 1\nend 1 records 1\neditions 1\nrules 3\n00100 9 360 call 200 ip from any to any\n00200 9 360 call 100 ip from any to any\n65535 1 40 set 31 deny ip from any to any\nclock 0\nstates 0\n",
    },
];

/// Rows of one capture: states, names, limits, calls.
#[test]
fn states_and_calls(rt: HostRuntime) -> Result<(), Fail> {
    check(&rt, rt.alloc(), &ROWS)
}

const M: [u8; 4] = [10, 0, 0, 2];

const N: [u8; 4] = [10, 0, 0, 1];

const X: [u8; 4] = [198, 51, 100, 7];

const SSH: End = (M, 22);

/// What the workstation sends.
const SENT: &[Timed] = &[
    (1000, Packet::Udp((M, 5000), (N, 53))),
    (1002, Packet::Tcp((M, 5001), (B, 443), SYN)),
    (1004, Packet::Tcp((M, 5001), (B, 443), ACK)),
    (1010, Packet::Icmp(M, X, 0)),
    (1015, Packet::Tcp((M, 5001), (B, 443), FIN_ACK)),
    (1017, Packet::Tcp((M, 5001), (B, 443), ACK)),
];

/// What it receives.
const RECEIVED: &[Timed] = &[
    (1001, Packet::Udp((N, 53), (M, 5000))),
    (1003, Packet::Tcp((B, 443), (M, 5001), SYN_ACK)),
    (1005, Packet::Tcp((X, 80), (M, 6000), ACK)),
    (1006, Packet::Tcp((X, 4000), SSH, SYN)),
    (1007, Packet::Tcp((X, 4001), SSH, SYN)),
    (1008, Packet::Tcp((X, 4002), SSH, SYN)),
    (1009, Packet::Icmp(X, M, 8)),
    (1011, Packet::Udp((N, 53), (M, 5000))),
    (1012, Packet::Fragment([198, 51, 100, 9], M)),
    (1013, Packet::Tcp(([198, 51, 100, 8], 4000), (M, 23), SYN)),
    (1014, Packet::Tcp(([127, 0, 0, 1], 4000), SSH, SYN)),
    (1016, Packet::Tcp((B, 443), (M, 5001), FIN_ACK)),
    (1018, Packet::Tcp((X, 4000), SSH, RST)),
    (1019, Packet::Tcp((X, 4003), SSH, SYN)),
];

pub(super) const WORKSTATION: Row = Row {
    name: "workstation",
    words: &["serial", "s", "out:em0:c", "in:em0:d"],
    script: "# workstation\nlocal 10.0.0.2\nadd 100 allow ip from any to any via lo0\nadd 200 deny ip from any to 127.0.0.0/8\nadd 300 deny ip from 127.0.0.0/8 to any\nadd 400 check-state\nadd 500 deny tcp from any to any established\nadd 600 allow tcp from me to any setup keep-state\nadd 700 allow udp from me to any 53 keep-state\nadd 800 allow icmp from any to any icmptypes 0,3,8,11\nadd 900 allow tcp from any to me 22 setup limit src-addr 2\nadd 1000 count ip from any to any frag\nadd 1100 unreach port udp from any to me\nadd 65000 deny log ip from any to any\n",
    captures: &[SENT, RECEIVED],
    status: 0,
    text: "1.1 allow 00700 at 1\n1.2 allow 00600 at 1\n1.3 allow 00600 at 1\n1.4 allow 00800 at 1\n\
        1.5 allow 00600 at 1\n1.6 deny 00500 at 1\nend 1 records 6\n2.1 allow 00700 at 1\n\
        2.2 allow 00600 at 1\n2.3 deny 00500 at 1\n2.4 allow 00900 at 1\n2.5 allow 00900 at 1\n\
        2.6 deny 00900 at 1 limit 2\n2.7 allow 00800 at 1\n2.8 unreach port 01100 at 1\n\
        2.9 unreach port 01100 at 1\n2.10 deny 65000 at 1\n2.11 deny 00300 at 1\n\
        2.12 allow 00600 at 1\n2.13 allow 00900 at 1\n2.14 allow 00900 at 1\nend 2 records 14\n\
        editions 1\nrules 13\n00100 0 0 allow ip from any to any via lo0\n\
        00200 0 0 deny ip from any to 127.0.0.0/8\n00300 1 40 deny ip from 127.0.0.0/8 to any\n\
        00400 0 0 check-state\n00500 2 80 deny tcp from any to any established\n\
        00600 5 200 allow tcp from me to any setup keep-state\n\
        00700 2 56 allow udp from me to any 53 keep-state\n\
        00800 2 56 allow icmp from any to any icmptypes 0,3,8,11\n\
        00900 4 160 allow tcp from any to me 22 setup limit src-addr 2\n\
        01000 1 28 count ip from any to any frag\n01100 2 56 unreach port udp from any to me\n\
        65000 1 40 deny log ip from any to any\n65535 0 0 set 31 deny ip from any to any\n\
        clock 1019\nstates 2\n00900 tcp 198.51.100.7 4001 10.0.0.2 22 expires 1027\n\
        00900 tcp 198.51.100.7 4003 10.0.0.2 22 expires 1039\n",
};

#[test]
fn workstation(rt: HostRuntime) -> Result<(), Fail> {
    check(&rt, rt.alloc(), &[WORKSTATION])
}
