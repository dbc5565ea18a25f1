use super::captures::Packet;
use super::{B, Row, SERIAL, T, Timed, U, check};
use std::test::Fail;

const FIVE: &[Timed] = &[(100, T), (101, T), (102, T), (103, T), (104, T)];

const FROM_TWO: &[Timed] = &[
    (100, Packet::Tcp(([10, 1, 2, 3], 1025), (B, 80), 2)),
    (101, Packet::Tcp(([10, 2, 2, 3], 1025), (B, 80), 2)),
];

/// Two sets change their numbers behind three packets.
pub(super) const SET_SWAP: Row = Row {
    name: "set_swap_is_one_edition",
    words: SERIAL,
    script: "set disable 2\nadd 100 set 1 allow tcp from any to any\nadd 100 set 2 deny tcp from any to any\nlive\nafter 3\nset swap 1 2\nset disable 31\n",
    captures: &[FIVE],
    status: 2,
    text: "1.1 allow 00100 at 1\n1.2 allow 00100 at 1\n1.3 allow 00100 at 1\n1.4 deny 00100 at 2\n1.5 deny 00100 at 2\nend 1 records 5\nrefused line 7 ReservedSet\neditions 2\ndisabled 2\nrules 3\n00100 3 120 set 2 allow tcp from any to any\n00100 2 80 set 1 deny tcp from any to any\n65535 0 0 set 31 deny ip from any to any\nclock 0\nstates 0\n",
};

/// A rule that skips to its own number.
pub(super) const SKIPTO_OWN: Row = Row {
    name: "skipto_own_number_skips_nothing",
    words: SERIAL,
    script: "add 100 count tcp from any to any\nadd 100 skipto 100 tcp from any to any\nadd 100 allow tcp from any to any\n",
    captures: &[&[(100, T)]],
    status: 0,
    text: "1.1 allow 00100 at 1\nend 1 records 1\neditions 1\nrules 4\n00100 1 40 count tcp from any to any\n00100 1 40 skipto 100 tcp from any to any\n00100 1 40 allow tcp from any to any\n65535 0 0 set 31 deny ip from any to any\nclock 0\nstates 0\n",
};

const ROWS: [Row; 8] = [
    Row {
        name: "publication_drops_states",
        words: SERIAL,
        script: "add 100 check-state\nadd 200 allow udp from any to any keep-state\nlive\nafter 1\ndelete 200\n",
        captures: &[&[(100, U), (101, U)]],
        status: 0,
        text: "1.1 allow 00200 at 1\n1.2 deny 65535 at 2\nend 1 records 2\neditions 2\nrules 2\n00100 0 0 check-state\n65535 1 28 set 31 deny ip from any to any\nclock 101\nstates 0\n",
    },
    Row {
        name: "kept_state_gets_the_last_rule",
        words: SERIAL,
        script: "sysctl dyn_keep_states=1\nadd 100 check-state\nadd 200 allow udp from any to any keep-state\nlive\nafter 1\ndelete 200\n",
        captures: &[&[(100, U), (101, U)]],
        status: 0,
        text: "1.1 allow 00200 at 1\n1.2 deny 65535 at 2\nend 1 records 2\neditions 2\nrules 2\n00100 0 0 check-state\n65535 1 28 set 31 deny ip from any to any\nclock 101\nstates 1\n65535 udp 10.0.0.1 5 192.0.2.1 6 expires 111\n",
    },
    SET_SWAP,
    Row {
        name: "table_values_and_existing_entry",
        words: SERIAL,
        script: "table nets add 10.0.0.0/8 1\ntable nets add 10.1.0.0/16 2\nadd 100 allow ip from table(nets,2) to any\nadd 200 deny ip from table(nets,1) to any\nlive\ntable nets add 10.0.0.0/8 5\n",
        captures: &[FROM_TWO],
        status: 2,
        text: "1.1 allow 00100 at 1\n1.2 deny 00200 at 1\nend 1 records 2\nrefused line 6 EntryExists\neditions 1\nrules 3\n00100 1 40 allow ip from table(nets,2) to any\n00200 1 40 deny ip from table(nets,1) to any\n65535 0 0 set 31 deny ip from any to any\nclock 0\nstates 0\n",
    },
    SKIPTO_OWN,
    Row {
        name: "return_goes_past_the_call",
        words: SERIAL,
        script: "add 100 call 300 ip from any to any\nadd 100 count ip from any to any\nadd 200 allow ip from any to any\nadd 300 return ip from any to any\n",
        captures: &[&[(100, T)]],
        status: 0,
        text: "1.1 allow 00200 at 1\nend 1 records 1\neditions 1\nrules 5\n00100 1 40 call 300 ip from any to any\n00100 0 0 count ip from any to any\n00200 1 40 allow ip from any to any\n00300 1 40 return ip from any to any\n65535 0 0 set 31 deny ip from any to any\nclock 0\nstates 0\n",
    },
    Row {
        name: "automatic_number_stops_at_65534",
        words: SERIAL,
        script: "add 65434 count ip from any to any\nadd count ip from any to any\nadd count ip from any to any\n",
        captures: &[&[]],
        status: 0,
        text: "end 1 records 0\neditions 1\nrules 4\n65434 0 0 count ip from any to any\n65534 0 0 count ip from any to any\n65534 0 0 count ip from any to any\n65535 0 0 set 31 deny ip from any to any\nclock 0\nstates 0\n",
    },
    Row {
        name: "live listings show the edition that stands then, and a tie goes to the earlier capture",
        words: &["serial", "s", "in:em0:c", "in:em0:d"],
        script: "add 100 allow ip from any to any\nlive\nafter 1\nlist\ndelete 100\nlist\ntable none list\n",
        captures: &[&[(100, T)], &[(100, T)]],
        status: 2,
        text: "1.1 allow 00100 at 1\nend 1 records 1\n2.1 deny 65535 at 2\nend 2 records 1\nlist line 4 edition 1\nrules 2\n00100 allow ip from any to any\n65535 set 31 deny ip from any to any\nlist line 6 edition 2\nrules 1\n65535 set 31 deny ip from any to any\nrefused line 7 NoSuchTable\neditions 2\nrules 1\n65535 1 40 set 31 deny ip from any to any\nclock 0\nstates 0\n",
    },
];

/// Rows of live edits and of the order of rules.
#[test]
fn edits_and_order(rt: HostRuntime) -> Result<(), Fail> {
    check(&rt, rt.alloc(), &ROWS)
}
