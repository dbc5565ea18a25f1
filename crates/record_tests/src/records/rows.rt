use test_frames::{ACK, DATAGRAM, FIN_ACK, FIN_ACK_BACK, SYN, SYN_ACK};

/// A packet of a capture and the second of its record.
pub type Timed = (u32, &'static [u8]);

/// A worked row: a script, the packets of its one capture before and behind the live commands, and the report
/// with its journal.
pub struct Row {
    pub name: &'static str,
    pub script: &'static str,
    pub first: &'static [Timed],
    pub behind: &'static [Timed],
    pub text: &'static str,
}

pub const ROWS: &[Row] = &[
    Row {
        name: "empty_script_denies_one_syn",
        script: "",
        first: &[(100, SYN)],
        behind: &[],
        text: "1.1 deny 65535 at 1\nend 1 records 1\neditions 1\nrules 1\n\
            65535 1 40 set 31 deny ip from any to any\nclock 0\nstates 0\n\
            journal 2 1\npublish 1\nlane 1 refused 0 tracker 2\n",
    },
    Row {
        name: "capture_of_no_records",
        script: "",
        first: &[],
        behind: &[],
        text: "end 1 records 0\neditions 1\nrules 1\n65535 0 0 set 31 deny ip from any to any\n\
            clock 0\nstates 0\njournal 2 1\npublish 1\nlane 1 refused 0 tracker 0\n",
    },
    Row {
        name: "tcp_state_lives_and_dies",
        script: "add 100 check-state\nadd 200 allow tcp from any to any setup keep-state\n",
        first: &[
            (100, SYN),
            (101, SYN_ACK),
            (102, FIN_ACK),
            (103, FIN_ACK_BACK),
            (104, ACK),
        ],
        behind: &[],
        text: "1.1 allow 00200 at 1\n1.2 allow 00200 at 1\n1.3 allow 00200 at 1\n\
            1.4 allow 00200 at 1\n1.5 deny 65535 at 1\nend 1 records 5\neditions 1\nrules 3\n\
            00100 0 0 check-state\n00200 4 160 allow tcp from any to any setup keep-state\n\
            65535 1 40 set 31 deny ip from any to any\nclock 104\nstates 0\njournal 2 7\npublish 1\n\
            ask 1.1 100 lookup :default tcp 10.0.0.1 1025 192.0.2.1 80 S notfound\n\
            ask 1.1 100 install 2 keep :default tcp 10.0.0.1 1025 192.0.2.1 80 S created\n\
            ask 1.2 101 lookup :default tcp 192.0.2.1 80 10.0.0.1 1025 S found 2 reverse\n\
            ask 1.3 102 lookup :default tcp 10.0.0.1 1025 192.0.2.1 80 F found 2 forward\n\
            ask 1.4 103 lookup :default tcp 192.0.2.1 80 10.0.0.1 1025 F found 2 reverse\n\
            ask 1.5 104 lookup :default tcp 10.0.0.1 1025 192.0.2.1 80 - notfound\n\
            lane 1 refused 0 tracker 10\n",
    },
    Row {
        name: "publication_drops_states",
        script: "add 100 check-state\nadd 200 allow udp from any to any keep-state\n\
            live\nafter 1\ndelete 200\n",
        first: &[(100, DATAGRAM)],
        behind: &[(101, DATAGRAM)],
        text: "1.1 allow 00200 at 1\n1.2 deny 65535 at 2\nend 1 records 2\neditions 2\nrules 2\n\
            00100 0 0 check-state\n65535 1 28 set 31 deny ip from any to any\nclock 101\nstates 0\n\
            journal 2 5\npublish 1\n\
            ask 1.1 100 lookup :default udp 10.0.0.1 5 192.0.2.1 6 - notfound\n\
            ask 1.1 100 install 2 keep :default udp 10.0.0.1 5 192.0.2.1 6 - created\n\
            publish 2\n\
            ask 1.2 101 lookup :default udp 10.0.0.1 5 192.0.2.1 6 - notfound\n\
            lane 1 refused 1 tracker 6\n",
    },
    Row {
        name: "kept_state_gets_the_last_rule",
        script: "sysctl dyn_keep_states=1\nadd 100 check-state\n\
            add 200 allow udp from any to any keep-state\nlive\nafter 1\ndelete 200\n",
        first: &[(100, DATAGRAM)],
        behind: &[(101, DATAGRAM)],
        text: "1.1 allow 00200 at 1\n1.2 deny 65535 at 2\nend 1 records 2\neditions 2\nrules 2\n\
            00100 0 0 check-state\n65535 1 28 set 31 deny ip from any to any\nclock 101\nstates 1\n\
            65535 udp 10.0.0.1 5 192.0.2.1 6 expires 111\njournal 2 5\npublish 1\n\
            ask 1.1 100 lookup :default udp 10.0.0.1 5 192.0.2.1 6 - notfound\n\
            ask 1.1 100 install 2 keep :default udp 10.0.0.1 5 192.0.2.1 6 - created\n\
            publish 2\n\
            ask 1.2 101 lookup :default udp 10.0.0.1 5 192.0.2.1 6 - found 0 forward\n\
            lane 1 refused 1 tracker 6\n",
    },
    Row {
        name: "set_swap_is_one_edition",
        script: "set disable 2\nadd 100 set 1 allow tcp from any to any\n\
            add 100 set 2 deny tcp from any to any\nlive\nafter 3\nset swap 1 2\nset disable 31\n",
        first: &[(100, SYN), (101, SYN), (102, SYN)],
        behind: &[(103, SYN), (104, SYN)],
        text: "1.1 allow 00100 at 1\n1.2 allow 00100 at 1\n1.3 allow 00100 at 1\n\
            1.4 deny 00100 at 2\n1.5 deny 00100 at 2\nend 1 records 5\n\
            refused line 7 ReservedSet\neditions 2\ndisabled 2\nrules 3\n\
            00100 3 120 set 2 allow tcp from any to any\n\
            00100 2 80 set 1 deny tcp from any to any\n\
            65535 0 0 set 31 deny ip from any to any\nclock 0\nstates 0\n\
            journal 2 2\npublish 1\npublish 2\nlane 1 refused 1 tracker 12\n",
    },
    Row {
        name: "names_keep_states_apart",
        script: "add 100 check-state :web\nadd 200 allow udp from any to any keep-state :dns\n",
        first: &[(100, DATAGRAM), (101, DATAGRAM)],
        behind: &[],
        text: "1.1 allow 00200 at 1\n1.2 allow 00200 at 1\nend 1 records 2\neditions 1\nrules 3\n\
            00100 0 0 check-state :web\n00200 2 56 allow udp from any to any keep-state :dns\n\
            65535 0 0 set 31 deny ip from any to any\nclock 101\nstates 1\n\
            00200 udp 10.0.0.1 5 192.0.2.1 6 expires 111 :dns\njournal 2 6\npublish 1\n\
            ask 1.1 100 lookup :web udp 10.0.0.1 5 192.0.2.1 6 - notfound\n\
            ask 1.1 100 lookup :dns udp 10.0.0.1 5 192.0.2.1 6 - notfound\n\
            ask 1.1 100 install 2 keep :dns udp 10.0.0.1 5 192.0.2.1 6 - created\n\
            ask 1.2 101 lookup :web udp 10.0.0.1 5 192.0.2.1 6 - notfound\n\
            ask 1.2 101 lookup :dns udp 10.0.0.1 5 192.0.2.1 6 - found 2 forward\n\
            lane 1 refused 0 tracker 4\n",
    },
];
