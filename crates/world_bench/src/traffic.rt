use fw_base::{Direction, Name, OutOfMemory, Port};
use std::alloc::Global;

/// What rules and packets come to.
#[derive(Clone, Copy)]
pub enum Traffic {
    /// No packet asks the states.
    Silent,
    /// Each packet asks the states once, but for a lane's first one, which asks twice.
    Asking,
}

impl Traffic {
    /// Its name in a line.
    pub fn name(self) -> &'static str {
        match self {
            Traffic::Silent => "no ask",
            Traffic::Asking => "one ask each",
        }
    }

    /// The script of its rules.
    pub fn script(self) -> &'static str {
        match self {
            Traffic::Silent => {
                "add 100 deny tcp from any to any\nadd 200 allow udp from 10.0.0.0/8 to any 53\n"
            }
            Traffic::Asking => {
                "add 100 deny tcp from any to any\nadd 200 allow udp from 10.0.0.0/8 to any 53 keep-state\n"
            }
        }
    }
}

/// Where the packets of all lanes are captured.
pub fn port(alloc: Global) -> Result<Port, OutOfMemory> {
    Ok(Port {
        direction: Direction::In,
        interface: Name::new(alloc, b"em0")?,
    })
}

/// A datagram of this host of 10.0.0.0/24 to a name server, without a link header.
pub fn datagram(host: u8) -> [u8; 28] {
    [
        0x45, 0, 0, 28, 0, 0, 0, 0, 64, 17, 0, 0, 10, 0, 0, host, 192, 0, 2, 1, 4, 0, 0, 53, 0, 8,
        0, 0,
    ]
}
