/// The settings by name, each `net.inet.ip.fw.` and `dyn_ack_lifetime` and so on, `dyn_max`, or
/// `dyn_keep_states`, whose values are 0 and 1.
#[derive(Clone, Copy, Debug)]
pub enum Setting {
    Ack,
    Syn,
    Fin,
    Rst,
    Udp,
    Short,
    Max,
    Keep,
}
