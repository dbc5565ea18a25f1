ghost use Rattle.fw_rule.specs.Settings.{IsLifetime, IsMostStates};

/// The greatest `max` of `Settings`.
pub const MOST_STATES: u32 = 65_536;

/// The `max` of `Settings` before any command.
pub const USUAL_MOST_STATES: u32 = 16_384;

/// The longest lifetime of a dynamic state, in seconds.
pub const LONGEST_LIFETIME: u32 = 86_400;

/// How long dynamic states live, in seconds from 1 to 86,400, how many there may be, from 1 to 65,536,
/// and whether a state outlives the rule that made it (ipfw(8), "SYSCTL VARIABLES").
#[derive(Clone, Copy, Debug)]
pub struct Settings {
    pub ack: u32,
    pub syn: u32,
    pub fin: u32,
    pub rst: u32,
    pub udp: u32,
    pub short: u32,
    pub max: u32,
    /// Whether a state whose rule is deleted is kept, under rule 65535.
    pub keep: bool,
    ghost ack_in_range: { IsLifetime ack },
    ghost syn_in_range: { IsLifetime syn },
    ghost fin_in_range: { IsLifetime fin },
    ghost rst_in_range: { IsLifetime rst },
    ghost udp_in_range: { IsLifetime udp },
    ghost short_in_range: { IsLifetime short },
    ghost max_in_range: { IsMostStates max },
}
