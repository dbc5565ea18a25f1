ghost use Rattle.std.specs.Prelude.{◌≡◌};
ghost use Rattle.fw_rule.specs.Values.{values_of, default_values};

use crate::{Settings, USUAL_MOST_STATES};

/// The settings that hold before any command: lifetimes of 300 seconds, 20, 1, 1, 10 and 5, at most 16,384
/// states, none of which outlives its rule.
pub fn default_settings() -> Settings
    ensures { values_of result ≡ default_values }
{
    Settings {
        ack: 300,
        syn: 20,
        fin: 1,
        rst: 1,
        udp: 10,
        short: 5,
        max: USUAL_MOST_STATES,
        keep: false,
    }
}
