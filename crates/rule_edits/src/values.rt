ghost use Rattle.std.specs.Prelude.{◌≡◌};
ghost use Rattle.fw_rule.specs.Settings.{IsInRange};
ghost use Rattle.fw_rule.specs.Values.{values_of, with_value};

use fw_rule::{Setting, Settings};

/// The settings with one of them changed, to a value in its range.
pub(crate) fn changed(settings: Settings, setting: Setting, value: u32) -> Settings
    requires { IsInRange setting value }
    ensures { values_of result ≡ with_value (values_of settings) setting value }
{
    let mut changed = settings;
    match setting {
        Setting::Ack => changed.ack = value,
        Setting::Syn => changed.syn = value,
        Setting::Fin => changed.fin = value,
        Setting::Rst => changed.rst = value,
        Setting::Udp => changed.udp = value,
        Setting::Short => changed.short = value,
        Setting::Max => changed.max = value,
        Setting::Keep => changed.keep = value == 1,
    }
    changed
}
