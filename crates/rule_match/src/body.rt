ghost use Rattle.std.specs.Prelude.{◌≡◌};
ghost use Rattle.rule_match.specs.Holds as spec;

use crate::addresses::{holds_destination, holds_source};
use crate::options::holds_options;
use crate::ports::{holds_destination_ports, holds_source_ports};
use fw_base::{Addr, Port};
use fw_rule::{Body, Family};
use ip6_headers::AnyIp;
use lookup_tables::Tables;

fn holds_family(asked: Family, packet: &AnyIp<'_>) -> bool
    ensures { result ≡ spec.holds_family asked packet.now }
{
    match (asked, packet) {
        (Family::AnyIp, _) => true,
        (Family::Four, AnyIp::Four(_)) | (Family::Six, AnyIp::Six(_)) => true,
        (Family::Four, AnyIp::Six(_)) | (Family::Six, AnyIp::Four(_)) => false,
    }
}

fn holds_protocol(asked: u8, protocol: u8) -> bool
    ensures { result ≡ spec.holds_protocol asked protocol }
{
    asked == 0 || asked == protocol
}

/// Whether the body holds of a packet of a capture that was taken there, on a host of those addresses:
/// version, protocol, source, destination and every option do. `keep-state` and `limit` are no test. It
/// takes no memory.
#[tactic(auto, unfolding(crate::specs::Holds::holds))]
pub fn matches(
    body: &Body,
    tables: &Tables,
    locals: &[Addr],
    packet: &AnyIp<'_>,
    port: &Port,
) -> bool
    ensures { result ≡ spec.holds body.now tables.now locals.now packet.now port.now }
{
    holds_family(body.family, packet)
        && (holds_protocol(body.protocol, packet.protocol())
            && (holds_source(tables, locals, packet, &body.source)
                && (holds_source_ports(packet, &body.source_ports)
                    && (holds_destination(tables, locals, packet, &body.destination)
                        && (holds_destination_ports(packet, &body.destination_ports)
                            && holds_options(tables, packet, port, body.options.as_slice()))))))
}
