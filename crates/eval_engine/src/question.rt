ghost use Rattle.std.specs.Prelude.{◌≡◌, map};
ghost use Rattle.std.specs.Arc.{arc_value};
ghost use Rattle.rule_chain.specs.Chain.{IsConfiguration};
ghost use Rattle.eval_engine.specs.Encounter.{any_flow_of};
ghost use Rattle.eval_engine.specs.Question.{question_under, rules_of};

use fw_base::Port;
use fw_rule::Rule;
use generation_store::Edition;
use ip6_headers::AnyIp;
use packet_headers::{Flow, flow};
use std::marker::Model;
use std::sync::Arc;

/// What is evaluated, handed round as one: a packet that was captured there at that second, under the rules of an
/// edition.
#[derive(Drop)]
pub struct Question<'a, 's, 'p> {
    pub(crate) edition: &'a Edition,
    pub(crate) packet: &'s AnyIp<'p>,
    pub(crate) port: &'s Port,
    pub(crate) second: u32,
}

impl<'a, 's, 'p> Model for Question<'a, 's, 'p> {
    ghost use Rattle.eval_engine.specs.Question.{Question, question_under};

    ghost Value = { Question };

    ghost view = { λ q. question_under q.edition.now q.packet.now q.port.now q.second };
}

impl<'a, 's, 'p> Question<'a, 's, 'p> {
    /// The packet, there and at that second, under those rules.
    pub fn new(
        edition: &'a Edition,
        packet: &'s AnyIp<'p>,
        port: &'s Port,
        second: u32,
    ) -> Question<'a, 's, 'p>
        ensures { result ≡ question_under edition.now packet.now port.now second }
    {
        Question {
            edition,
            packet,
            port,
            second,
        }
    }

    /// The edition whose rules are evaluated.
    pub fn edition(&self) -> &'a Edition
        ensures { result.now ≡ self.now.edition }
    {
        self.edition
    }

    /// The packet.
    pub fn packet(&self) -> &'s AnyIp<'p>
        ensures { result.now ≡ self.now.packet }
    {
        self.packet
    }

    /// Where it was captured.
    pub fn port(&self) -> &'s Port
        ensures { result.now ≡ self.now.port }
    {
        self.port
    }

    /// The rules, in order.
    pub(crate) fn rules(&self) -> &'a [Arc<Rule>]
        ensures value { map arc_value result.now ≡ rules_of self.now }
        ensures lawful { IsConfiguration self.now.edition.config }
    {
        self.edition.config().rules()
    }

    /// The packet's flow; an IPv6 packet has none.
    pub(crate) fn flow(&self) -> Option<Flow>
        ensures { result ≡ any_flow_of self.now.packet }
    {
        match self.packet {
            AnyIp::Four(packet) => flow(packet),
            AnyIp::Six(_) => None,
        }
    }
}
