use crate::shares::{last_packets, never_met, packets_of, put_percent, share};
use crate::{Piece, put};
use fw_base::OutOfMemory;
use report_values::CountedRule;

/// Puts a bar of so much of the most.
fn put_bar(pieces: &mut Vec<Piece<'_>>, part: u64, most: u64) -> Result<(), OutOfMemory> {
    put(
        pieces,
        &[
            Piece::Markup(
                b"<td class=\"bar\">\
                  <svg viewBox=\"0 0 1000 10\" preserveAspectRatio=\"none\" aria-hidden=\"true\">\
                  <rect class=\"fill\" width=\"",
            ),
            Piece::Figure(share(part, most, 1000)),
            Piece::Markup(b"\" height=\"10\"/></svg></td>"),
        ],
    )
}

/// Puts the row of a rule.
fn put_rule<'a>(
    pieces: &mut Vec<Piece<'a>>,
    rule: &CountedRule<'a>,
    most_packets: u64,
    most_bytes: u64,
) -> Result<(), OutOfMemory> {
    let open: &'static [u8] = if rule.packets == 0 {
        b"<tr class=\"never\"><td class=\"n\" data-label=\"rule\">"
    } else {
        b"<tr><td class=\"n\" data-label=\"rule\">"
    };
    put(
        pieces,
        &[
            Piece::Markup(open),
            Piece::Figure(u64::from(rule.number)),
            Piece::Markup(b"</td><td class=\"text\" data-label=\"text\"><span>"),
            Piece::Text(rule.text),
            Piece::Markup(b"</span></td><td class=\"n\" data-label=\"packets\">"),
            Piece::Figure(rule.packets),
            Piece::Markup(b"</td>"),
        ],
    )?;
    put_bar(pieces, rule.packets, most_packets)?;
    put(
        pieces,
        &[
            Piece::Markup(b"<td class=\"n\" data-label=\"bytes\">"),
            Piece::Figure(rule.bytes),
            Piece::Markup(b"</td>"),
        ],
    )?;
    put_bar(pieces, rule.bytes, most_bytes)?;
    put(pieces, &[Piece::Markup(b"</tr>\n")])
}

/// Puts how many rules nothing met, and the share of the last rule.
fn put_summary(pieces: &mut Vec<Piece<'_>>, rules: &[CountedRule<'_>]) -> Result<(), OutOfMemory> {
    put(
        pieces,
        &[
            Piece::Markup(b"<p>Nothing was counted by <span id=\"never\">"),
            Piece::Figure(never_met(rules) as u64),
            Piece::Markup(
                b"</span> of them. Of what was counted rule 65535, which ends each list and \
                  denies, took <span id=\"share\">",
            ),
        ],
    )?;
    put_percent(pieces, last_packets(rules), packets_of(rules))?;
    put(pieces, &[Piece::Markup(b"</span>.</p>\n")])
}

/// Puts the rules of the last edition with what they counted.
pub(crate) fn put_rules<'a>(
    pieces: &mut Vec<Piece<'a>>,
    rules: &[CountedRule<'a>],
) -> Result<(), OutOfMemory> {
    let mut most_packets: u64 = 0;
    let mut most_bytes: u64 = 0;
    for rule in rules {
        most_packets = most_packets.max(rule.packets);
        most_bytes = most_bytes.max(rule.bytes);
    }
    put(
        pieces,
        &[Piece::Markup(b"<section><h2>Rules of the last edition</h2>\n")],
    )?;
    put_summary(pieces, rules)?;
    put(
        pieces,
        &[Piece::Markup(
            b"<div class=\"wide\"><table id=\"counted\"><thead><tr><th class=\"n\">rule</th>\
              <th>text</th><th class=\"n\">packets</th><th class=\"bar\"></th>\
              <th class=\"n\">bytes</th><th class=\"bar\"></th></tr></thead><tbody>\n",
        )],
    )?;
    for rule in rules {
        put_rule(pieces, rule, most_packets, most_bytes)?;
    }
    put(
        pieces,
        &[Piece::Markup(b"</tbody></table></div></section>\n")],
    )
}
