ghost use Rattle.std.specs.Prelude.{◌≡◌, ℕ, List, Some, IfSome, IsSome, true};
ghost use Rattle.std.specs.Option.{option_map};
ghost use Rattle.report_texts.specs.DocketText.{record_line};
ghost use Rattle.report_texts.specs.JournalText.{ask_line, lane_line, publish_line};
ghost use Rattle.report_reading.specs.RecordLines.{IsRecord, printed};
ghost use Rattle.report_reading.specs.LaneLines.{IsLane, IsPublication};
ghost use Rattle.report_reading.specs.AskLines.{IsAsk, printed_ask};
ghost use Rattle.report_reading.specs.LightLines.{is_light};
ghost use Rattle.report_reading.specs.Readings as spec;

use crate::ask_lines::ask_in;
use crate::lane_lines::{lane_in, publication_in};
use crate::light_lines::is_light;
use crate::record_lines::record_in;
use crate::{AskLine, LaneLine, RecordLine};
use eval_engine::DocketEntry;
use state_asks::{Op, Reply};

/// What a line of a report tells.
#[derive(Clone, Copy)]
pub enum Reading<'a> {
    Record(RecordLine),
    /// The publication of the edition of this number.
    Published(u64),
    Ask(AskLine<'a>),
    Lane(LaneLine),
    /// A line of which only the whole text counts.
    Other,
}

#[tactic(auto, unfolding(crate::specs::Readings::reading_of))]
fn reading_of(line: &[u8]) -> Option<Reading<'_>>
    ensures { option_map spec.line_value result ≡ spec.reading_of line.now }
{
    if let Some(told) = record_in(line) {
        Some(Reading::Record(told))
    } else if let Some(number) = publication_in(line) {
        Some(Reading::Published(number))
    } else if let Some(told) = ask_in(line) {
        Some(Reading::Ask(told))
    } else if let Some(told) = lane_in(line) {
        Some(Reading::Lane(told))
    } else if is_light(line) {
        Some(Reading::Other)
    } else {
        None
    }
}

/// What a line of a report tells; `None` where it has the form of no line.
pub fn read_line(line: &[u8]) -> Option<Reading<'_>>
    ensures value { option_map spec.line_value result ≡ spec.reading_of line.now }
    ensures found { IfSome result (λ told. spec.IsLineOf line.now (spec.line_value told)) }
    ensures records { (capture at : ℕ) (entry : DocketEntry) → IsRecord capture at entry
        → line.now ≡ record_line capture at entry → option_map spec.line_value result
        ≡ Some (spec.OfRecord (record { capture = capture; at = at; entry = printed entry })) }
    ensures publications { (number : ℕ) → IsPublication number → line.now ≡ publish_line number
        → option_map spec.line_value result ≡ Some (spec.OfPublication number) }
    ensures asks { (names : List (List ℕ)) (lane at : ℕ) (op : Op) (reply : Reply)
        → IsAsk names lane at op reply → line.now ≡ ask_line names lane at op reply
        → option_map spec.line_value result
        ≡ Some (spec.OfAsk (printed_ask names lane at op reply)) }
    ensures lanes { (lane refused tracker : ℕ) → IsLane lane refused tracker
        → line.now ≡ lane_line lane refused tracker → option_map spec.line_value result
        ≡ Some (spec.OfLane (record { lane = lane; refused = refused; tracker = tracker })) }
    ensures others { is_light line.now ≡ true → IsSome result }
{
    reading_of(line)
}
