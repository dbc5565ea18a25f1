use fw_command::{Line, Step};
use fw_rule::Command;
use serial_schedule::{Agenda, Moment, first_capture};

fn at(second: u32, nanos: u64) -> Option<Moment> {
    Some(Moment { second, nanos })
}

#[test]
fn least_comes_first(rt: HostRuntime) {
    // the earlier capture of a tie
    assert_eq!(rt; first_capture(&[at(7, 5), at(7, 5)]), Some(0));
    // the second counts before the fraction
    assert_eq!(rt; first_capture(&[at(8, 0), at(7, 999_999_999)]), Some(1));
    // a microsecond is 1,000 nanoseconds
    assert_eq!(rt;
        first_capture(&[at(7, 1_001), at(7, 1_000), at(7, 2_000)]),
        Some(1)
    );
    // a capture without a record is passed over
    assert_eq!(rt; first_capture(&[None, at(9, 0), None, at(9, 0)]), Some(1));
    assert_eq!(rt; first_capture(&[None, None]), None);
    assert_eq!(rt; first_capture(&[]), None);
}

fn line(number: u32) -> Step {
    Step::Run(Line {
        line: number,
        command: Command::Flush,
    })
}

fn number_of(line: Option<&Line>) -> u32 {
    match line {
        Some(line) => line.line,
        None => 0,
    }
}

#[test]
fn lines_wait_for_records(rt: HostRuntime) {
    let steps = [
        line(1),
        Step::After(2),
        line(2),
        Step::After(1),
        line(3),
        Step::After(9),
        line(4),
    ];
    let mut agenda = Agenda::new(&steps);
    assert_eq!(rt; number_of(agenda.next_due(0)), 1);
    assert_eq!(rt; number_of(agenda.next_due(0)), 0);
    assert_eq!(rt; number_of(agenda.next_due(1)), 0);
    assert_eq!(rt; number_of(agenda.next_due(2)), 2);
    assert_eq!(rt; number_of(agenda.next_due(2)), 3);
    assert_eq!(rt; number_of(agenda.next_due(8)), 0);
    assert_eq!(rt; number_of(agenda.next_left()), 4);
    assert_eq!(rt; number_of(agenda.next_left()), 0);
}
