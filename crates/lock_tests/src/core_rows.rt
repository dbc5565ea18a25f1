use rm_core::{Core, Event, Heard};
use std::process::Abort;
use std::test::Fail;

/// Each step has to be allowed where it comes, and to hear this.
fn make_steps(rt: &impl Abort, core: &mut Core, steps: &[(Event, Heard)]) {
    for (event, heard) in steps {
        assert!(rt; core.allows(*event), "{event:?} is allowed");
        assert_eq!(rt; core.step(*event), *heard, "{event:?}");
    }
}

const OPERATOR: u32 = 3;

const UNTIL_THE_DRAIN: [(Event, Heard); 12] = [
    (Event::Raise(1), Heard::Nothing),
    (Event::Check(1), Heard::Held),
    (Event::TakeBack(OPERATOR), Heard::Nothing),
    (Event::Revoke(1), Heard::Nothing),
    (Event::Revoke(2), Heard::Nothing),
    (Event::Drain(2), Heard::Drained),
    (Event::Drain(1), Heard::NotOut),
    (Event::Raise(2), Heard::Nothing),
    (Event::Check(2), Heard::Revoked(2)),
    (Event::Lower(1), Heard::Nothing),
    (Event::Lower(2), Heard::Nothing),
    (Event::Drain(1), Heard::Drained),
];

#[test]
fn drain_waits_for_the_reader(rt: HostRuntime) -> Result<(), Fail> {
    let mut core = Core::new(rt.alloc(), 2, 1)?;
    make_steps(&rt, &mut core, &UNTIL_THE_DRAIN);
    Ok(())
}

#[test]
fn refused_reader_regains_its_token(rt: HostRuntime) -> Result<(), Fail> {
    let mut core = Core::new(rt.alloc(), 2, 1)?;
    make_steps(&rt, &mut core, &UNTIL_THE_DRAIN);
    assert!(rt; !core.allows(Event::GiveBack(OPERATOR)));
    assert!(rt; !core.allows(Event::TakeBack(2)));
    make_steps(
        &rt,
        &mut core,
        &[
            (Event::Publish, Heard::Nothing),
            (Event::GiveBack(OPERATOR), Heard::Nothing),
            (Event::TakeBack(2), Heard::Nothing),
            (Event::ReadNumber, Heard::Number(2)),
            (Event::Regain(2), Heard::Nothing),
            (Event::GiveBack(2), Heard::Nothing),
            (Event::Raise(2), Heard::Nothing),
            (Event::Check(2), Heard::Held),
            (Event::Raise(1), Heard::Nothing),
            (Event::Check(1), Heard::Revoked(2)),
        ],
    );
    Ok(())
}

#[test]
fn numbers_that_name_nobody(rt: HostRuntime) -> Result<(), Fail> {
    let core = Core::new(rt.alloc(), 2, 1)?;
    for (event, allowed) in [
        (Event::Raise(0), false),
        (Event::Raise(1), true),
        (Event::Raise(2), true),
        (Event::Raise(OPERATOR), false),
        (Event::TakeBack(0), false),
        (Event::TakeBack(1), true),
        (Event::TakeBack(OPERATOR), true),
        (Event::TakeBack(4), false),
        (Event::GiveBack(0), false),
        (Event::ReadNumber, true),
        (Event::Publish, false),
    ] {
        assert_eq!(rt; core.allows(event), allowed, "{event:?}");
    }
    Ok(())
}
