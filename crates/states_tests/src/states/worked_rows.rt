//! Each test is a worked row of the manual's subject, by its name: asks of the states and their replies.
use super::{
    ACK, FIN, OTHER_RULE, RULE, SYN, answer, assert_answers, datagram, find, install, limited,
    segment, settings, usual,
};
use dyn_states::States;
use fw_rule::{LimitMask, USUAL_MOST_STATES};
use state_asks::{Reply, Way};
use std::test::Fail;

#[test]
fn tcp_state_lives_and_dies(rt: HostRuntime) -> Result<(), Fail> {
    let mut states = States::open(rt.alloc(), USUAL_MOST_STATES, usual())?;
    let found = Reply::Found(Way::Forward, RULE);
    let answered = Reply::Found(Way::Reverse, RULE);
    assert_answers(
        &rt,
        &mut states,
        &[
            (find(segment(1025), SYN, 100), Reply::NotFound),
            (install(segment(1025), SYN, 100, RULE, 0), Reply::Created),
            (find(answer(1025), SYN | ACK, 101), answered),
            (find(segment(1025), FIN | ACK, 102), found),
            (find(answer(1025), FIN | ACK, 103), answered),
            (find(segment(1025), ACK, 104), Reply::NotFound),
        ],
    );
    assert_eq!(rt; states.clock(), 104);
    Ok(())
}

#[test]
fn limit_by_source_address(rt: HostRuntime) -> Result<(), Fail> {
    let mut states = States::open(rt.alloc(), USUAL_MOST_STATES, usual())?;
    let two = (LimitMask::SrcAddr, 2);
    assert_answers(
        &rt,
        &mut states,
        &[
            (limited(segment(1), 100, RULE, two), Reply::Created),
            (limited(segment(2), 101, RULE, two), Reply::Created),
            (limited(segment(2), 101, RULE, two), Reply::Exists),
            (limited(segment(3), 102, RULE, two), Reply::LimitReached(2)),
            (limited(segment(3), 102, OTHER_RULE, two), Reply::Created),
            (limited(segment(4), 122, RULE, two), Reply::Created),
        ],
    );
    Ok(())
}

#[test]
fn clock_never_goes_back(rt: HostRuntime) -> Result<(), Fail> {
    let mut states = States::open(rt.alloc(), USUAL_MOST_STATES, usual())?;
    let found = Reply::Found(Way::Forward, RULE);
    assert_answers(
        &rt,
        &mut states,
        &[
            (install(datagram(5), 0, 100, RULE, 0), Reply::Created),
            (find(datagram(5), 0, 109), found),
            (find(datagram(5), 0, 50), found),
            (find(datagram(5), 0, 118), found),
            (find(datagram(5), 0, 128), Reply::NotFound),
        ],
    );
    Ok(())
}

#[test]
fn state_table_full(rt: HostRuntime) -> Result<(), Fail> {
    let mut states = States::open(rt.alloc(), 16, settings(1, 1, 1, false))?;
    assert_answers(
        &rt,
        &mut states,
        &[
            (install(datagram(5), 0, 100, RULE, 0), Reply::Created),
            (install(datagram(7), 0, 101, RULE, 0), Reply::TableFull(1)),
            (install(datagram(7), 0, 110, RULE, 0), Reply::Created),
        ],
    );
    Ok(())
}
