use counter_book::{Count, Tally, total};
use std::test::Fail;

#[test]
fn counts_of_two_lanes_add_up(rt: HostRuntime) -> Result<(), Fail> {
    let mut first = Tally::new(rt.alloc());
    let mut second = Tally::new(rt.alloc());
    first.fit(3)?;
    second.fit(2)?;
    first.hit(1, 40);
    first.hit(1, 28);
    first.hit(2, 1);
    second.hit(1, u32::MAX);
    first.fit(9)?;
    let tallies = [first, second];
    let counted = [
        (0, 0, 0),
        (1, 3, 4_294_967_363),
        (2, 1, 1),
        (3, 0, 0),
        (99, 0, 0),
    ];
    for (id, packets, bytes) in counted {
        assert_eq!(rt;
            total(&tallies, id),
            Count { packets, bytes },
            "counter {id}"
        );
    }
    Ok(())
}
