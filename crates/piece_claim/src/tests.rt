use super::*;
use std::test::*;

// A board of two groups with two pieces each, one sum per group and two shares; a piece of number n
// has the amount 5 + n. Seat 1 draws pieces 1 and 2, seat 0 the others.
#[test]
fn four_pieces_by_two_seats(rt: HostRuntime) -> Result<(), Fail> {
    let mut board = Board::new(rt.alloc(), 2, 2, 1, 2)?;
    for (name, event, want) in [
        ("one share for each", Event::Split { seat: 0 }, Ok(())),
        (
            "no share to split",
            Event::Split { seat: 1 },
            Err(StepFault::NotAllowed),
        ),
        ("piece 0", Event::Draw { seat: 0 }, Ok(())),
        ("piece 1", Event::Draw { seat: 1 }, Ok(())),
        (
            "a piece in hand",
            Event::Draw { seat: 0 },
            Err(StepFault::NotAllowed),
        ),
        (
            "not done",
            Event::Join { seat: 0, other: 1 },
            Err(StepFault::NotAllowed),
        ),
        (
            "no such seat",
            Event::Draw { seat: 2 },
            Err(StepFault::NotAllowed),
        ),
        ("1 posted", Event::Post { seat: 1, amount: 6 }, Ok(())),
        (
            "no piece in hand",
            Event::Post { seat: 1, amount: 6 },
            Err(StepFault::NotAllowed),
        ),
        ("piece 2", Event::Draw { seat: 1 }, Ok(())),
        (
            "past the bound",
            Event::Post {
                seat: 1,
                amount: 1 << 63,
            },
            Err(StepFault::NotAllowed),
        ),
        ("0 posted", Event::Post { seat: 0, amount: 5 }, Ok(())),
        ("piece 3", Event::Draw { seat: 0 }, Ok(())),
        ("3 posted", Event::Post { seat: 0, amount: 8 }, Ok(())),
        ("2 posted", Event::Post { seat: 1, amount: 7 }, Ok(())),
    ] {
        assert_eq!(rt; board.step(&event), want, "{name}");
    }
    assert_eq!(rt;
        board.run_events(&[
            Event::Draw { seat: 0 },
            Event::Draw { seat: 1 },
            Event::Join { seat: 0, other: 1 },
        ]),
        Ok(())
    );
    assert_eq!(rt; board.drawn(), 6);
    assert_eq!(rt; [board.word(0), board.word(1)], [11, 15]);
    assert_eq!(rt;
        board.run_events(&[Event::Draw { seat: 1 }]),
        Err(StepFault::NotAllowed)
    );
    assert_eq!(rt; board.drawn(), 6);
    Ok(())
}
