// Rows of verdicts and of paths.
use cause_book::{CauseBook, check_path};
use sfu_base::{Refusal, Step, Verdict};
use std::test::Fail;

fn hole(below: Option<u64>, above: u64) -> Result<Verdict, Refusal> {
    Ok(Verdict::Hole { below, above })
}

#[test]
fn a_withheld_frame_has_a_path_to_a_hole(rt: HostRuntime) -> Result<(), Fail> {
    let mut book = CauseBook::new(rt.alloc())?;
    book.write(1, Verdict::Passed);
    book.write(3, Verdict::Link { at: 3, number: 2 });
    book.write(4, Verdict::Reference { number: 3 });
    let mut steps = Vec::new(rt.alloc());
    for number in [4, 3, 2] {
        let verdict = book.verdict(number).or(Err("not kept"))?;
        steps.push(Step { number, verdict })?;
    }
    assert!(rt; check_path(&steps));
    assert_eq!(rt; book.verdict(2), hole(Some(1), 3));
    assert_eq!(rt; book.verdict(5), Err(Refusal::Ahead { newest: Some(4) }));
    Ok(())
}

#[test]
fn verdicts_are_kept_for_4096_numbers(rt: HostRuntime) -> Result<(), Fail> {
    let mut book = CauseBook::new(rt.alloc())?;
    for number in [0, 7, u64::MAX] {
        assert_eq!(rt; book.verdict(number), Err(Refusal::Ahead { newest: None }));
    }
    let last = Verdict::Unopened { since: 4106 };
    book.write(10, Verdict::Passed);
    book.write(11, Verdict::NotOfTarget { target: Some(1) });
    book.write(4106, last);
    let rows = [
        (9, Err(Refusal::TooOld { oldest: 11 })),
        (10, Err(Refusal::TooOld { oldest: 11 })),
        (11, Ok(Verdict::NotOfTarget { target: Some(1) })),
        (12, hole(Some(11), 4106)),
        (4105, hole(Some(11), 4106)),
        (4106, Ok(last)),
        (4107, Err(Refusal::Ahead { newest: Some(4106) })),
    ];
    for (number, wanted) in rows {
        assert_eq!(rt; book.verdict(number), wanted, "of {number}");
    }
    // number 11 is now 4,096 below the newest
    book.write(4107, Verdict::Passed);
    assert_eq!(rt; book.verdict(11), Err(Refusal::TooOld { oldest: 12 }));
    assert_eq!(rt; book.verdict(12), hole(None, 4106));
    // nothing is recorded for a number that isn't above the newest
    book.write(4107, last);
    book.write(4000, last);
    assert_eq!(rt; book.verdict(4107), Ok(Verdict::Passed));
    assert_eq!(rt; book.verdict(4000), hole(None, 4106));
    Ok(())
}

#[test]
fn holes_lie_between_the_frames_beside_them(rt: HostRuntime) -> Result<(), Fail> {
    let mut book = CauseBook::new(rt.alloc())?;
    book.write(3, Verdict::Passed);
    book.write(
        6,
        Verdict::Full {
            queued: 511,
            needed: 2,
        },
    );
    book.write(
        4098,
        Verdict::Behind {
            fdiff: 2,
            start: 4097,
        },
    );
    let rows = [
        (2, Err(Refusal::TooOld { oldest: 3 })),
        (3, Ok(Verdict::Passed)),
        (4, hole(Some(3), 6)),
        (5, hole(Some(3), 6)),
        (7, hole(Some(6), 4098)),
        (4097, hole(Some(6), 4098)),
    ];
    for (number, wanted) in rows {
        assert_eq!(rt; book.verdict(number), wanted, "of {number}");
    }
    book.write(10_000, Verdict::Passed);
    assert_eq!(rt; book.verdict(5905), hole(None, 10_000));
    assert_eq!(rt; book.verdict(9999), hole(None, 10_000));
    book.write(u64::MAX, Verdict::Passed);
    assert_eq!(rt; book.verdict(u64::MAX), Ok(Verdict::Passed));
    assert_eq!(rt; book.verdict(u64::MAX - 1), hole(None, u64::MAX));
    Ok(())
}

#[test]
fn numbers_below_the_first_frame_are_a_hole_without_a_lower_frame(
    rt: HostRuntime,
) -> Result<(), Fail> {
    let mut book = CauseBook::new(rt.alloc())?;
    book.write(2, Verdict::Unopened { since: 2 });
    assert_eq!(rt; book.verdict(0), hole(None, 2));
    assert_eq!(rt; book.verdict(1), hole(None, 2));
    assert_eq!(rt; book.verdict(2), Ok(Verdict::Unopened { since: 2 }));
    Ok(())
}

fn step(number: u64, verdict: Verdict) -> Step {
    Step { number, verdict }
}

#[test]
fn a_path_names_its_next_number_falls_and_ends_at_a_root(rt: HostRuntime) {
    let to_three = Verdict::Reference { number: 3 };
    let to_two = Verdict::Link { at: 3, number: 2 };
    let hole = Verdict::Hole {
        below: None,
        above: 3,
    };
    let roots = [
        Verdict::Full {
            queued: 512,
            needed: 1,
        },
        hole,
        Verdict::NotOfTarget { target: None },
        Verdict::Unopened { since: 1 },
        Verdict::Behind { fdiff: 5, start: 9 },
    ];
    for root in roots {
        assert!(rt; check_path(&[step(2, root)]));
        assert!(rt; check_path(&[step(5, to_three), step(3, to_two), step(2, root)]));
        // a root before the last step
        assert!(rt; !check_path(&[step(3, root), step(2, root)]));
        // a step with another number than the one that the previous step names
        assert!(rt; !check_path(&[step(5, to_three), step(2, root)]));
        // numbers that don't decrease
        assert!(rt; !check_path(&[step(3, to_three), step(3, root)]));
        assert!(rt; !check_path(&[step(1, to_two), step(2, root)]));
    }
    assert!(rt; !check_path(&[]));
    for last in [Verdict::Passed, to_three, to_two] {
        assert!(rt; !check_path(&[step(7, last)]));
        assert!(rt; !check_path(&[step(5, to_three), step(3, last)]));
    }
    assert!(rt; !check_path(&[step(5, Verdict::Passed), step(3, hole)]));
}
