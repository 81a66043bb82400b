use reply_cache::{Judgement, Seat, Seats, a_seat_has_the_greatest_number};
use tree_model::{Errno, Reply};

#[test]
fn judges_by_the_last_answer(rt: HostRuntime) {
    let mut seats = Seats::new();
    assert!(rt; matches!(seats.judge(63, 7), Judgement::New));
    seats.put(63, 7, &Reply::Err(Errno::EEXIST));
    seats.put(63, 3, &Reply::Ok);
    let kept = Seat {
        number: 7,
        refused: Some(Errno::EEXIST),
    };
    assert_eq!(rt; seats.seat(63), Some(kept));
    assert!(rt; matches!(kept.answer(), Reply::Err(Errno::EEXIST)));
    assert!(rt;
        matches!(
            seats.judge(63, 7),
            Judgement::Repeat(Reply::Err(Errno::EEXIST))
        )
    );
    assert!(rt; matches!(seats.judge(63, 6), Judgement::Stale(7)));
    assert!(rt; matches!(seats.judge(63, 8), Judgement::New));
    assert!(rt; matches!(seats.judge(62, 7), Judgement::New));
    a_seat_has_the_greatest_number();
}

#[test]
fn keeps_the_reply_put_last(rt: HostRuntime) {
    let mut seats = Seats::new();
    seats.put(0, 65536, &Reply::Err(Errno::ENOENT));
    seats.put(0, 65536, &Reply::Ok);
    assert!(rt; matches!(seats.judge(0, 65536), Judgement::Repeat(Reply::Ok)));
    assert_eq!(rt; seats.items().len(), 64);
    assert_eq!(rt; seats.items()[1], None);
}
