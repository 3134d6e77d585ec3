ghost use Rattle.std.specs.Prelude.{◌≡◌};

use nbd_wire::Reply;
use refusing::Refusing;
use reply_box::{AdmitFault, AttachFault, NotOpen, ReplyBox, SessionState, Taken};
use std::alloc::Allocator;
use std::test::Fail;

fn attach<A: Allocator + Copy>(sessions: &mut ReplyBox<A>) -> Result<u64, AttachFault> {
    if sessions.next_session() < 1000 {
        sessions.attach()
    } else {
        Err(AttachFault::Full)
    }
}

fn answer<A: Allocator + Copy>(sessions: &mut ReplyBox<A>, session: u64, cookie: u64) -> bool
    ensures { sessions.new.window ≡ sessions.old.window }
{
    let is_owed = sessions.owed(session) > 0;
    if is_owed {
        sessions.put(session, Reply::bare(0, cookie));
    }
    is_owed
}

// The cookie of the reply that is taken; 100 for Empty, 101 for End, 102 where it isn't open.
fn cookie<A: Allocator + Copy>(sessions: &mut ReplyBox<A>, session: u64) -> u64 {
    match sessions.take(session) {
        Ok(Taken::Reply(first)) => first.cookie(),
        Ok(Taken::Empty) => 100,
        Ok(Taken::End) => 101,
        Err(NotOpen) => 102,
    }
}

#[test]
fn the_outbox_counts_for_the_window(rt: HostRuntime) {
    let mut sessions = ReplyBox::new(rt.alloc(), 2);
    assert_eq!(rt; attach(&mut sessions), Ok(0));
    assert_eq!(rt; sessions.admit(0), Ok(()));
    assert_eq!(rt; sessions.admit(0), Ok(()));
    assert_eq!(rt; sessions.admit(0), Err(AdmitFault::Hold));
    assert!(rt; sessions.is_quiet(0) && !sessions.is_quiet(1));
    assert!(rt; answer(&mut sessions, 0, 7));
    assert!(rt; !sessions.is_quiet(0));
    assert_eq!(rt; sessions.admit(0), Err(AdmitFault::Hold));
    assert_eq!(rt; cookie(&mut sessions, 0), 7);
    assert!(rt; sessions.is_quiet(0));
    assert_eq!(rt; sessions.admit(0), Ok(()));
    assert_eq!(rt; sessions.leave(0), Ok(()));
    assert_eq!(rt; sessions.admit(0), Err(AdmitFault::NotOpen));
    assert!(rt; answer(&mut sessions, 0, 8) && answer(&mut sessions, 0, 9));
    assert_eq!(rt; cookie(&mut sessions, 0), 8);
    assert_eq!(rt; cookie(&mut sessions, 0), 9);
    assert_eq!(rt; cookie(&mut sessions, 0), 101);
    assert_eq!(rt; sessions.leave(0), Err(NotOpen));
    assert_eq!(rt; sessions.gone(0), Ok(()));
    assert_eq!(rt; cookie(&mut sessions, 0), 102);
    assert!(rt; sessions.state(0) == Some(SessionState::Gone) && sessions.state(1).is_none());
    sessions.laws();
}

// Two steps for an open session, one for each reply that waits, and one for a session that has left.
#[test]
fn what_is_to_come(rt: HostRuntime) -> Result<(), Fail> {
    let mut sessions = ReplyBox::new(rt.alloc(), 2);
    assert_eq!(rt; sessions.steps_to_come(), 0);
    let Ok(session) = sessions.attach() else {
        return Err(Fail::from("attached"));
    };
    assert_eq!(rt; sessions.steps_to_come(), 2);
    let Ok(()) = sessions.admit(session) else {
        return Err(Fail::from("admitted"));
    };
    assert_eq!(rt; sessions.steps_to_come(), 2);
    assert!(rt; answer(&mut sessions, session, 7));
    assert_eq!(rt; sessions.steps_to_come(), 3);
    let Ok(()) = sessions.leave(session) else {
        return Err(Fail::from("left"));
    };
    assert_eq!(rt; sessions.steps_to_come(), 2);
    let Ok(()) = sessions.gone(session) else {
        return Err(Fail::from("gone"));
    };
    assert_eq!(rt; sessions.steps_to_come(), 0);
    Ok(())
}

#[test]
fn numbers_are_not_used_again(rt: HostRuntime) {
    let mut sessions = ReplyBox::new(rt.alloc(), 1);
    for number in 0..64u64 {
        assert_eq!(rt; attach(&mut sessions), Ok(number));
    }
    assert!(rt; sessions.is_full());
    assert_eq!(rt; attach(&mut sessions), Err(AttachFault::Full));
    assert_eq!(rt; sessions.gone(0), Ok(()));
    assert_eq!(rt; attach(&mut sessions), Ok(64));
    assert_eq!(rt; cookie(&mut sessions, 64), 100);
}

// Each of 40 attaches is made again where it found no memory, and none is lost or counted twice.
fn is_whole<A: Allocator + Copy>(alloc: A) -> bool {
    let mut sessions = ReplyBox::new(alloc, 2);
    let mut whole = true;
    for number in 0..40u64 {
        if attach(&mut sessions) == Err(AttachFault::NoMemory) {
            whole = whole
                && sessions.state(number).is_none()
                && attach(&mut sessions) == Ok(number);
        }
        whole = whole && sessions.next_session() == number + 1 && sessions.is_open(number);
    }
    whole
}

#[test]
fn each_growth_is_refused_in_turn(rt: HostRuntime) {
    let mut met = false;
    for nth in 1..1000u64 {
        let heap = Refusing::new(rt.alloc(), nth);
        let whole = is_whole(&heap);
        assert!(rt; whole);
        if heap.is_armed() {
            assert!(rt; met);
            return;
        }
        met = true;
    }
    assert!(rt; false, "no end");
}
