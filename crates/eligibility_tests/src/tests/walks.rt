use eligibility::{Eligibility, Heaped, Listed, Op, walk};
use nbd_base::NoMemory;
use refusing::Refusing;
use std::alloc::Global;
use std::test::Fail;
use tag_clock::{Moment, Phase, Tags};

type Memory<'a> = &'a Refusing<Global>;

fn tags(r: Option<i128>, l: i128, p: i128) -> Tags {
    Tags { r, l, p }
}

// Of two exports the first waits for its limit, and a shift lets it go before the second.
fn two_by_weight() -> Option<[Op; 7]> {
    let late = Moment::new(10)?;
    Some([
        Op::Enter(0, tags(None, 10, 5)),
        Op::Enter(1, tags(None, 0, 9)),
        Op::Choose(Moment::zero()),
        Op::Shift(4),
        Op::Choose(late),
        Op::Leave(0),
        Op::Choose(late),
    ])
}

const BY_WEIGHT: [Option<(u32, Phase)>; 3] = [
    Some((1, Phase::Weight)),
    Some((0, Phase::Weight)),
    Some((1, Phase::Weight)),
];

// A reservation that is due goes before any weight, and an export's next request has tags of its own.
fn reserved_first() -> [Op; 6] {
    let first = Moment::zero();
    [
        Op::Enter(0, tags(None, 0, 0)),
        Op::Enter(1, tags(Some(0), 0, 0)),
        Op::Choose(first),
        Op::Rekey(1, tags(Some(1), 0, 1)),
        Op::Choose(first),
        Op::Choose(first),
    ]
}

const RESERVED: [Option<(u32, Phase)>; 3] = [
    Some((1, Phase::Reservation)),
    Some((0, Phase::Weight)),
    Some((0, Phase::Weight)),
];

#[test]
fn both_forms_choose_alike(rt: HostRuntime) -> Result<(), Fail> {
    let ops = two_by_weight().ok_or("in range")?;
    let listed = walk::<Listed<Global>>(rt.alloc(), 2, &ops)?;
    assert_eq!(rt; listed.as_slice(), BY_WEIGHT.as_slice());
    let heaped = walk::<Heaped<Global>>(rt.alloc(), 2, &ops)?;
    assert_eq!(rt; heaped.as_slice(), BY_WEIGHT.as_slice());
    let ops = reserved_first();
    let listed = walk::<Listed<Global>>(rt.alloc(), 2, &ops)?;
    assert_eq!(rt; listed.as_slice(), RESERVED.as_slice());
    let heaped = walk::<Heaped<Global>>(rt.alloc(), 2, &ops)?;
    assert_eq!(rt; heaped.as_slice(), RESERVED.as_slice());
    Ok(())
}

fn is_made<'a, E: Eligibility<Alloc = Memory<'a>>>(memory: Memory<'a>) -> bool {
    E::new(memory, 2).is_ok()
}

// Each growth of `new` is refused in turn.
#[test]
fn new_wants_memory(rt: HostRuntime) {
    let memory = Refusing::new(rt.alloc(), 1);
    assert!(rt; !is_made::<Listed<Memory>>(&memory));
    assert!(rt; is_made::<Listed<Memory>>(&memory));
    let mut met = false;
    for nth in 1..100u64 {
        let memory = Refusing::new(rt.alloc(), nth);
        if is_made::<Heaped<Memory>>(&memory) {
            assert!(rt; met);
            return;
        }
        met = true;
        assert!(rt; is_made::<Heaped<Memory>>(&memory));
    }
    assert!(rt; false, "no end");
}

fn is_walked<'a, E: Eligibility<Alloc = Memory<'a>>>(memory: Memory<'a>, ops: &[Op]) -> bool {
    match walk::<E>(memory, 2, ops) {
        Ok(answers) => answers.as_slice() == BY_WEIGHT.as_slice(),
        Err(NoMemory) => false,
    }
}

// Each growth of a walk is refused in turn: it has no answers then, and all of them where none was refused.
#[test]
fn walks_want_memory(rt: HostRuntime) -> Result<(), Fail> {
    let ops = two_by_weight().ok_or("in range")?;
    let mut met = false;
    for nth in 1..100u64 {
        let memory = Refusing::new(rt.alloc(), nth);
        let listed = is_walked::<Listed<Memory>>(&memory, &ops);
        let is_listed_whole = memory.is_armed();
        assert_eq!(rt; listed, is_listed_whole);
        memory.arm(nth);
        let heaped = is_walked::<Heaped<Memory>>(&memory, &ops);
        assert_eq!(rt; heaped, memory.is_armed());
        if heaped && listed {
            assert!(rt; met);
            return Ok(());
        }
        met = true;
    }
    assert!(rt; false, "no end");
    Ok(())
}

// An operation whose condition isn't met changes nothing; a choice at an earlier moment has no answer.
#[test]
fn what_may_not_be_is_passed_over(rt: HostRuntime) -> Result<(), Fail> {
    let late = Moment::new(10).ok_or("in range")?;
    let ops = [
        Op::Leave(0),
        Op::Rekey(1, tags(None, 0, 0)),
        Op::Choose(Moment::zero()),
        Op::Enter(2, tags(None, 0, 0)),
        Op::Enter(1, tags(None, 0, 1 << 126)),
        Op::Enter(1, tags(None, 5, 5)),
        Op::Enter(1, tags(None, 0, 0)),
        Op::Shift(1 << 126),
        Op::Choose(Moment::zero()),
        Op::Choose(late),
        Op::Choose(Moment::zero()),
    ];
    let answers = [None, None, Some((1, Phase::Weight)), None];
    let listed = walk::<Listed<Global>>(rt.alloc(), 2, &ops)?;
    assert_eq!(rt; listed.as_slice(), answers.as_slice());
    let heaped = walk::<Heaped<Global>>(rt.alloc(), 2, &ops)?;
    assert_eq!(rt; heaped.as_slice(), answers.as_slice());
    Ok(())
}
