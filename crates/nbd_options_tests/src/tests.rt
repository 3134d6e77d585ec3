use nbd_base::NoMemory;
use nbd_options::{
    Always, Attach, Attached, ExportTable, Haggle, HaggleEnd, HeadFault, greeting, name_reply,
    no_zeroes, said,
};
use refusing::Refusing;
use std::alloc::{Allocator, Global};

// Options by their numbers.
const EXPORT_NAME: u32 = 1;

const ABORT: u32 = 2;

const LIST: u32 = 3;

const INFO: u32 = 6;

const GO: u32 = 7;
// An option that isn't served.
const STARTTLS: u32 = 5;

// Whether export a of 4,096 bytes is added. A push that found no memory is made again.
fn adds_a<A: Allocator + Copy>(table: &mut ExportTable<A>) -> bool {
    if table.len() >= 64 {
        return false;
    }
    table.push(b"a", None, 4096, 0x056d).is_ok() || table.push(b"a", None, 4096, 0x056d).is_ok()
}

// Whether export bb of 8,192 that is read-only and has a description is.
fn adds_bb<A: Allocator + Copy>(table: &mut ExportTable<A>) -> bool {
    if table.len() >= 64 {
        return false;
    }
    let description: Option<&[u8]> = Some(b"d1");
    table.push(b"bb", description, 8192, 0x050f).is_ok()
        || table.push(b"bb", description, 8192, 0x050f).is_ok()
}

// Both of them.
fn exports<A: Allocator + Copy>(alloc: A) -> Result<ExportTable<A>, NoMemory> {
    let mut table = ExportTable::new(alloc);
    if adds_a(&mut table) && adds_bb(&mut table) {
        Ok(table)
    } else {
        Err(NoMemory)
    }
}

// What is said to one option.
fn once<A: Allocator + Copy>(
    alloc: A,
    table: &ExportTable<A>,
    number: u32,
    content: &[u8],
    attached: Attached,
) -> Result<(Vec<u8, A>, Option<HaggleEnd>), NoMemory> {
    let mut haggle = Haggle::new(table);
    let next = haggle.next(number, content);
    match haggle.option(alloc, number, content) {
        Ok((replies, _)) => said(alloc, table, true, replies.as_slice(), next, attached),
        Err(NoMemory) => Err(NoMemory),
    }
}

// The same, and again where it found no memory.
fn answer<A: Allocator + Copy>(
    alloc: A,
    table: &ExportTable<A>,
    number: u32,
    content: &[u8],
    attached: Attached,
) -> Result<(Vec<u8, A>, Option<HaggleEnd>), NoMemory> {
    match once(alloc, table, number, content, attached) {
        Ok(answer) => Ok(answer),
        Err(NoMemory) => once(alloc, table, number, content, attached),
    }
}

// What is said to a LIST of both exports.
const LISTING: &[u8] = b"\0\x03\xe8\x89\x04\x55\x65\xa9\0\0\0\x03\0\0\0\x02\0\0\0\x05\0\0\0\x01a\
        \0\x03\xe8\x89\x04\x55\x65\xa9\0\0\0\x03\0\0\0\x02\0\0\0\x06\0\0\0\x02bb\
        \0\x03\xe8\x89\x04\x55\x65\xa9\0\0\0\x03\0\0\0\x01\0\0\0\0";

// An option, its data, whether a session is given, what is said to it, and how haggling ends.
type Case<'a> = (u32, &'a [u8], Attached, &'a [u8], Option<HaggleEnd>);

// Whether an option is answered as was worked out.
fn is_answered(alloc: Global, table: &ExportTable<Global>, case: &Case<'_>) -> bool {
    let (number, content, attached, wanted, wanted_end) = *case;
    match answer(alloc, table, number, content, attached) {
        Ok((text, end)) => text.as_slice() == wanted && end == wanted_end,
        Err(NoMemory) => false,
    }
}

// The first option that is answered otherwise, counted from 1; 0 where all are answered so.
fn first_wrong_of(alloc: Global, table: &ExportTable<Global>, cases: &[Case<'_>]) -> usize {
    for (place, case) in cases.iter().enumerate() {
        if !is_answered(alloc, table, case) {
            return place.saturating_add(1);
        }
    }
    0
}

// The same, of the two exports.
fn first_wrong(alloc: Global, cases: &[Case<'_>]) -> usize {
    match exports(alloc) {
        Ok(table) => first_wrong_of(alloc, &table, cases),
        Err(NoMemory) => usize::MAX,
    }
}

#[test]
fn lists_exports_and_aborts(rt: HostRuntime) {
    let invalid = b"\0\x03\xe8\x89\x04\x55\x65\xa9\0\0\0\x03\x80\0\0\x03\0\0\0\0".as_slice();
    let ack = b"\0\x03\xe8\x89\x04\x55\x65\xa9\0\0\0\x02\0\0\0\x01\0\0\0\0".as_slice();
    let end = Some(HaggleEnd::Aborted);
    let cases: [Case<'_>; 3] = [
        (LIST, b"", Attached::Other, LISTING, None),
        (LIST, b"\0", Attached::Other, invalid, None),
        (ABORT, b"data", Attached::Other, ack, end),
    ];
    let wrong = first_wrong(rt.alloc(), &cases);
    assert!(rt; wrong == 0, "case {wrong}");
}

// Types 3, 1, 3 and 99 are asked.
#[test]
fn tells_in_its_own_order_and_once(rt: HostRuntime) {
    let asked = b"\0\0\0\0\0\x04\0\x03\0\x01\0\x03\0\x63";
    let wanted =
        b"\0\x03\xe8\x89\x04\x55\x65\xa9\0\0\0\x07\0\0\0\x03\0\0\0\x0c\0\0\0\0\0\0\0\0\x10\0\x05\x6d\
        \0\x03\xe8\x89\x04\x55\x65\xa9\0\0\0\x07\0\0\0\x03\0\0\0\x03\0\x01a\
        \0\x03\xe8\x89\x04\x55\x65\xa9\0\0\0\x07\0\0\0\x03\0\0\0\x0e\0\x03\0\0\0\x01\0\0\x10\0\x02\0\0\0\
        \0\x03\xe8\x89\x04\x55\x65\xa9\0\0\0\x07\0\0\0\x01\0\0\0\0";
    let end = Some(HaggleEnd::Entered(0));
    let cases: [Case<'_>; 1] = [(GO, asked, Attached::Given, wanted, end)];
    assert!(rt; first_wrong(rt.alloc(), &cases) == 0);
}

// Types 3 and 2 are asked of bb.
#[test]
fn describes_before_the_block_size(rt: HostRuntime) {
    let asked = b"\0\0\0\x02bb\0\x02\0\x03\0\x02";
    let wanted =
        b"\0\x03\xe8\x89\x04\x55\x65\xa9\0\0\0\x06\0\0\0\x03\0\0\0\x0c\0\0\0\0\0\0\0\0\x20\0\x05\x0f\
        \0\x03\xe8\x89\x04\x55\x65\xa9\0\0\0\x06\0\0\0\x03\0\0\0\x04\0\x02d1\
        \0\x03\xe8\x89\x04\x55\x65\xa9\0\0\0\x06\0\0\0\x03\0\0\0\x0e\0\x03\0\0\0\x01\0\0\x10\0\x02\0\0\0\
        \0\x03\xe8\x89\x04\x55\x65\xa9\0\0\0\x06\0\0\0\x01\0\0\0\0";
    let cases: [Case<'_>; 1] = [(INFO, asked, Attached::Other, wanted, None)];
    assert!(rt; first_wrong(rt.alloc(), &cases) == 0);
}

#[test]
fn full_export_is_refused_by_policy_alone(rt: HostRuntime) {
    let policy = b"\0\x03\xe8\x89\x04\x55\x65\xa9\0\0\0\x07\x80\0\0\x02\0\0\0\0".as_slice();
    let told =
        b"\0\x03\xe8\x89\x04\x55\x65\xa9\0\0\0\x07\0\0\0\x03\0\0\0\x0c\0\0\0\0\0\0\0\0\x10\0\x05\x6d\
        \0\x03\xe8\x89\x04\x55\x65\xa9\0\0\0\x07\0\0\0\x01\0\0\0\0";
    let (entered, refused) = (Some(HaggleEnd::Entered(0)), Some(HaggleEnd::Refused));
    let cases: [Case<'_>; 3] = [
        (GO, b"\0\0\0\x01a\0\0", Attached::Full, policy, None),
        (GO, b"\0\0\0\x01a\0\0", Always.attach(0), told, entered),
        (GO, b"\0\0\0\x01a\0\0", Attached::Other, b"", refused),
    ];
    let wrong = first_wrong(rt.alloc(), &cases);
    assert!(rt; wrong == 0, "case {wrong}");
}

// Whether an option is answered by one reply of this type without data, and haggling goes on.
fn is_refused(alloc: Global, table: &ExportTable<Global>, row: &(u32, &[u8], u8)) -> bool {
    let (number, content, kind) = *row;
    let mut wanted = *b"\0\x03\xe8\x89\x04\x55\x65\xa9\0\0\0\0\x80\0\0\0\0\0\0\0";
    wanted[8..12].copy_from_slice(&number.to_be_bytes());
    wanted[15] = kind;
    let case: Case<'_> = (number, content, Attached::Other, &wanted, None);
    is_answered(alloc, table, &case)
}

// An option, its data, and the type of the one reply, which has no data.
#[test]
fn refuses_by_a_reply_without_data(rt: HostRuntime) {
    let rows: [(u32, &[u8], u8); 6] = [
        (GO, b"\0\0\0\0\0\x02\0\x03", 3),
        (GO, b"\xff\xff\xff\xff\0\0", 3),
        (INFO, b"\0\0\0\0\0\0\x01", 3),
        (INFO, b"", 3),
        (INFO, b"\0\0\0\x01z\0\0", 6),
        (STARTTLS, b"", 1),
    ];
    let table = exports(rt.alloc()).expect(&rt, "memory");
    for (place, row) in rows.iter().enumerate() {
        assert!(rt; is_refused(rt.alloc(), &table, row), "row {place}");
    }
}

#[test]
fn enters_by_name(rt: HostRuntime) {
    let told = b"\0\0\0\0\0\0\x10\0\x05\x6d".as_slice();
    let (entered, missing) = (Some(HaggleEnd::Entered(0)), Some(HaggleEnd::NoExport));
    let refused = Some(HaggleEnd::Refused);
    let cases: [Case<'_>; 3] = [
        (EXPORT_NAME, b"a", Attached::Given, told, entered),
        (EXPORT_NAME, b"zz", Attached::Given, b"", missing),
        (EXPORT_NAME, b"bb", Attached::Full, b"", refused),
    ];
    let wrong = first_wrong(rt.alloc(), &cases);
    assert!(rt; wrong == 0, "case {wrong}");
}

// How long the answer to the name of the first export is. 0 where there is none, or no memory.
fn length_of_entry(alloc: Global, table: &ExportTable<Global>, no_zeroes: bool) -> usize {
    if table.is_empty() {
        return 0;
    }
    match name_reply(alloc, table, 0, no_zeroes) {
        Ok(text) => text.len(),
        Err(NoMemory) => 0,
    }
}

#[test]
fn zeros_follow_unless_unwanted(rt: HostRuntime) {
    let table = exports(rt.alloc()).expect(&rt, "memory");
    assert!(rt; table.len() == 2);
    assert!(rt; length_of_entry(rt.alloc(), &table, true) == 10);
    assert!(rt; length_of_entry(rt.alloc(), &table, false) == 134);
}

// The head of an option 99.
fn head(last_of_magic: u8, count: u32) -> [u8; 16] {
    let mut bytes = *b"IHAVEOPT\0\0\0\x63\0\0\0\0";
    bytes[7] = last_of_magic;
    bytes[12..16].copy_from_slice(&count.to_be_bytes());
    bytes
}

#[test]
fn takes_a_thousand_options(rt: HostRuntime) {
    let table = exports(rt.alloc()).expect(&rt, "memory");
    let mut haggle = Haggle::new(&table);
    assert!(rt; haggle.head(&head(0x55, 65_537)) == Err(HeadFault::BadMagic));
    assert!(rt; haggle.head(&head(0x54, 65_537)) == Err(HeadFault::TooLong));
    for _ in 0..1000 {
        assert!(rt; haggle.head(&head(0x54, 65_536)) == Ok((99, 65_536)));
    }
    assert!(rt; haggle.head(&head(0x54, 0)) == Err(HeadFault::TooMany));
    assert!(rt; haggle.head(&head(0x55, 0)) == Err(HeadFault::BadMagic));
    assert!(rt; haggle.head(&head(0x54, 65_537)) == Err(HeadFault::TooMany));
}

#[test]
fn greets_and_reads_flags(rt: HostRuntime) {
    assert!(rt; greeting().as_slice() == b"NBDMAGICIHAVEOPT\0\x03".as_slice());
    let wants = [Some(false), Some(false), Some(true), Some(true), None];
    for (flags, want) in (0..5u32).zip(wants) {
        assert!(rt; no_zeroes(flags) == want, "flags {flags}");
    }
}

#[test]
fn table_tells_its_exports(rt: HostRuntime) {
    let table = exports(rt.alloc()).expect(&rt, "memory");
    assert!(rt; table.len() == 2);
    assert!(rt; !table.is_empty() && !table.is_full());
    assert!(rt; table.name(1) == b"bb".as_slice());
    assert!(rt; table.description(1) == Some(b"d1".as_slice()));
    assert!(rt; table.size(0) == 4096);
    assert!(rt; table.flags(0) == 0x056d);
}

// Whether a table's exports are listed.
fn is_listed<A: Allocator + Copy>(alloc: A, table: &ExportTable<A>) -> bool {
    match answer(alloc, table, LIST, b"", Attached::Other) {
        Ok((text, _end)) => text.as_slice() == LISTING,
        Err(NoMemory) => false,
    }
}

// Whether the two exports are listed.
fn are_listed(heap: &Refusing<Global>) -> bool {
    match exports(heap) {
        Ok(table) => is_listed(heap, &table),
        Err(NoMemory) => false,
    }
}

#[test]
fn each_growth_is_refused_in_turn(rt: HostRuntime) {
    let heap: Refusing<Global> = Refusing::new(rt.alloc(), 0);
    let mut refused = 0u64;
    for nth in 1..100u64 {
        heap.arm(nth);
        assert!(rt; are_listed(&heap), "at {nth}");
        if heap.is_armed() {
            break;
        }
        refused = nth;
    }
    assert!(rt; refused > 8);
}
