//! How a client comes in.
ghost use Rattle.std.specs.Prelude.{◌≡◌};

use super::*;
use nbd_options::ExportTable;

/// The client's flags, and GO to the export without asking for information.
const GO: &[u8; 27] =
    b"\x00\x00\x00\x03\x49\x48\x41\x56\x45\x4f\x50\x54\x00\x00\x00\x07\x00\x00\x00\x07\x00\x00\x00\x01\x61\x00\x00";

const SECOND: SessionId = SessionId {
    export: 0,
    number: 1,
};

type Entrance<'a, 'b, L, R> = Door<'b, L, Flat<Heap<'a>>, Listed<Heap<'a>>, R>;

fn table(heap: Heap<'_>) -> Option<ExportTable<Heap<'_>>> {
    match config_of(heap, 1) {
        Some(config) => table_of(heap, config.exports()).ok(),
        None => None,
    }
}

/// Whether the client comes into the export.
fn enters<'a, L: Ledger, R: Wait>(
    heap: Heap<'a>,
    table: &ExportTable<Heap<'a>>,
    door: &mut Entrance<'a, '_, L, R>,
) -> bool {
    let mut reader = Counted::new(GO.as_slice());
    let mut writer = Counted::new(Vec::new(heap));
    haggle(heap, table, &mut reader, &mut writer, door) == Ok(Entry::In(0))
}

/// Whether its session is told by the door.
fn is_told<'a, L: Ledger, R: Wait>(heap: Heap<'a>, door: &mut Entrance<'a, '_, L, R>) -> bool {
    match table(heap) {
        Some(table) => {
            (door.session() == None) & enters(heap, &table, door) & (door.session() == Some(SECOND))
        }
        None => false,
    }
}

/// The client is given the export's second session.
fn is_second<'a, L: Ledger, R: Wait>(
    rt: &R,
    heap: Heap<'a>,
    shared: &Tried<'a, L>,
    pass: Pass<L>,
) -> bool {
    let mut door = Door::new(rt, shared, pass);
    let event = EventTrace::Attach { export: 0 };
    let told = is_told(heap, &mut door);
    told & (door.into_pass().last() == traced(event, AnswerTrace::Session(1)))
}

fn comes_in<'a, L: Ledger, R: Wait>(rt: &R, heap: Heap<'a>, blank: Blank) -> bool
    requires name { blank.name ≡ L.name }
    requires parts { blank.parts ≡ L.parts }
    requires one { blank.parts ≡ 1 }
{
    match shared_of::<L>(heap, 1, blank) {
        Some((shared, mut pass)) => {
            let sat = shared.turn_attach(rt, &mut pass, 0) == Ok(FIRST);
            sat & is_second(rt, heap, &shared, pass)
        }
        None => false,
    }
}

#[test]
fn go_gives_the_next_session(rt: HostRuntime) {
    let heap = Refusing::new(rt.alloc(), 0);
    assert!(rt; comes_in::<Brand, _>(&rt, &heap, Blank::new(1)));
}
