//! How a client is greeted, and how it takes its leave.

use super::*;

type Heap<'a> = &'a Refusing<Global>;

/// A configuration of one export of 4,096 bytes.
fn config_of(heap: Heap<'_>) -> Option<Config<Heap<'_>>> {
    let mut list = ExportList::new(heap);
    if list.add(&ExportSettings::new(b"a", 4096)).is_err() {
        return None;
    }
    Config::new(list, 32).ok()
}

fn is_silence_over<'a>(
    heap: Heap<'a>,
    config: &Config<Heap<'a>>,
    writer: &mut Counted<Vec<u8>>,
) -> bool {
    let mut silent = Counted::new(b"".as_slice());
    talk(heap, config, &mut silent, writer) == Ok(End::Over)
}

#[test]
fn a_silent_client_is_greeted(rt: HostRuntime) {
    let heap = Refusing::new(rt.alloc(), 0);
    let config = config_of(&heap).expect(&rt, "memory");
    let mut writer = Counted::new(Vec::new(rt.alloc()));
    assert!(rt; is_silence_over(&heap, &config, &mut writer));
    let wanted = b"NBDMAGICIHAVEOPT\x00\x03";
    assert!(rt; writer.into_inner().as_slice() == wanted.as_slice());
}

fn head_of(kind: u16) -> RequestHead {
    RequestHead {
        flags: 1,
        kind,
        cookie: 3,
        offset: 4,
        length: 5,
    }
}

#[test]
fn a_client_says_disc_by_the_kind_alone(rt: HostRuntime) {
    assert!(rt; is_disc(head_of(2)));
    assert!(rt; !is_disc(head_of(3)));
}

#[test]
fn the_laws_are_called() {
    one_conversation();
    requests_are_plain();
    worked_conversations();
    handshake_is_haggled::<Always>();
    asked_at_the_end::<Always>();
}
