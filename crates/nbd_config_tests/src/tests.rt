use nbd_commands::Config;
use nbd_config::{FileError, Place, read_config};
use refusing::Refusing;
use std::alloc::{AllocError, Allocator, Global};
use std::process::Abort;

const TWO: &[u8] = b"inflight = 8\n[[export]]\nname = \"a\"\nsize = 4096\nlimit = 10\n\
[[export]]\nname = \"bb\"\nsize = 8192\nread_only = true\n";

fn read(alloc: Global, text: &[u8]) -> Result<Config<Global>, FileError> {
    read_config(alloc, alloc, text)
}

// The text is refused there, by a reason of this kind.
fn is_refused(rt: &(impl Abort + AllocGlobal), text: &[u8], code: u8, place: Place) {
    match read(rt.alloc(), text) {
        Err(FileError::Refused(refusal)) => {
            assert_eq!(rt;
                (refusal.reason.code(), refusal.place),
                (code, place),
                "{text:?}"
            );
        }
        Err(FileError::NoMemory) => assert!(rt; false, "no memory for {text:?}"),
        Ok(_) => assert!(rt; false, "{text:?} is read"),
    }
}

fn are_refused_at_the_top(rt: &(impl Abort + AllocGlobal), cases: &[(&str, u8)]) {
    for &(text, code) in cases {
        is_refused(rt, text.as_bytes(), code, Place::Top);
    }
}

// Each of these tables is refused where it stands behind an export "a".
fn are_refused_behind(
    rt: &(impl Abort + AllocGlobal),
    cases: &[(&str, u8)],
) -> Result<(), AllocError> {
    for &(lines, code) in cases {
        let text = format!(in rt.alloc();
            "[[export]]\nname = \"a\"\nsize = 1\n[[export]]\n{lines}\n"
        )?;
        is_refused(rt, text.as_bytes(), code, Place::Export(1));
    }
    Ok(())
}

#[test]
fn values_and_defaults_are_read(rt: HostRuntime) -> Result<(), FileError> {
    let config = read(rt.alloc(), TWO)?;
    let [a, b] = config.exports() else {
        assert!(rt; false, "two exports");
        return Ok(());
    };
    assert_eq!(rt; config.inflight(), 8);
    assert_eq!(rt;
        (a.name(), a.size(), a.limit()),
        (b"a".as_slice(), 4096, 10)
    );
    assert_eq!(rt;
        (b.name(), b.size(), b.limit()),
        (b"bb".as_slice(), 8192, 0)
    );
    assert!(rt; !a.is_read_only());
    assert!(rt; b.is_read_only());
    assert_eq!(rt; a.description(), None);
    assert_eq!(rt;
        (a.reservation(), a.weight(), a.depth(), a.window()),
        (0, 1, 1024, 256)
    );
    Ok(())
}

#[test]
fn every_value_may_be_written(rt: HostRuntime) -> Result<(), FileError> {
    let text = b"export = [{window = 4096, depth = 1, weight = 0x10, limit = 1_000_000, \
reservation = 1, read_only = false, size = 1099511627776, description = \"\", \"name\" = \"\\u00e9\"}]";
    let config = read(rt.alloc(), text)?;
    let [a] = config.exports() else {
        assert!(rt; false, "one export");
        return Ok(());
    };
    assert_eq!(rt; config.inflight(), 32);
    assert_eq!(rt;
        (a.name(), a.size()),
        (b"\xc3\xa9".as_slice(), 1_099_511_627_776)
    );
    assert_eq!(rt; a.description(), Some(b"".as_slice()));
    assert_eq!(rt;
        (a.reservation(), a.limit(), a.weight()),
        (1, 1_000_000, 16)
    );
    assert_eq!(rt; (a.depth(), a.window()), (1, 4096));
    assert!(rt; !a.is_read_only());
    Ok(())
}

#[test]
fn text_is_utf8_and_toml(rt: HostRuntime) {
    is_refused(&rt, b"# \xff\n", 1, Place::Top);
    are_refused_at_the_top(
        &rt,
        &[
            ("=", 1),
            ("inflight = 1\ninflight = 2", 1),
            ("[[export]]\nsize = 1\nsize = 1", 1),
            ("inflight = 9223372036854775808", 1),
            ("speed = 1\n=", 1),
        ],
    );
}

#[test]
fn top_level_comes_next(rt: HostRuntime) -> Result<(), AllocError> {
    are_refused_at_the_top(
        &rt,
        &[
            ("", 3),
            ("# nothing", 3),
            ("speed = 1", 2),
            ("inflight = \"8\"", 2),
            ("inflight = 8.0", 2),
            ("export = 1", 2),
            ("[export]\nname = \"a\"\nsize = 1", 2),
            ("speed = 1\ninflight = 0", 2),
            ("speed = 1\nexport = []", 2),
            ("export = []", 3),
            ("export = []\ninflight = 0", 3),
            ("inflight = 0\nexport = [1]", 8),
            ("inflight = 4097\n[[export]]\nspeed = 1", 8),
            ("inflight = -1\n[[export]]\nname = \"a\"\nsize = 1", 8),
        ],
    );
    let mut text = String::new(rt.alloc());
    for n in 0..65u8 {
        text.push_str(format!(in rt.alloc(); "[[export]]\nname = \"{n}\"\nsize = 1\n")?.as_str())?;
        let read = read(rt.alloc(), text.as_bytes());
        assert_eq!(rt; read.is_ok(), n < 64, "at {n}");
    }
    is_refused(&rt, text.as_bytes(), 3, Place::Top);
    Ok(())
}

#[test]
fn exports_come_last_and_in_order(rt: HostRuntime) {
    is_refused(
        &rt,
        b"[[export]]\nsize = 1\n[[export]]\nspeed = 1",
        3,
        Place::Export(0),
    );
    is_refused(&rt, b"export = [{speed = 1}, 1]", 2, Place::Export(0));
    is_refused(
        &rt,
        b"export = [{name = \"a\", size = 1}, 1]",
        2,
        Place::Export(1),
    );
}

#[test]
fn keys_come_first(rt: HostRuntime) -> Result<(), AllocError> {
    are_refused_behind(
        &rt,
        &[
            ("name = \"b\"\nsize = 1\nspeed = 1", 2),
            ("name = \"b\"\nsize = 1\nNAME = \"b\"", 2),
            ("name = 1\nsize = 1", 2),
            ("name = \"b\"\nsize = \"x\"", 2),
            ("name = \"b\"\nsize = 1.0", 2),
            ("name = \"b\"\nsize = 1\nread_only = 1", 2),
            ("name = \"b\"\nsize = 1\ndescription = 1", 2),
            ("name = \"b\"\nsize = 1\nreservation = true", 2),
            ("name = \"b\"\nsize = 1\nlimit = []", 2),
            ("name = \"b\"\nsize = 1\nweight = \"1\"", 2),
            ("name = \"b\"\nsize = 1\ndepth = 1979-05-27", 2),
            ("name = \"b\"\nsize = 1\n[export.window]", 2),
            ("speed = 1", 2),
            ("", 3),
            ("name = \"b\"", 3),
            ("size = 1", 3),
            ("name = \"\"", 3),
        ],
    )
}

#[test]
fn values_follow_in_order(rt: HostRuntime) -> Result<(), AllocError> {
    are_refused_behind(
        &rt,
        &[
            ("name = \"\"\nsize = 0", 4),
            ("name = \"a\"\nsize = 0", 4),
            ("name = \"b\"\nsize = 0\nlimit = 1000001", 5),
            ("name = \"b\"\nsize = -1", 5),
            ("name = \"b\"\nsize = 1099511627777", 5),
            (
                "name = \"b\"\nsize = 1\nreservation = 1000001\nweight = 0",
                6,
            ),
            ("name = \"b\"\nsize = 1\nlimit = -1\nweight = 0", 6),
            ("name = \"b\"\nsize = 1\nweight = 0\ndepth = 0", 7),
            ("name = \"b\"\nsize = 1\nweight = 1000001\nwindow = 0", 7),
            (
                "name = \"b\"\nsize = 1\ndepth = 0\nreservation = 2\nlimit = 1",
                8,
            ),
            (
                "name = \"b\"\nsize = 1\nwindow = 4097\nreservation = 2\nlimit = 1",
                8,
            ),
            ("name = \"b\"\nsize = 1\nreservation = 11\nlimit = 10", 9),
        ],
    )
}

#[test]
fn texts_may_be_too_long(rt: HostRuntime) -> Result<(), AllocError> {
    let alloc = rt.alloc();
    for (name, description, refused) in [(255, 4096, false), (256, 0, true), (1, 4097, true)] {
        let name = "n".repeat(alloc, name)?;
        let description = "d".repeat(alloc, description)?;
        let text = format!(in alloc;
            "[[export]]\nname = \"{name}\"\nsize = 1\ndescription = \"{description}\"\n"
        )?;
        if refused {
            is_refused(&rt, text.as_bytes(), 4, Place::Export(0));
        } else {
            assert!(rt; read(alloc, text.as_bytes()).is_ok());
        }
    }
    Ok(())
}

fn is_without_memory<A: Allocator + Copy>(heap: Global, alloc: A) -> bool {
    match read_config(heap, alloc, TWO) {
        Ok(config) => config.exports().len() != 2,
        Err(error) => error == FileError::NoMemory,
    }
}

#[test]
fn each_growth_of_the_configuration_is_refused_in_turn(rt: HostRuntime) {
    let mut met = false;
    for nth in 1..100u64 {
        let heap = Refusing::new(rt.alloc(), nth);
        let without = is_without_memory(rt.alloc(), &heap);
        if heap.is_armed() {
            assert!(rt; !without);
            assert!(rt; met);
            return;
        }
        met = true;
        assert!(rt; without, "at {nth}");
    }
    assert!(rt; false, "no end");
}
