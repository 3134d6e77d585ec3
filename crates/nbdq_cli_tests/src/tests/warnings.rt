//! What is said of configurations that are odd and legal.

use nbd_stream::Counted;
use nbdq_cli::{read_offer, write_warnings};
use std::alloc::Global;

const RESERVED: &[u8] = b"serve: reservations of 400001 requests a second in all; \
4 KiB WRITEs came to 400000 where it was measured\n";

const SHALLOW: &[u8] =
    b"serve: export 1 has depth 255 below its window 256, so one client alone may be answered EIO\n";

/// Whether this is what is said of a configuration.
fn says(heap: Global, text: &[u8], said: &[u8]) -> bool {
    let mut input = Counted::new(text);
    let mut output = Counted::new(Vec::new(heap));
    let Ok(config) = read_offer(heap, heap, &mut input, &mut output) else {
        return false;
    };
    let mut written = Vec::new(heap);
    write_warnings(&config, &mut written).is_ok() && written.as_slice() == said
}

#[test]
fn what_is_usual_is_passed_over(rt: HostRuntime) {
    let text = b"[[export]]\nname = \"a\"\nsize = 1\nreservation = 400000\ndepth = 256\n";
    assert!(rt; says(rt.alloc(), text, b""));
}

#[test]
fn reservations_beyond_what_was_measured(rt: HostRuntime) {
    let text =
        b"[[export]]\nname = \"a\"\nsize = 1\nreservation = 400000\n[[export]]\nname = \"b\"\nsize = 1\nreservation = 1\n";
    assert!(rt; says(rt.alloc(), text, RESERVED));
}

#[test]
fn a_depth_below_the_window(rt: HostRuntime) {
    let text =
        b"[[export]]\nname = \"a\"\nsize = 1\n[[export]]\nname = \"b\"\nsize = 1\ndepth = 255\n";
    assert!(rt; says(rt.alloc(), text, SHALLOW));
}
