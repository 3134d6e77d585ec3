//! Conversations over memory, by one thread.

use nbd_base::NoMemory;
use nbd_commands::{Config, ExportList, ExportSettings};
use nbd_options::Always;
use nbd_session::*;
use nbd_stream::*;
use nbd_wire::{Reply, RequestHead, write_head};
use payload::{Growing, Payload, Spares};
use refusing::Refusing;
use std::alloc::{Allocator, Global};
use std::io;
use std::io::{Read, Write};

mod counting;
mod haggling;
mod long;
mod talking;

/// A READ of four bytes at 4,092, with the cookie 2.
const READ: &[u8; 28] =
    b"\x25\x60\x95\x13\x00\x00\x00\x00\x00\x00\x00\x00\x00\x00\x00\x02\x00\x00\x00\x00\x00\x00\x0f\xfc\x00\x00\x00\x04";
