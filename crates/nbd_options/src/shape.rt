//! The data of INFO and GO.
ghost use Rattle.std.specs.Prelude.{◌≡◌, ◌+◌, ◌<◌, ◌≤◌, IfSome, length, take, drop};
ghost use Rattle.std.specs.Int.{w16, from_be_bytes};
ghost use Rattle.nbd_options.specs.Replies.{name_length, is_shaped, is_asked, numbers_of};
ghost use Rattle.std.specs.List.{position};
ghost use Rattle.std.specs.Str.{bytes_eq};
ghost use Rattle.nbd_options.specs.Exports.{export_named};

use crate::table::Export;
use std::alloc::Allocator;

/// The length of the name, as it is told.
pub fn name_length(content: &[u8]) -> usize
    requires { 4 ≤ length content.now }
    ensures value { result ≡ name_length content.now }
    ensures small { result ≤ 4294967295 }
{
    u32::from_be_bytes([content[0], content[1], content[2], content[3]]) as usize
}

fn number_at(content: &[u8], at: usize) -> u16
    requires { at + 2 ≤ length content.now }
    ensures { result ≡ from_be_bytes w16 (take 2 (drop at content.now)) }
{
    u16::from_be_bytes([content[at], content[at + 1]])
}

/// Whether the data has exactly the shape of INFO's and GO's.
pub fn is_shaped(content: &[u8]) -> bool
    ensures { result ≡ is_shaped content.now }
{
    if content.len() < 6 {
        return false;
    }
    let length = name_length(content);
    if content.len() < length + 6 {
        return false;
    }
    let count = number_at(content, 4 + length) as usize;
    content.len() == 4 + length + 2 + 2 * count
}

/// The place of the export of a name. The empty name means the first export.
pub fn export_named<A: Allocator>(exports: &[Export<A>], name: &[u8]) -> Option<usize>
    ensures value { result ≡ export_named exports.now name.now }
    ensures within { IfSome result (λ at. at < length exports.now) }
{
    if name.is_empty() {
        return if exports.is_empty() { None } else { Some(0) };
    }
    first_named(exports, name)
}

/// The place of the first export of exactly this name.
fn first_named<A: Allocator>(exports: &[Export<A>], name: &[u8]) -> Option<usize>
    ensures value { result ≡ position (λ e. bytes_eq e.name name.now) exports.now }
    ensures within { IfSome result (λ at. at < length exports.now) }
{
    exports.iter().position(|export| export.name() == name)
}

/// Whether a type of information stands among the types, two bytes each.
pub fn is_asked(kind: u16, types: &[u8]) -> bool
    ensures { result ≡ is_asked kind (numbers_of types.now) }
{
    let mut at = 0;
    while at + 1 < types.len() {
        if number_at(types, at) == kind {
            return true;
        }
        at += 2;
    }
    false
}
