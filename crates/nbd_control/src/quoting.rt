//! Names in quotes: basic strings of TOML, and the values of labels in the text format of Prometheus.

ghost use Rattle.std.specs.Prelude.{◌≡◌, ◌<◌, ◌++◌, OnOk, true, false};
ghost use Rattle.std.specs.Fmt.{digit_glyph};
ghost use Rattle.std.specs.List.{flat_map};
ghost use Rattle.toml_writer.specs.Text.{escape_letter, escape_text, needs_escape};
ghost use Rattle.nbd_control.specs.Quoting.{basic_byte, basic_text, label_byte, label_text};

use nbd_base::NoMemory;
use std::alloc::Allocator;

/// Puts a basic string of TOML behind a text. It has no line feed.
pub fn put_basic<A: Allocator>(bytes: &[u8], text: &mut Vec<u8, A>) -> Result<(), NoMemory>
    ensures { OnOk result (text.new.items ≡ text.old.items ++ basic_text bytes.now) }
{
    text.extend_from_slice(b"\"")?;
    put_basic_bytes(bytes, text)?;
    text.extend_from_slice(b"\"")?;
    Ok(())
}

/// Puts what stands between the quotes of a basic string behind a text.
fn put_basic_bytes<A: Allocator>(bytes: &[u8], text: &mut Vec<u8, A>) -> Result<(), NoMemory>
    ensures { OnOk result (text.new.items ≡ text.old.items ++ flat_map basic_byte bytes.now) }
{
    for &byte in bytes {
        put_basic_byte(byte, text)?;
    }
    Ok(())
}

/// Puts a byte of a basic string behind a text, escaped where it has to be.
#[tactic(auto, unfolding(crate::specs::Quoting::basic_byte))]
fn put_basic_byte<A: Allocator>(byte: u8, text: &mut Vec<u8, A>) -> Result<(), NoMemory>
    ensures { OnOk result (text.new.items ≡ text.old.items ++ basic_byte byte) }
{
    if needs_escape(byte) {
        put_escape(byte, text)?;
        return Ok(());
    }
    text.push(byte)?;
    Ok(())
}

/// Whether a byte may not stand in a basic string as it is.
#[tactic(auto, using(crate::proofs::QuotingLemmas::needs_quote, crate::proofs::QuotingLemmas::needs_backslash, crate::proofs::QuotingLemmas::needs_delete, crate::proofs::QuotingLemmas::needs_other))]
fn needs_escape(byte: u8) -> bool
    ensures { result ≡ needs_escape false 0 byte }
{
    match byte {
        b'"' | b'\\' | 0x7f => true,
        _ => byte < 0x20,
    }
}

/// Puts the escape of a byte behind a text: a backslash and a letter, or the byte's number.
fn put_escape<A: Allocator>(byte: u8, text: &mut Vec<u8, A>) -> Result<(), NoMemory>
    ensures { OnOk result (text.new.items ≡ text.old.items ++ escape_text byte) }
{
    let letter = escape_letter(byte);
    if letter == 0 {
        let high = hex_digit(byte / 16);
        let low = hex_digit(byte % 16);
        text.extend_from_slice(&[b'\\', b'u', b'0', b'0', high, low])?;
        return Ok(());
    }
    text.extend_from_slice(&[b'\\', letter])?;
    Ok(())
}

fn hex_digit(digit: u8) -> u8
    requires { digit < 16 }
    ensures { result ≡ digit_glyph true digit }
{
    if digit < 10 {
        b'0' + digit
    } else {
        b'A' - 10 + digit
    }
}

/// The letter of a short escape, or 0.
fn escape_letter(byte: u8) -> u8
    ensures { result ≡ escape_letter byte }
{
    match byte {
        0x08 => b'b',
        b'\t' => b't',
        b'\n' => b'n',
        0x0c => b'f',
        b'\r' => b'r',
        b'"' | b'\\' => byte,
        _ => 0,
    }
}

/// Puts the value of a label behind a text, without the quotes round it.
pub fn put_label<A: Allocator>(bytes: &[u8], text: &mut Vec<u8, A>) -> Result<(), NoMemory>
    ensures { OnOk result (text.new.items ≡ text.old.items ++ label_text bytes.now) }
{
    for &byte in bytes {
        put_label_byte(byte, text)?;
    }
    Ok(())
}

fn put_label_byte<A: Allocator>(byte: u8, text: &mut Vec<u8, A>) -> Result<(), NoMemory>
    ensures { OnOk result (text.new.items ≡ text.old.items ++ label_byte byte) }
{
    match byte {
        b'\\' => text.extend_from_slice(b"\\\\")?,
        b'"' => text.extend_from_slice(b"\\\"")?,
        b'\n' => text.extend_from_slice(b"\\n")?,
        _ => text.push(byte)?,
    }
    Ok(())
}
