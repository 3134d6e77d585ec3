ghost use Rattle.std.specs.Prelude.{◌≡◌, ◌≢◌, ◌++◌, ◌^◌, ◌<◌, length, take, Err, IfOk, OnOk, OnErr, IsErr};
ghost use Rattle.nbd_wire.specs.Grammar.{option_head_text, option_magic, option_reply_head_text, option_reply_text};

use crate::appending::append_both;
use crate::fault::WireFault;
use crate::fields::{u32_at, u64_at};
use nbd_base::NoMemory;
use std::alloc::Allocator;

const OPTION_MAGIC: u64 = 0x4948_4156_454f_5054;

const OPTION_REPLY_MAGIC: u64 = 0x0003_e889_0455_65a9;

/// Reads the head of an option: its number, and the length of its data in bytes (NBD protocol, "Option haggling").
pub fn read_option_head(bytes: &[u8; 16]) -> Result<(u32, u32), WireFault>
    ensures spelled { IfOk result (λ h. (bytes.now ≡ option_head_text h.0 h.1) × (h.0 < 2 ^ 32)
        × (h.1 < 2 ^ 32)) }
    ensures bad_magic { IsErr result
        → (take 8 bytes.now ≢ option_magic) × (result ≡ Err WireFault.BadMagic) }
{
    if u64_at(bytes, 0) != OPTION_MAGIC {
        return Err(WireFault::BadMagic);
    }
    Ok((u32_at(bytes, 8), u32_at(bytes, 12)))
}

/// The 16 bytes before an option's data: its number, and how many bytes its data has.
#[tactic(auto, unfolding(crate::specs::Grammar::option_head_text))]
pub fn write_option_head(number: u32, count: u32) -> [u8; 16]
    ensures { result ≡ option_head_text number count }
{
    let mut bytes = [0; 16];
    bytes[0..8].copy_from_slice(&OPTION_MAGIC.to_be_bytes());
    bytes[8..12].copy_from_slice(&number.to_be_bytes());
    bytes[12..16].copy_from_slice(&count.to_be_bytes());
    bytes
}

/// The 20 bytes before the data of an option's reply.
#[tactic(auto, unfolding(crate::specs::Grammar::option_reply_head_text))]
fn write_option_reply_head(option: u32, kind: u32, count: u32) -> [u8; 20]
    ensures { result ≡ option_reply_head_text option kind count }
{
    let mut bytes = [0; 20];
    bytes[0..8].copy_from_slice(&OPTION_REPLY_MAGIC.to_be_bytes());
    bytes[8..12].copy_from_slice(&option.to_be_bytes());
    bytes[12..16].copy_from_slice(&kind.to_be_bytes());
    bytes[16..20].copy_from_slice(&count.to_be_bytes());
    bytes
}

/// Appends the reply to an option, of a kind of the NBD protocol's "Option reply types", or nothing where memory is
/// refused.
pub fn write_option_reply<A: Allocator>(
    option: u32,
    kind: u32,
    content: &[u8],
    out: &mut Vec<u8, A>,
) -> Result<(), NoMemory>
    requires { length content.now < 2 ^ 32 }
    ensures ok { OnOk result (out.new.items ≡ out.old.items
        ++ option_reply_text option kind content.now) }
    ensures err { OnErr result (out.new.items ≡ out.old.items) }
{
    let head = write_option_reply_head(option, kind, content.len() as u32);
    append_both(out, &head, content)
}
