//! What is odd in a configuration, and legal: `serve` says it before it is ready.

ghost use Rattle.std.specs.Prelude.{◌≡◌, ◌++◌, OnOk};
ghost use Rattle.nbdq_cli.specs.Warned.{above_its_depth, depth_line, depth_text, export_named, has_depth, reserved_in, reserved_line, warnings_text};

use nbd_base::NoMemory;
use nbd_commands::{Config, ExportConfig};
use nbd_text::or_no_memory;
use std::alloc::Allocator;
use std::io::Write;

/// A round number near the most 4 KiB WRITEs a second that were measured (docs/PERFORMANCE.md). READs came to more, and requests of
/// longer data to fewer.
const MEASURED_A_SECOND: u64 = 400_000;

/// Writes a line where all reservations come to more than was measured, and one for each export whose depth is below its window.
pub fn write_warnings<A: Allocator + Copy>(
    config: &Config<A>,
    text: &mut Vec<u8, A>,
) -> Result<(), NoMemory>
    ensures { OnOk result (text.new.items ≡ text.old.items ++ warnings_text config.now) }
{
    write_reserved(reserved_in(config), text)?;
    let exports = config.exports();
    for (at, export) in exports.iter().enumerate() {
        write_export(at, export, text)?;
    }
    Ok(())
}

/// How many requests a second all reservations come to.
fn reserved_in<A: Allocator + Copy>(config: &Config<A>) -> u64
    ensures { result ≡ reserved_in config.now.exports }
{
    let mut reserved = 0;
    for export in config.exports() {
        reserved += u64::from(export.reservation());
    }
    reserved
}

fn write_reserved<A: Allocator>(reserved: u64, text: &mut Vec<u8, A>) -> Result<(), NoMemory>
    ensures { OnOk result (text.new.items ≡ text.old.items ++ reserved_line reserved) }
{
    if reserved > MEASURED_A_SECOND {
        or_no_memory(writeln!(
            text,
            "serve: reservations of {reserved} requests a second in all; 4 KiB WRITEs came to 400000 where it was measured"
        ))
    } else {
        Ok(())
    }
}

fn write_export<A: Allocator + Copy>(
    at: usize,
    export: &ExportConfig<A>,
    text: &mut Vec<u8, A>,
) -> Result<(), NoMemory>
    ensures { OnOk result (text.new.items ≡ text.old.items ++ depth_line at export.now) }
{
    let depth = export.depth();
    let window = export.window();
    write_depth(at, depth, window, text)
}

fn write_depth<A: Allocator>(
    at: usize,
    depth: usize,
    window: usize,
    text: &mut Vec<u8, A>,
) -> Result<(), NoMemory>
    ensures { OnOk result (text.new.items ≡ text.old.items ++ depth_text at depth window) }
{
    if depth < window {
        write_name(at, text)?;
        write_has_depth(depth, text)?;
        write_window(window, text)
    } else {
        Ok(())
    }
}

fn write_name<A: Allocator>(at: usize, text: &mut Vec<u8, A>) -> Result<(), NoMemory>
    ensures { OnOk result (text.new.items ≡ text.old.items ++ export_named at) }
{
    or_no_memory(write!(text, "serve: export {at}"))
}

fn write_has_depth<A: Allocator>(depth: usize, text: &mut Vec<u8, A>) -> Result<(), NoMemory>
    ensures { OnOk result (text.new.items ≡ text.old.items ++ has_depth depth) }
{
    or_no_memory(write!(text, " has depth {depth}"))
}

fn write_window<A: Allocator>(window: usize, text: &mut Vec<u8, A>) -> Result<(), NoMemory>
    ensures { OnOk result (text.new.items ≡ text.old.items ++ above_its_depth window) }
{
    or_no_memory(writeln!(
        text,
        " below its window {window}, so one client alone may be answered EIO"
    ))
}
