ghost use Rattle.std.specs.Prelude.{◌≡◌, ◌≤◌, map, length, IfOk, OnOk, IsErrOf};
ghost use Rattle.nbd_commands.specs.Exports.{flags_of};
ghost use Rattle.nbd_stream.specs.Streams.{Rises};
ghost use Rattle.nbd_session.specs.Outcomes.{Converses, IsTold};
ghost use Rattle.nbd_session.specs.Conversation.{Talked, facts_of};

use crate::haggling::haggle;
use crate::outcomes::{End, Entry, TalkFault};
use crate::transmission::transmit;
use nbd_base::NoMemory;
use nbd_commands::{Config, ExportConfig};
use nbd_options::{Always, ExportTable};
use nbd_stream::{Buffered, Counted};
use std::alloc::Allocator;
use std::io::Write;

/// Holds one conversation with one client, by one thread: the handshake, in which a session is always given, and then each
/// request in turn. The export's bytes are zeros at its start.
pub fn talk<A: Allocator + Copy, R: Buffered, W: Write>(
    alloc: A,
    config: &Config<A>,
    reader: &mut Counted<R>,
    writer: &mut Counted<W>,
) -> Result<End, TalkFault>
    ensures conversation { Converses IsTold (Talked config.now.exports)
        (R.remaining reader.old.inner) (R.remaining reader.new.inner)
        (W.contents writer.old.inner) (W.contents writer.new.inner) result }
    ensures read_failed { IsErrOf result TalkFault.ReadFailed
        → Rises reader.old.failures reader.new.failures }
    ensures write_failed { IsErrOf result TalkFault.WriteFailed
        → Rises writer.old.failures writer.new.failures }
    ensures read { OnOk result (reader.new.failures ≡ reader.old.failures) }
    ensures written { OnOk result (writer.new.failures ≡ writer.old.failures) }
{
    let table = table_of(alloc, config.exports())?;
    match haggle(alloc, &table, reader, writer, &mut Always)? {
        Entry::Out(end) => Ok(end),
        Entry::In(export) => transmit(alloc, &config.exports()[export as usize], reader, writer),
        // Sessions are always given.
        Entry::Refused => Ok(End::NoExport),
    }
}

/// What haggling tells of each export of a configuration.
pub fn table_of<A: Allocator + Copy>(
    alloc: A,
    exports: &[ExportConfig<A>],
) -> Result<ExportTable<A>, NoMemory>
    requires { length exports.now ≤ 64 }
    ensures { IfOk result (λ table. table ≡ map facts_of exports.now) }
{
    let mut table = ExportTable::new(alloc);
    for export in exports {
        table.push(
            export.name(),
            export.description(),
            export.size(),
            export.flags(),
        )?;
    }
    Ok(table)
}
