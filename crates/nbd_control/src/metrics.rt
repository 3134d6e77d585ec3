//! The answer to `stats prometheus`: the figures in the text format 0.0.4 of Prometheus.

ghost use Rattle.std.specs.Prelude.{◌≡◌, ◌++◌, OnOk, OnErr};
ghost use Rattle.std.specs.List.{flat_map};
ghost use Rattle.nbd_control.specs.Figures.{row_of};
ghost use Rattle.nbd_control.specs.Metrics.{export_metric, export_name, export_sample, export_samples, head_text, help_line, metrics_text, server_metric, server_name, server_sample, type_line, value_text};

use crate::figures::{
    EXPORT_FIGURES, ExportFigure, Reading, Row, SERVER_FIGURES, ServerFigure, kind_word,
    put_reading,
};
use crate::quoting::put_label;
use crate::stats::{ExportStats, ServerStats};
use nbd_base::NoMemory;
use nbd_text::or_no_memory;
use std::alloc::Allocator;
use std::io::Write;

/// Puts the answer to `stats prometheus` behind a text. Where memory is refused, the text stays.
pub fn write_metrics<A: Allocator + Copy>(
    alloc: A,
    server: &ServerStats,
    exports: &[ExportStats<'_>],
    text: &mut Vec<u8, A>,
) -> Result<(), NoMemory>
    ensures ok { OnOk result (text.new.items ≡ text.old.items
        ++ metrics_text server.now exports.now) }
    ensures err { OnErr result (text.new.items ≡ text.old.items) }
{
    let mut answer = Vec::new(alloc);
    put_metrics(server, exports, &mut answer)?;
    text.extend_from_slice(&answer)?;
    Ok(())
}

fn put_metrics<A: Allocator>(
    server: &ServerStats,
    exports: &[ExportStats<'_>],
    text: &mut Vec<u8, A>,
) -> Result<(), NoMemory>
    ensures { OnOk result (text.new.items ≡ text.old.items ++ metrics_text server.now exports.now) }
{
    put_server_metrics(&SERVER_FIGURES, server, text)?;
    put_export_metrics(&EXPORT_FIGURES, exports, text)?;
    text.extend_from_slice(b"\n")?;
    Ok(())
}

/// Puts figures of the server behind a text.
fn put_server_metrics<A: Allocator>(
    figures: &[ServerFigure],
    server: &ServerStats,
    text: &mut Vec<u8, A>,
) -> Result<(), NoMemory>
    ensures { OnOk result (text.new.items ≡ text.old.items
        ++ flat_map (server_metric server.now) figures.now) }
{
    for &figure in figures {
        put_server_metric(figure, server, text)?;
    }
    Ok(())
}

/// Puts a figure of the server behind a text.
fn put_server_metric<A: Allocator>(
    figure: ServerFigure,
    server: &ServerStats,
    text: &mut Vec<u8, A>,
) -> Result<(), NoMemory>
    ensures { OnOk result (text.new.items ≡ text.old.items ++ server_metric server.now figure) }
{
    put_head("nbdq_", figure.row(), text)?;
    put_server_sample(figure, server, text)?;
    Ok(())
}

#[tactic(auto, unfolding(crate::specs::Metrics::server_sample))]
fn put_server_sample<A: Allocator>(
    figure: ServerFigure,
    server: &ServerStats,
    text: &mut Vec<u8, A>,
) -> Result<(), NoMemory>
    ensures { OnOk result (text.new.items ≡ text.old.items ++ server_sample server.now figure) }
{
    put_server_name(figure.row().name, text)?;
    put_value(figure.reading(server), text)?;
    Ok(())
}

fn put_server_name<A: Allocator>(name: &str, text: &mut Vec<u8, A>) -> Result<(), NoMemory>
    ensures { OnOk result (text.new.items ≡ text.old.items ++ server_name name.now) }
{
    or_no_memory(write!(text, "nbdq_{name} "))
}

/// Puts figures of all exports behind a text.
fn put_export_metrics<A: Allocator>(
    figures: &[ExportFigure],
    exports: &[ExportStats<'_>],
    text: &mut Vec<u8, A>,
) -> Result<(), NoMemory>
    ensures { OnOk result (text.new.items ≡ text.old.items
        ++ flat_map (export_metric exports.now) figures.now) }
{
    for &figure in figures {
        put_export_metric(figure, exports, text)?;
    }
    Ok(())
}

/// Puts a figure of all exports behind a text.
fn put_export_metric<A: Allocator>(
    figure: ExportFigure,
    exports: &[ExportStats<'_>],
    text: &mut Vec<u8, A>,
) -> Result<(), NoMemory>
    ensures { OnOk result (text.new.items ≡ text.old.items ++ export_metric exports.now figure) }
{
    put_head("nbdq_export_", figure.row(), text)?;
    put_export_samples(figure, exports, text)?;
    Ok(())
}

#[tactic(auto, unfolding(crate::specs::Metrics::export_samples))]
fn put_export_samples<A: Allocator>(
    figure: ExportFigure,
    exports: &[ExportStats<'_>],
    text: &mut Vec<u8, A>,
) -> Result<(), NoMemory>
    ensures { OnOk result (text.new.items ≡ text.old.items ++ export_samples figure exports.now) }
{
    for export in exports {
        put_export_sample(figure, export, text)?;
    }
    Ok(())
}

/// Puts a figure of one export behind a text.
#[tactic(auto, unfolding(crate::specs::Metrics::export_sample))]
fn put_export_sample<A: Allocator>(
    figure: ExportFigure,
    export: &ExportStats<'_>,
    text: &mut Vec<u8, A>,
) -> Result<(), NoMemory>
    ensures { OnOk result (text.new.items ≡ text.old.items ++ export_sample figure export.now) }
{
    put_export_name(figure.row().name, text)?;
    put_label(export.name, text)?;
    text.extend_from_slice(b"\"} ")?;
    put_value(figure.reading(export), text)?;
    Ok(())
}

fn put_export_name<A: Allocator>(name: &str, text: &mut Vec<u8, A>) -> Result<(), NoMemory>
    ensures { OnOk result (text.new.items ≡ text.old.items ++ export_name name.now) }
{
    or_no_memory(write!(text, "nbdq_export_{name}{{export=\""))
}

/// Puts a value behind a text, and ends the line.
fn put_value<A: Allocator>(reading: Reading, text: &mut Vec<u8, A>) -> Result<(), NoMemory>
    ensures { OnOk result (text.new.items ≡ text.old.items ++ value_text reading) }
{
    put_reading("NaN", reading, text)?;
    text.extend_from_slice(b"\n")?;
    Ok(())
}

/// Puts the lines behind a text that come before the values of a figure.
#[tactic(auto, unfolding(crate::specs::Metrics::head_text))]
fn put_head<A: Allocator>(family: &str, row: Row, text: &mut Vec<u8, A>) -> Result<(), NoMemory>
    ensures { OnOk result (text.new.items ≡ text.old.items ++ head_text family.now (row_of row)) }
{
    put_help(family, row, text)?;
    put_type(family, row, text)?;
    Ok(())
}

/// Puts behind a text what a figure means.
fn put_help<A: Allocator>(family: &str, row: Row, text: &mut Vec<u8, A>) -> Result<(), NoMemory>
    ensures { OnOk result (text.new.items ≡ text.old.items ++ help_line family.now (row_of row)) }
{
    let name = row.name;
    let help = row.help;
    or_no_memory(writeln!(text, "# HELP {family}{name} {help}"))
}

/// Puts behind a text whether a figure is a counter or a gauge.
fn put_type<A: Allocator>(family: &str, row: Row, text: &mut Vec<u8, A>) -> Result<(), NoMemory>
    ensures { OnOk result (text.new.items ≡ text.old.items ++ type_line family.now (row_of row)) }
{
    let name = row.name;
    let kind = kind_word(row.kind);
    or_no_memory(writeln!(text, "# TYPE {family}{name} {kind}"))
}
