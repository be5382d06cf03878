//! The table of a replay as comma-separated values: the names of its columns, and a row for each cell in each step. Rows
//! go to a writer of such values, which adds commas, line feeds, and quotes where a field needs them. No field does: numbers
//! and names are of letters, digits and underscores.

ghost use Rattle.std.specs.Prelude.{◌≡◌, ◌<◌, true, length, codes, flat_map, All, IfOk, OnOk};
ghost use Rattle.std.specs.Io.KnownBytes.{Appends};
ghost use Rattle.csv.specs.Writing.{text_written};
ghost use Rattle.named_net.specs.Naming.{place_at};
ghost use Rattle.plan_report.specs.Table.{line_text, place_text, trace_text};
ghost use Rattle.plan_report.specs.inner.Writing.{IsBetween, is_plain};

use cell_replay::{Line, Trace};
use csv::Writer;
use ct_base::Memory;
use itoa::Buffer;
use named_net::NamedNet;
use std::alloc::Global;
use std::io::Write;

/// The table of a replay of the network as comma-separated values: the names of the columns, and a row for each line, each
/// ended by a line feed. A cell is told by the name of its link and its place among the link's road cells, from 0, or `q`
/// for the link's queue. An error is want of memory.
pub fn trace_csv(alloc: Global, net: &NamedNet, trace: &Trace) -> Result<Vec<u8>, Memory>
    requires { All (λ line. line.cell < length net.now.net.cells) trace.now }
    ensures { IfOk result (λ text. text.items ≡ trace_text net.now.names trace.now) }
{
    let mut writer = Writer::from_writer(Vec::new(alloc));
    write_header(&mut writer)?;
    write_lines(&mut writer, net, trace.as_slice())?;
    match writer.into_inner() {
        Ok(text) => Ok(text),
        Err(_) => Err(Memory),
    }
}

/// Writes the names of the columns.
fn write_header<W: Write + Drop>(writer: &mut Writer<W>) -> Result<(), Memory>
    requires { IsBetween writer.old }
    ensures text { OnOk result (Appends (text_written W.contents writer.old) (text_written W.contents writer.new) (codes "step,link,cell,units,out,delay\n")) }
    ensures between { OnOk result (IsBetween writer.new) }
{
    match writer.write_fields(&[b"step", b"link", b"cell", b"units", b"out", b"delay"]) {
        Ok(()) => Ok(()),
        Err(_) => Err(Memory),
    }
}

/// Writes a row for each line.
fn write_lines<W: Write + Drop>(
    writer: &mut Writer<W>,
    net: &NamedNet,
    lines: &[Line],
) -> Result<(), Memory>
    requires between { IsBetween writer.old }
    requires cells { All (λ line. line.cell < length net.now.net.cells) lines.now }
    ensures text { OnOk result (Appends (text_written W.contents writer.old) (text_written W.contents writer.new) (flat_map (line_text net.now.names) lines.now)) }
    ensures between { OnOk result (IsBetween writer.new) }
{
    for line in lines {
        write_line(writer, net, line)?;
    }
    Ok(())
}

/// Writes the row of one cell in one step.
fn write_line<W: Write + Drop>(
    writer: &mut Writer<W>,
    net: &NamedNet,
    line: &Line,
) -> Result<(), Memory>
    requires between { IsBetween writer.old }
    requires cell { line.now.cell < length net.now.net.cells }
    ensures text { OnOk result (Appends (text_written W.contents writer.old) (text_written W.contents writer.new) (line_text net.now.names line.now)) }
    ensures between { OnOk result (IsBetween writer.new) }
{
    let names = net.names();
    let (mut step, mut place, mut units, mut out, mut delay) = (
        Buffer::new(),
        Buffer::new(),
        Buffer::new(),
        Buffer::new(),
        Buffer::new(),
    );
    let written = writer.write_fields(&[
        step.format(line.step).as_bytes(),
        names.link_of(line.cell).as_bytes(),
        place_text(&mut place, names.place_of(line.cell)).as_bytes(),
        units.format(line.units).as_bytes(),
        out.format(line.out).as_bytes(),
        delay.format(line.delay).as_bytes(),
    ]);
    match written {
        Ok(()) => Ok(()),
        Err(_) => Err(Memory),
    }
}

/// The place of a cell among the road cells of its link, or `q` for a queue, which has none.
#[tactic(auto, using(crate::proofs::PlainFields::decimal_plain))]
fn place_text(buffer: &mut Buffer, place: Option<u32>) -> &str
    ensures text { result.now ≡ place_text place }
    ensures plain { is_plain result.now ≡ true }
{
    match place {
        Some(road) => buffer.format(road),
        None => "q",
    }
}
