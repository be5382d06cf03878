//! `point NET POINT`: the plan whose point a list of values is, or why the list is no integer point of the network's program.

ghost use Rattle.std.specs.Prelude.{◌≡◌, [], false, IfOk};
ghost use Rattle.std.specs.Str.{bytes_eq};
ghost use Rattle.ct_base.specs.Validity.{IsValid};
ghost use Rattle.traffic_model.specs.Runs.{IsAdmissiblePlan};
ghost use Rattle.program_model.specs.Points.{program_of};
ghost use Rattle.lo_program.specs.Compiled.{size_faults};
ghost use Rattle.program_text.specs.PointText.{spelled_point};
ghost use Rattle.point_decode.specs.Decoded as decoding;
ghost use Rattle.signal_cli.specs.Answers as said;
ghost use Rattle.signal_cli.specs.PointLines as point_lines;
ghost use Rattle.signal_cli.specs.Answers.{IsPlanReply, IsPointReply, IsTextReply, IsValuesReply, PointGives};
ghost use Rattle.signal_cli.specs.inner.Causes.{Finds};

use crate::fault::Fault;
use crate::input::{Content, read_content, read_sized};
use crate::reply::Reply;
use ct_base::{Memory, Net, Text};
use lo_program::{CompileFault, compile};
use named_net::NamedNet;
use point_decode::{Broken, Decoded, decode};
use program_text::{MAX_POINT_BYTES, PointFault, Program, read_point};
use shelf_io::Shelf;
use std::alloc::{AllocError, Global};

/// The delay and the text of the plan whose point the file holds, or the first thing that keeps it from being an integer point.
pub fn point<F: Shelf>(
    alloc: Global,
    network: &str,
    point: &str,
    shelf: &mut F,
) -> Result<Reply, Fault>
    requires { bytes_eq network.now point.now ≡ false }
    ensures { Finds (PointGives network.now point.now) result (F.state shelf.old) (F.state shelf.new) }
{
    let named = read_sized(alloc, shelf, network)?;
    let content = read_content(alloc, shelf, point, MAX_POINT_BYTES)?;
    let reply = reply_to(alloc, &named, content)?;
    Ok(reply)
}

/// The reply to what a file holds as a point.
fn reply_to(alloc: Global, named: &NamedNet, content: Content) -> Result<Reply, Memory>
    requires { size_faults named.now.net ≡ [] }
    ensures { IfOk result (IsPointReply named.now content) }
{
    match content {
        Content::Whole(bytes) => reply_to_text(alloc, named, bytes.as_slice()),
        Content::TooLong => refused(alloc, "long", 0),
    }
}

/// The reply to the values that a text spells, or to its first line at fault.
fn reply_to_text(alloc: Global, named: &NamedNet, bytes: &[u8]) -> Result<Reply, Memory>
    requires { size_faults named.now.net ≡ [] }
    ensures { IfOk result (IsTextReply named.now (spelled_point bytes.now)) }
{
    match read_point(alloc, bytes) {
        Ok(values) => reply_to_values(alloc, named, values.as_slice()),
        Err(PointFault::Form(line)) => refused(alloc, "form", line),
        Err(PointFault::Memory) => Err(Memory),
    }
}

/// The reply to a list of values.
fn reply_to_values(alloc: Global, named: &NamedNet, values: &[i64]) -> Result<Reply, Memory>
    requires { size_faults named.now.net ≡ [] }
    ensures { IfOk result (IsValuesReply named.now (decoding.decoded named.now.net values.now)) }
{
    let program = compiled(alloc, named.net())?;
    match decode(alloc, named.net(), &program, values) {
        Ok(decoded) => reply_to_plan(alloc, named, &decoded),
        Err(Broken::Length(given)) => refused(alloc, "length", given),
        Err(Broken::Column(number)) => refused(alloc, "column", u64::from(number)),
        Err(Broken::Row(number)) => refused(alloc, "row", u64::from(number)),
        Err(Broken::Memory) => Err(Memory),
    }
}

/// The program of a network, which is not too large.
fn compiled(alloc: Global, net: &Net) -> Result<Program, Memory>
    requires valid { IsValid net.now }
    requires small { size_faults net.now ≡ [] }
    ensures { IfOk result (λ program. program ≡ program_of net.now) }
{
    match compile(alloc, net) {
        Ok(program) => Ok(program),
        Err(CompileFault::TooLarge(_)) => unreachable!(),
        Err(CompileFault::Memory) => Err(Memory),
    }
}

/// The reply to a plan: its delay and its text.
fn reply_to_plan(alloc: Global, named: &NamedNet, decoded: &Decoded) -> Result<Reply, Memory>
    requires { IsAdmissiblePlan named.now.net decoded.now.plan }
    ensures { IfOk result (IsPlanReply named.now decoded.now) }
{
    let text = plan_file::write_text(alloc, named, &decoded.plan)?;
    let lines = plan_lines(alloc, decoded.delay, text.as_str())?;
    Ok(Reply::printed(alloc, lines))
}

/// The delay of a plan, and its text.
#[tactic(auto, unfolding(crate::specs::PointLines::decoded_lines))]
fn plan_lines(alloc: Global, delay: u64, text: &str) -> Result<Text, AllocError>
    ensures { IfOk result (λ lines. lines ≡ point_lines.decoded_lines delay text.now) }
{
    Ok(Text::of(format!(in alloc; "point\ndelay {delay}\n{text}")?))
}

/// The reply to a file that is not that of an integer point: why, and the number that says where.
fn refused(alloc: Global, why: &str, number: u64) -> Result<Reply, Memory>
    ensures { IfOk result (λ reply. reply ≡ said.rejection (point_lines.refused_lines why.now number)) }
{
    let lines = refused_lines(alloc, why, number)?;
    Ok(Reply::rejection(alloc, lines))
}

/// Why a file is not that of an integer point, and where.
#[tactic(auto, unfolding(crate::specs::PointLines::refused_lines))]
fn refused_lines(alloc: Global, why: &str, number: u64) -> Result<Text, AllocError>
    ensures { IfOk result (λ lines. lines ≡ point_lines.refused_lines why.now number) }
{
    Ok(Text::of(format!(in alloc; "rejected\nwhy {why}\nat {number}\n")?))
}
