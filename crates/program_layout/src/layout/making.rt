//! How the layout of a network is worked out: the columns before each signal and each cell are added up in one pass.

ghost use Rattle.std.specs.Prelude.{◌≡◌, ◌==◌, ◌+◌, ◌*◌, ◌<◌, ◌≤◌, ℕ, nat_lt, if◌then◌else◌, IfOk, length, [], ◌∷◌};
ghost use Rattle.std.specs.List.{list_any};
ghost use Rattle.listed.specs.Below.{table_of};
ghost use Rattle.ct_base.specs.Access.{cell_of, phase_of, targets};
ghost use Rattle.ct_base.specs.Validity.{IsSignal, IsSplit, IsValid};
ghost use Rattle.program_layout.specs.Layout.{IsLayout};
ghost use Rattle.program_model.specs.Columns.{columns_of_branches, columns_of_cell, columns_of_split, has_room, is_led_into, letters_by, letters_of, term_count};
ghost use Rattle.program_model.specs.Numbers.{bits_before, bits_of_step, cells_before};

use super::Layout;
use ct_base::{Cell, Listed, Memory, Net, Out, Signal};
use std::alloc::Global;

/// The columns of a step before each part, and those of all parts.
#[derive(Drop)]
struct Starts {
    before: Listed<u32>,
    all: u32,
}

/// Where the columns of a network stand.
pub fn layout_of(alloc: Global, net: &Net) -> Result<Layout, Memory>
    requires { IsValid net.now }
    ensures { IfOk result (IsLayout net.now) }
{
    let rooms = rooms_of(alloc, net.cells.as_slice())?;
    let bits = bits_of_signals(alloc, net)?;
    let cells = columns_of_cells(alloc, net, rooms.as_slice())?;
    Ok(Layout {
        plan: net.steps * bits.all,
        bits_of_step: bits.all,
        bits_before: bits.before,
        cells_of_step: cells.all,
        cells_before: cells.before,
        rooms,
    })
}

/// For each cell whether the units that it has room for are a column.
fn rooms_of(alloc: Global, cells: &[Cell]) -> Result<Listed<bool>, Memory>
    ensures { IfOk result (λ rooms. rooms ≡ table_of (length cells.now) (has_room cells.now)) }
{
    let mut rooms = Listed::new(alloc);
    for i in 0..cells.len() {
        rooms.push(is_room_column(cells, i))?;
    }
    Ok(rooms)
}

/// Whether the units that cell i has room for are a column.
pub fn is_room_column(cells: &[Cell], i: usize) -> bool
    requires inside { i < length cells.now }
    ensures { result ≡ has_room cells.now i }
{
    1 < cells[i].wave_q && is_led_into(cells, i)
}

/// Whether some move leads into cell i.
fn is_led_into(cells: &[Cell], i: usize) -> bool
    ensures { result ≡ is_led_into cells.now i }
{
    cells.iter().any(|cell| leads_into(&cell.out, i))
}

/// Whether a move leads into cell i.
fn leads_into(out: &Out, i: usize) -> bool
    ensures { result ≡ list_any (λ target. target == i) (targets out.now) }
{
    match out {
        Out::Exit => false,
        Out::To(target) => is_cell(*target, i),
        Out::Turns(turns) => turn_into(turns.as_slice(), i),
    }
}

/// Whether the number is that of cell i.
fn is_cell(target: u32, i: usize) -> bool
    ensures { result ≡ list_any (λ target. target == i) (target ∷ []) }
{
    target as usize == i
}

/// Whether some branch leads into cell i.
fn turn_into(turns: &[(u32, u32)], i: usize) -> bool
    ensures { result ≡ list_any (λ (turn : ℕ × ℕ). turn.0 == i) turns.now }
{
    turns.iter().any(|turn| turn.0 as usize == i)
}

/// The bits of a step before each signal, and all of them.
fn bits_of_signals(alloc: Global, net: &Net) -> Result<Starts, Memory>
    requires { IsValid net.now }
    ensures before { IfOk result (λ starts. starts.before ≡ table_of (length net.now.signals) (bits_before net.now.signals)) }
    ensures all { IfOk result (λ starts. starts.all ≡ bits_of_step net.now.signals) }
{
    let mut before = Listed::new(alloc);
    let mut all = 0;
    for s in 0..net.signals.len() {
        before.push(all)?;
        all += bits_of_signal(net.signal(s));
    }
    Ok(Starts { before, all })
}

/// How many letters a signal has.
fn bits_of_signal(signal: &Signal) -> u32
    requires { IsSignal signal.now }
    ensures value { result ≡ length (letters_of signal.now) }
    ensures few { result ≤ 16 }
{
    let mut bits = 0;
    for p in 0..signal.phases.len() {
        bits += letters_by(signal, p);
    }
    bits
}

/// How many letters phase p brings.
pub fn letters_by(signal: &Signal, p: usize) -> u32
    requires inside { p < length signal.now.phases }
    ensures value { result ≡ length (letters_by p (phase_of signal.now p).clear) }
    ensures few { result ≤ 2 }
{
    if signal.phases.as_slice()[p].clear == 0 {
        1
    } else {
        2
    }
}

/// The columns of a step before each cell, and all of them.
fn columns_of_cells(alloc: Global, net: &Net, rooms: &[bool]) -> Result<Starts, Memory>
    requires valid { IsValid net.now }
    requires rooms { rooms.now ≡ table_of (length net.now.cells) (has_room net.now.cells) }
    ensures before { IfOk result (λ starts. starts.before ≡ table_of (length net.now.cells) (cells_before net.now.cells)) }
    ensures all { IfOk result (λ starts. starts.all ≡ cells_before net.now.cells (length net.now.cells)) }
{
    let mut before = Listed::new(alloc);
    let mut all = 0;
    for i in 0..net.cells.len() {
        before.push(all)?;
        all += columns_of_cell(net, i, rooms[i]);
    }
    Ok(Starts { before, all })
}

/// How many columns cell i has at a step.
fn columns_of_cell(net: &Net, i: usize, room: bool) -> u32
    requires valid { IsValid net.now }
    requires inside { i < length net.now.cells }
    requires room { room ≡ has_room net.now.cells i }
    ensures value { result ≡ length (columns_of_cell net.now.cells 0 i) }
    ensures few { result ≤ 20 }
{
    let out = &net.cell(i).out;
    after_room(room) + columns_of_split(out) + 1 + term_count(out)
}

/// How many columns of a cell come before those of its split: its units, and its room where that is a column.
pub fn after_room(room: bool) -> u32
    ensures value { result ≡ (if room then 3 else 1) }
    ensures few { result ≤ 3 }
{
    if room { 3 } else { 1 }
}

/// How many columns a diverge has for its parcels and branches; another move has none.
pub fn columns_of_split(out: &Out) -> u32
    requires { IsSplit out.now }
    ensures value { result ≡ length (columns_of_split 0 0 out.now) }
    ensures few { result ≤ 10 }
{
    match out {
        Out::Exit => 0,
        Out::To(_) => 0,
        Out::Turns(turns) => 2 + columns_of_branches(0, turns.as_slice()),
    }
}

/// How many columns branches have, of which the first has number k.
fn columns_of_branches(k: u32, turns: &[(u32, u32)]) -> u32
    requires { k + length turns.now ≤ 4 }
    ensures value { result ≡ length (columns_of_branches 0 0 k turns.now) }
    ensures few { result ≤ 2 * length turns.now }
{
    match turns {
        [] => 0,
        [turn, more @ ..] => columns_of_branch(turn.1) + columns_of_branches(k + 1, more),
    }
}

/// How many columns a branch has whose parcel has so many units.
pub fn columns_of_branch(units: u32) -> u32
    ensures value { result ≡ (if nat_lt 1 units then 2 else 0) }
    ensures few { result ≤ 2 }
{
    if 1 < units { 2 } else { 0 }
}

/// How many terms a move has.
pub fn term_count(out: &Out) -> u32
    requires { IsSplit out.now }
    ensures value { result ≡ term_count out.now }
    ensures few { result ≤ 6 }
{
    match out {
        Out::Exit => 2,
        Out::To(_) => 3,
        Out::Turns(turns) => 2 + turns.len() as u32,
    }
}
