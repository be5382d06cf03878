//! A link, as its table spells it.

ghost use Rattle.std.specs.Prelude.{◌≡◌, ◌≤◌, ◌++◌, length, map, codes, All, IfOk, OnOk};
ghost use Rattle.network_file.specs.Documents.{each_item, number_of, numbers_at, tables_among, tables_at};
ghost use Rattle.network_file.specs.inner.Judged.{HasFewRates};
ghost use Rattle.network_file.specs.Spelled.{link_of, piece_of, pieces_from, turn_of};
ghost use Rattle.toml.specs.View.{items_view, table_view};

use crate::document::{
    copy_text_at, item_number_at, items_at, number_at, number_of, some_numbers_at, some_text_at,
    texts_at,
};
use crate::raw::RawLink;
use ct_base::{Listed, Memory};
use demand::Piece;
use std::alloc::Global;
use texts::Name;
use toml::{Table, Value};

/// A branch, as its table spells it.
fn turn_of(alloc: Global, turn: &Table) -> Result<(Name, u32), Memory>
    ensures { IfOk result (λ made. made ≡ turn_of (table_view turn.now)) }
{
    let link = copy_text_at(alloc, turn, "link")?;
    Ok((link, number_at(turn, "parcel", 0)))
}

/// The branches of a link.
#[tactic(auto, using(crate::proofs::ItemLists::items))]
fn turns_of(alloc: Global, values: &[Value]) -> Result<Listed<(Name, u32)>, Memory>
    ensures { IfOk result (λ made. made ≡ map turn_of (tables_among (items_view values.now))) }
{
    let mut turns = Listed::new(alloc);
    for value in values {
        if let Some(turn) = value.as_table() {
            turns.push(turn_of(alloc, turn)?)?;
        }
    }
    Ok(turns)
}

/// A piece of demand, as its table spells it.
fn piece_of(piece: &Table) -> Piece
    ensures { result ≡ piece_of (table_view piece.now) }
{
    Piece {
        first: number_at(piece, "from", 0),
        until: number_at(piece, "until", 0),
        rate: number_at(piece, "rate", 0),
    }
}

/// Adds the pieces that are listed.
#[tactic(auto, using(crate::proofs::ItemLists::items))]
fn add_pieces(pieces: &mut Listed<Piece>, values: &[Value]) -> Result<(), Memory>
    ensures { OnOk result (pieces.new ≡ pieces.old ++ map piece_of (tables_among (items_view values.now))) }
{
    for value in values {
        if let Some(piece) = value.as_table() {
            pieces.push(piece_of(piece))?;
        }
    }
    Ok(())
}

/// Adds one piece for each rate: the first holds step 0, the next step 1.
#[tactic(auto, using(crate::proofs::Pieces::rates))]
fn add_rates(pieces: &mut Listed<Piece>, rates: &[Value]) -> Result<(), Memory>
    requires few { length rates.now ≤ 240 }
    ensures { OnOk result (pieces.new ≡ pieces.old ++ pieces_from 0 (each_item number_of (items_view rates.now))) }
{
    for (step, rate) in rates.iter().enumerate() {
        let first = step as u32;
        pieces.push(Piece {
            first,
            until: first + 1,
            rate: number_of(rate),
        })?;
    }
    Ok(())
}

/// The demand of a link: the pieces that it lists, and then one for each of its rates.
#[tactic(auto, using(crate::proofs::Pieces::parts))]
fn pieces_of(alloc: Global, link: &Table) -> Result<Listed<Piece>, Memory>
    requires few_rates { HasFewRates (table_view link.now) }
    ensures { IfOk result (λ made. made ≡ map piece_of (tables_at (codes "demand") (table_view link.now)) ++ pieces_from 0 (numbers_at (codes "rates") (table_view link.now))) }
{
    let mut pieces = Listed::new(alloc);
    add_pieces(&mut pieces, items_at(link, "demand"))?;
    add_rates(&mut pieces, items_at(link, "rates"))?;
    Ok(pieces)
}

/// A link, as its table spells it.
#[tactic(auto, using(crate::proofs::Pieces::parts), unfolding(crate::specs::Spelled::link_of))]
fn link_of(alloc: Global, link: &Table) -> Result<RawLink, Memory>
    requires few_rates { HasFewRates (table_view link.now) }
    ensures { IfOk result (λ made. made ≡ link_of (table_view link.now)) }
{
    let name = copy_text_at(alloc, link, "name")?;
    let to = some_text_at(alloc, link, "to")?;
    let turns = turns_of(alloc, items_at(link, "turns"))?;
    let signal = some_text_at(alloc, link, "signal")?;
    let greens = texts_at(alloc, link, "greens")?;
    let initial = some_numbers_at(alloc, link, "initial")?;
    let pieces = pieces_of(alloc, link)?;
    Ok(RawLink {
        name,
        cells: number_at(link, "cells", 1),
        cap: number_at(link, "cap", 0),
        store: number_at(link, "store", 0),
        wave_p: item_number_at(link, "wave", 0, 1),
        wave_q: item_number_at(link, "wave", 1, 1),
        to,
        turns,
        signal,
        greens,
        initial,
        pieces,
    })
}

/// The links.
pub fn links_of(alloc: Global, values: &[Value]) -> Result<Listed<RawLink>, Memory>
    requires few_rates { All HasFewRates (tables_among (items_view values.now)) }
    ensures { IfOk result (λ made. made ≡ map link_of (tables_among (items_view values.now))) }
{
    let mut links = Listed::new(alloc);
    for value in values {
        if let Some(link) = value.as_table() {
            links.push(link_of(alloc, link)?)?;
        }
    }
    Ok(links)
}
