//! Terms of a move.

ghost use Rattle.std.specs.Prelude.{◌≡◌, pos, ◌≤ℤ◌, IfOk};
ghost use Rattle.std.specs.Option.{option_copied};
ghost use Rattle.flow_switches.specs.Sums.{cap_term, term_of};

use crate::sums::each;
use listed::Memory;
use sparse_program::{Linear, Terms};
use std::alloc::Global;

/// A term of a move: a linear expression, and the most that it comes to, in units.
#[derive(Debug, Drop)]
pub struct Term {
    pub of: Linear,
    pub most: i64,
}

/// The term of a cap: the cap alone, or with a gate the cap times the sum of the gate's columns.
pub fn capped(alloc: Global, cap: i64, gate: Option<&[u32]>) -> Result<Term, Memory>
    requires { pos 0 ≤ℤ cap }
    ensures value { IfOk result (λ term. term_of term ≡ cap_term cap (option_copied gate.entry)) }
    ensures most { IfOk result (λ term. term.most ≡ cap) }
{
    let of = match gate {
        None => Linear {
            constant: cap,
            terms: Terms::new(alloc),
        },
        Some(columns) => Linear {
            constant: 0,
            terms: each(alloc, columns, cap)?,
        },
    };
    Ok(Term { of, most: cap })
}
