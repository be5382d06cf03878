//! The parts, as the words name them.

ghost use Rattle.ct_base.specs.Validity.{IsValid};

use crate::ascents::ascend;
use crate::changes::{change_at_random, sweep};
use crate::fault::Fault;
use crate::kept::{is_right, kept_of};
use crate::moves::move_along;
use crate::plans::{climb, replay_from, round_plans};
use ct_base::Net;
use lo_program::compile;
use std::alloc::Global;

/// A part of a search, with the number behind its name.
#[derive(Clone, Copy)]
pub enum Part {
    /// So many changes of prices, at random.
    Changes(u32),
    /// So many times each price is raised and taken back.
    Sweeps(u32),
    /// So many ascents, of prices that were changed at random.
    Ascents(u32),
    /// A box is moved a thousand times along a path of so many splits, down and up.
    Moves(u32),
    /// A plan is replayed a hundred times from a step on.
    Replays(u32),
    /// A climb of so many tries.
    Climb(u32),
    /// A rounding of no point, whatever the number.
    Round(u32),
}

/// The part that two words name.
pub fn read(name: &String, count: Option<&String>) -> Result<Part, Fault> {
    let count = match count {
        Some(count) => count,
        None => return Err(Fault::Words),
    };
    let count = match count.as_str().parse::<u32>() {
        Ok(count) => count,
        Err(_) => return Err(Fault::Words),
    };
    match name.as_str() {
        "changes" => Ok(Part::Changes(count)),
        "sweeps" => Ok(Part::Sweeps(count)),
        "ascents" => Ok(Part::Ascents(count)),
        "moves" => Ok(Part::Moves(count)),
        "replays" => Ok(Part::Replays(count)),
        "climb" => Ok(Part::Climb(count)),
        "round" => Ok(Part::Round(count)),
        _ => Err(Fault::Words),
    }
}

impl Part {
    /// Does the part, and says in a line what came of it.
    pub fn line(self, alloc: Global, net: &Net) -> Result<String, Fault>
        requires { IsValid net.now }
    {
        match self {
            Part::Replays(first) => told(alloc, "replays", first, replay_from(alloc, net, first)?),
            Part::Climb(tries) => {
                let (delay, again) = climb(alloc, net, tries)?;
                Ok(format!(in alloc; "climb {tries}: delay {delay}, replayed {again}")?)
            }
            Part::Round(_) => {
                let (delay, again) = round_plans(alloc, net)?;
                Ok(format!(in alloc; "round: delay {delay}, replayed {again}")?)
            }
            _ => self.priced_line(alloc, net),
        }
    }

    /// The same for a part that has prices.
    fn priced_line(self, alloc: Global, net: &Net) -> Result<String, Fault>
        requires { IsValid net.now }
    {
        let program = compile(alloc, net)?;
        let mut kept = kept_of(alloc, net, &program)?;
        match self {
            Part::Changes(count) => {
                change_at_random(&program, &mut kept, count);
                told(alloc, "changes", count, is_right(&program, &kept))
            }
            Part::Sweeps(count) => {
                sweep(&program, &mut kept, count);
                told(alloc, "sweeps", count, is_right(&program, &kept))
            }
            Part::Ascents(count) => {
                let settled = ascend(alloc, &program, &mut kept, count)?;
                let is_right = is_right(&program, &kept);
                Ok(format!(in alloc; "ascents {count}: settled {settled}, right {is_right}")?)
            }
            Part::Moves(splits) => told(
                alloc,
                "moves",
                splits,
                move_along(alloc, net, &program, splits)?,
            ),
            _ => Err(Fault::Words),
        }
    }
}

/// The line of a part.
fn told(alloc: Global, name: &str, count: u32, is_right: bool) -> Result<String, Fault> {
    Ok(format!(in alloc; "{name} {count}: right {is_right}")?)
}
