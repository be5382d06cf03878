//! The top call: what a run of the program promises, from the words and the bytes of the files to the written files, the
//! printed lines and the status.

ghost use Rattle.signal_cli.specs.Accepted.{IsExact};
ghost use Rattle.signal_cli.specs.Commands.{command_of};
ghost use Rattle.signal_cli.specs.Promises.{Keeps};
ghost use Rattle.signal_cli.specs.Sound.{IsSound};
ghost use Rattle.signal_cli.specs.Worlds.{world};

use crate::command::parse;
use crate::commands::answer;
use crate::output::{carry_out, put_words};
use shelf_io::{Shelf, Sink, Words};
use std::alloc::Global;

/// Runs the command that the words name, and answers the program's status.
#[tactic(auto, unfolding(crate::specs::Accepted::IsExact))]
pub fn run<F: Shelf, K: Sink>(alloc: Global, words: &Words, shelf: &mut F, out: &mut K) -> u8
    ensures keeps { Keeps (command_of words.now) (world (F.state shelf.old) (K.state out.old)) (world (F.state shelf.new) (K.state out.new)) result }
    ensures sound { IsSound (command_of words.now) (world (F.state shelf.old) (K.state out.old)) (world (F.state shelf.new) (K.state out.new)) result }
    ensures exact { IsExact (command_of words.now) (world (F.state shelf.old) (K.state out.old)) (world (F.state shelf.new) (K.state out.new)) result }
{
    match parse(words) {
        Some(command) => {
            let found = answer(alloc, command, shelf);
            carry_out(alloc, shelf, out, found)
        }
        None => put_words(out),
    }
}
