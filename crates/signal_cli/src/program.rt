//! The program around the top call: from what the host gives as arguments to the status that the program ends with.

ghost use Rattle.std.specs.Prelude.{◌≡◌, ◌⊎◌, [], IfErr, IfOk, None, OnErr, drop, map, string_bytes};
ghost use Rattle.std.specs.Process.{exit_status};
ghost use Rattle.std.specs.Vec.Iter.{into_iter_items};
ghost use Rattle.std.specs.IoError.{error_kind};
ghost use Rattle.signal_cli.specs.Accepted.{IsExact};
ghost use Rattle.signal_cli.specs.Commands.{command_of};
ghost use Rattle.signal_cli.specs.Program.{EndsAtOnce};
ghost use Rattle.signal_cli.specs.Promises.{Keeps};
ghost use Rattle.signal_cli.specs.Sound.{IsSound};
ghost use Rattle.signal_cli.specs.Worlds.{world};

use crate::top_call::run;
use shelf_io::{Listed, Memory, Shelf, Sink, Text, Words};
use std::alloc::Global;
use std::env::Args;
use std::io;
use std::io::ErrorKind;
use std::process::ExitCode;

/// The status where memory is wanting before the words are known. Nothing is printed then.
const WANT_OF_MEMORY: u8 = 8;

/// Runs the program on what the host gives as its arguments, of which the first is its name, and answers the status that it
/// ends with.
#[tactic(auto, using(crate::proofs::BoundPromises::sound_at_8, crate::proofs::BoundPromises::exact_at_8))]
pub fn planner<F: Shelf, K: Sink>(
    alloc: Global,
    args: io::Result<Args>,
    shelf: &mut F,
    out: &mut K,
) -> ExitCode
    ensures words { IfOk args (λ args. Keeps (command_of (map string_bytes (drop 1 (into_iter_items args)))) (world (F.state shelf.old) (K.state out.old)) (world (F.state shelf.new) (K.state out.new)) (exit_status result)
        ⊎ EndsAtOnce (world (F.state shelf.old) (K.state out.old)) (world (F.state shelf.new) (K.state out.new)) (exit_status result)) }
    ensures no_words { IfErr args (λ error. Keeps None (world (F.state shelf.old) (K.state out.old)) (world (F.state shelf.new) (K.state out.new)) (exit_status result)
        ⊎ ((error_kind error ≡ ErrorKind.OutOfMemory) × EndsAtOnce (world (F.state shelf.old) (K.state out.old)) (world (F.state shelf.new) (K.state out.new)) (exit_status result))) }
    ensures sound { IfOk args (λ args. IsSound (command_of (map string_bytes (drop 1 (into_iter_items args)))) (world (F.state shelf.old) (K.state out.old)) (world (F.state shelf.new) (K.state out.new)) (exit_status result)) }
    ensures exact { IfOk args (λ args. IsExact (command_of (map string_bytes (drop 1 (into_iter_items args)))) (world (F.state shelf.old) (K.state out.old)) (world (F.state shelf.new) (K.state out.new)) (exit_status result)) }
{
    let status = match words_of(alloc, args) {
        Ok(words) => run(alloc, &words, shelf, out),
        Err(_) => WANT_OF_MEMORY,
    };
    ExitCode::from(status)
}

/// The words after the program's name. Where the host does not give them, as for a word that is not UTF-8, there are none.
fn words_of(alloc: Global, args: io::Result<Args>) -> Result<Words, Memory>
    ensures words { IfOk result (λ words. IfOk args (λ args. words ≡ map string_bytes (drop 1 (into_iter_items args)))) }
    ensures no_words { IfOk result (λ words. IfErr args (λ error. words ≡ [])) }
    ensures memory { OnErr result (IfErr args (λ error. error_kind error ≡ ErrorKind.OutOfMemory)) }
{
    match args {
        Ok(args) => words_behind(alloc, args),
        Err(error) if error.kind() == ErrorKind::OutOfMemory => Err(Memory),
        Err(_) => Ok(Listed::new(alloc)),
    }
}

/// The arguments behind the first.
fn words_behind(alloc: Global, mut args: Args) -> Result<Words, Memory>
    ensures { IfOk result (λ words. words ≡ map string_bytes (drop 1 (into_iter_items args))) }
{
    let _name = args.next();
    let mut words = Listed::new(alloc);
    'words: while let Some(word) = args.next() {
        words.push(Text::of(word))?;
    }
    Ok(words)
}
