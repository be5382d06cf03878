//! A certificate, which is judged while it is read: each piece goes to the checker at once, and no piece is kept.

ghost use Rattle.std.specs.Prelude.{◌≡◌, ◌+◌, ◌<◌, ℤ, ◌≤ℤ◌, [], IfErr, IfOk, OnOk, Ok, length};
ghost use Rattle.ct_base.specs.Validity.{IsValid};
ghost use Rattle.ct_base.specs.declared.plan.Plan.{Plan};
ghost use Rattle.traffic_model.specs.Runs.{IsAdmissiblePlan};
ghost use Rattle.lo_program.specs.Compiled.{size_faults};
ghost use Rattle.certificate_model.specs.Leaves.{plan_delay};
ghost use Rattle.certificate_model.specs.declared.constants.TheConstants.{MAX_CERTIFICATE_BYTES};
ghost use Rattle.certificate_model.specs.declared.verdict.Verdict.TheVariants.{Accepted};
ghost use Rattle.cert_check.specs.Fed.{StandsFor};
ghost use Rattle.shelf_io.specs.Front.{EndsReading};
ghost use Rattle.signal_cli.specs.inner.Judgements.{FindsJudged, HasFed, HasRead, IsReading};
ghost use Rattle.signal_cli.specs.declared.certificate.Judgement.TheVariants.{Whole};

use crate::fault::Fault;
use cert_check::{Checker, Verdict};
use certificate_model::MAX_CERTIFICATE_BYTES;
use ct_base::{Memory, Net};
use lo_program::CompileFault;
use shelf_io::{ReadAll, Shelf};
use std::alloc::{AllocError, Global};

/// How many bytes are asked for at a time.
const PIECE: usize = 65_536;

/// What a file comes to as a certificate.
#[derive(Debug, Drop)]
pub enum Judgement {
    /// The verdict of all its bytes.
    Whole(Verdict),
    /// It has more bytes than are allowed, whatever they are.
    TooLong,
}

/// Judges what a file holds as a certificate, for a network whose program is not too large. Where it breaks it is still read to its
/// end, or past the limit: a file that is too long has no verdict.
pub fn judge_certificate<F: Shelf>(
    alloc: Global,
    shelf: &mut F,
    name: &str,
    net: &Net,
) -> Result<Judgement, Fault>
    requires valid { IsValid net.now }
    requires small { size_faults net.now ≡ [] }
    ensures found { FindsJudged net.now name.now result (F.state shelf.old) (F.state shelf.new) }
    ensures safe { (bound : ℤ) (plan : Plan) → result ≡ Ok (Whole (Accepted bound)) → IsAdmissiblePlan net.now plan → bound ≤ℤ plan_delay net.now plan }
{
    let mut checker = start(alloc, net)?;
    match feed_all(alloc, shelf, name, net, &mut checker) {
        Ok(()) => Ok(Judgement::Whole(checker.finish())),
        Err(ReadAll::TooLong) => Ok(Judgement::TooLong),
        Err(ReadAll::Fault) => Err(Fault::Read),
        Err(ReadAll::Memory) => Err(Fault::Memory),
    }
}

/// The checker of certificates of a network whose program is not too large, before the first byte.
fn start(alloc: Global, net: &Net) -> Result<Checker, Memory>
    requires valid { IsValid net.now }
    requires small { size_faults net.now ≡ [] }
    ensures { IfOk result (λ checker. StandsFor net.now checker []) }
{
    match Checker::start(alloc, net) {
        Ok(checker) => Ok(checker),
        Err(CompileFault::TooLarge(_)) => unreachable!(),
        Err(CompileFault::Memory) => Err(Memory),
    }
}

/// Feeds the checker a whole file of at most MAX_CERTIFICATE_BYTES bytes, 65,536 bytes at a time.
fn feed_all<F: Shelf>(
    alloc: Global,
    shelf: &mut F,
    name: &str,
    net: &Net,
    checker: &mut Checker,
) -> Result<(), ReadAll>
    requires valid { IsValid net.now }
    requires start { StandsFor net.now checker.old [] }
    ensures ok { OnOk result (HasRead net.now (F.state shelf.old).files name.now checker.new) }
    ensures same { OnOk result (F.state shelf.new ≡ F.state shelf.old) }
    ensures err { IfErr result (λ end. EndsReading end MAX_CERTIFICATE_BYTES (F.state shelf.old) name.now (F.state shelf.new)) }
{
    let mut room = zeros(alloc, PIECE)?;
    let buffer = room.as_mut_slice();
    'pieces: loop {
        let count = feed_piece(shelf, name, net, buffer, checker)?;
        if count == 0 {
            return Ok(());
        }
    }
}

/// So many zeros.
fn zeros(alloc: Global, count: usize) -> Result<Vec<u8>, AllocError>
    ensures { IfOk result (λ made. length made.items ≡ count) }
{
    vec![in alloc; 0; count]
}

/// Reads a piece where what the checker has taken ends, feeds it, and answers how many bytes it has: 0 only at the file's end. A
/// piece that makes the file too long is not fed.
fn feed_piece<F: Shelf>(
    shelf: &mut F,
    name: &str,
    net: &Net,
    buffer: &mut [u8],
    checker: &mut Checker,
) -> Result<usize, ReadAll>
    requires valid { IsValid net.now }
    requires room { 0 < length buffer.old }
    requires reading { IsReading net.now (F.state shelf.old).files name.now checker.old }
    ensures ok { IfOk result (λ k. HasFed net.now (F.state shelf.old).files name.now checker.old k checker.new) }
    ensures same { OnOk result (F.state shelf.new ≡ F.state shelf.old) }
    ensures err { IfErr result (λ end. EndsReading end MAX_CERTIFICATE_BYTES (F.state shelf.old) name.now (F.state shelf.new)) }
{
    let taken = checker.taken();
    let count = shelf.read(name, taken, buffer)?;
    if taken + count as u64 > MAX_CERTIFICATE_BYTES {
        return Err(ReadAll::TooLong);
    }
    match checker.feed(net, &buffer[..count]) {
        Ok(()) => Ok(count),
        Err(Memory) => Err(ReadAll::Memory),
    }
}
