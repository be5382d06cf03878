//! From bits to the plan.

ghost use Rattle.std.specs.Prelude.{◌≡◌, ◌≢◌, List, None, Ok, IfOk, IfSome, length};
ghost use Rattle.ct_base.specs.Validity.{IsValid};
ghost use Rattle.ct_base.specs.declared.plan.Letter as declared_letter;
ghost use Rattle.ct_base.specs.declared.plan.Plan as declared;
ghost use Rattle.traffic_model.specs.Runs.{IsAdmissiblePlan};
ghost use Rattle.plan_bits.specs.inner.Parts.{AreWordsOfBits};
ghost use Rattle.program_model.specs.Numbers.{plan_count};
ghost use Rattle.certificate_model.specs.Leaves.{bits_of};

use crate::letter::letters_of;
use crate::word::word_of_bits;
use ct_base::{Listed, Memory, Net, Plan, Word};
use std::alloc::Global;

/// The admissible plan whose bits the values of the plan columns are, or none where they are those of no admissible plan.
pub fn plan_of_bits(alloc: Global, net: &Net, bits: &[i64]) -> Result<Option<Plan>, Memory>
    requires valid { IsValid net.now }
    requires columns { length bits.now ≡ plan_count net.now }
    ensures admissible { IfOk result (λ found. IfSome found (IsAdmissiblePlan net.now)) }
    ensures bits { IfOk result (λ found. IfSome found (λ plan. bits.now ≡ bits_of net.now plan.words)) }
    ensures none { result ≡ Ok None → (plan : declared.Plan) → IsAdmissiblePlan net.now plan → bits.now ≢ bits_of net.now plan.words }
{
    match words_of_bits(alloc, net, bits)? {
        Some(words) => Ok(Some(Plan { words })),
        None => Ok(None),
    }
}

/// The words of the signals, one after the other.
fn words_of_bits(alloc: Global, net: &Net, bits: &[i64]) -> Result<Option<Listed<Word>>, Memory>
    requires valid { IsValid net.now }
    requires columns { length bits.now ≡ plan_count net.now }
    ensures words { IfOk result (λ found. IfSome found (AreWordsOfBits net.now bits.now (length net.now.signals))) }
    ensures none { result ≡ Ok None → (words : List (List declared_letter.Letter)) → AreWordsOfBits net.now bits.now (length net.now.signals) words → ⊥ }
{
    let mut words = Listed::new(alloc);
    let mut first = 0;
    for number in 0..net.signals.len() {
        let letters = letters_of(alloc, net.signal(number))?;
        match word_of_bits(alloc, net, number, letters.as_slice(), first, bits)? {
            Some(word) => words.push(word)?,
            None => return Ok(None),
        }
        first += letters.len();
    }
    Ok(Some(words))
}
