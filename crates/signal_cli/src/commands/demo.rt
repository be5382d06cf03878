//! `demo NUMBER`: the whole way on a generated network, in memory: its text is read, its program made, a plan and a certificate of a bound
//! are searched, and the certificate's text is judged.

ghost use Rattle.std.specs.Prelude.{◌≡◌, ◌≤◌, ℕ, List, [], IfOk, OnOk, length, string_bytes};
ghost use Rattle.ct_base.specs.Validity.{IsValid};
ghost use Rattle.lo_program.specs.Compiled.{size_faults};
ghost use Rattle.program_model.specs.Points.{program_of};
ghost use Rattle.traffic_model.specs.Runs.{IsAdmissiblePlan};
ghost use Rattle.plan_file.specs.PlanText.{Spells};
ghost use Rattle.certificate_model.specs.Verdicts.{IsVerdict};
ghost use Rattle.certificate_model.specs.declared.verdict.Verdict.TheVariants.{Accepted};
ghost use Rattle.solve_core.specs.Solved.{IsSolved, solve_faults};
ghost use Rattle.signal_cli.specs.Answers.{DemoGives, IsDemoReply, demo_reply, solved_text};
ghost use Rattle.signal_cli.specs.DemoLines as said;
ghost use Rattle.signal_cli.specs.inner.Causes.{Makes};

use crate::commands::solve::search;
use crate::fault::Fault;
use crate::input::searchable_of;
use crate::reply::Reply;
use cert_check::{Verdict, verdict};
use ct_base::{Memory, Net, Text};
use generated_nets::generate;
use lo_program::{CompileFault, compile};
use named_net::NamedNet;
use plan_report::summary;
use solve_core::Solved;
use std::alloc::{AllocError, Global};

/// The most nodes of the search: enough for a plan that is improved, and quick on each of the networks.
const BUDGET: u32 = 9;

/// The lines and the plan's text of a search on a generated network. It makes no call on files.
pub fn demo(alloc: Global, number: u16) -> Result<Reply, Fault>
    requires { number ≤ 9999 }
    ensures { Makes (DemoGives number) result }
{
    let text = generate(alloc, number)?;
    let named = searchable_of(alloc, text, BUDGET)?;
    let reply = reply_with(alloc, number, &named)?;
    Ok(reply)
}

/// Searches, and judges the certificate of what was found.
fn reply_with(alloc: Global, number: u16, named: &NamedNet) -> Result<Reply, Memory>
    requires { solve_faults named.now.net BUDGET ≡ [] }
    ensures { IfOk result (IsDemoReply number named.now) }
{
    let solved = search(alloc, named.net(), BUDGET)?;
    judge(alloc, named.net(), &solved)?;
    let reply = reply_of(alloc, number, named, &solved)?;
    Ok(reply)
}

/// Writes the text of the certificate that was found and judges it. It is accepted.
fn judge(alloc: Global, net: &Net, solved: &Solved) -> Result<(), Memory>
    requires valid { IsValid net.now }
    requires small { size_faults net.now ≡ [] }
    requires solved { IsSolved net.now BUDGET solved.now }
    ensures { OnOk result (IsVerdict net.now (solved_text solved.now) (Accepted solved.now.cert.bound)) }
{
    let text = cert_format::write(alloc, &solved.cert)?;
    match verdict(alloc, net, text.as_slice()) {
        Ok(Verdict::Accepted(_)) => Ok(()),
        Ok(Verdict::Rejected { .. }) => unreachable!(),
        Err(CompileFault::TooLarge(_)) => unreachable!(),
        Err(CompileFault::Memory) => Err(Memory),
    }
}

/// The lines of a network and of what a search came to, and its plan's text.
fn reply_of(alloc: Global, number: u16, named: &NamedNet, solved: &Solved) -> Result<Reply, Memory>
    requires small { size_faults named.now.net ≡ [] }
    requires admissible { IsAdmissiblePlan named.now.net solved.now.plan }
    ensures { IfOk result (λ reply. (text : List ℕ) × Spells named.now text solved.now.plan × (reply ≡ demo_reply number named.now.net solved.now text)) }
{
    let plan = plan_file::write_text(alloc, named, &solved.plan)?;
    let lines = lines_of(alloc, number, named.net(), solved, plan.as_str())?;
    Ok(Reply::printed(alloc, lines))
}

/// The lines of a network and of what a search came to, and a plan's text behind them.
#[tactic(auto, unfolding(crate::specs::DemoLines::accepted_line))]
fn lines_of(
    alloc: Global,
    number: u16,
    net: &Net,
    solved: &Solved,
    plan: &str,
) -> Result<Text, Memory>
    requires valid { IsValid net.now }
    requires small { size_faults net.now ≡ [] }
    ensures { IfOk result (λ lines. lines ≡ (demo_reply number net.now solved.now plan.now).lines) }
{
    let mut lines = size_of(alloc, number, net)?;
    let search = summary(alloc, solved)?;
    lines.push_str(search.as_str())?;
    lines.push_str("check accepted\n")?;
    lines.push_str(plan)?;
    Ok(Text::of(lines))
}

/// Which network it is, and how many rows and columns its program has.
fn size_of(alloc: Global, number: u16, net: &Net) -> Result<String, Memory>
    requires valid { IsValid net.now }
    requires small { size_faults net.now ≡ [] }
    ensures { IfOk result (λ lines. string_bytes lines ≡ said.size_lines number (length (program_of net.now).rows) (length (program_of net.now).columns)) }
{
    match compile(alloc, net) {
        Ok(program) => Ok(size_lines(alloc, number, program.rows(), program.cols())?),
        Err(CompileFault::TooLarge(_)) => unreachable!(),
        Err(CompileFault::Memory) => Err(Memory),
    }
}

/// The lines of a network and of the size of its program.
#[tactic(auto, unfolding(crate::specs::DemoLines::size_lines))]
fn size_lines(alloc: Global, number: u16, rows: u32, columns: u32) -> Result<String, AllocError>
    ensures { IfOk result (λ lines. string_bytes lines ≡ said.size_lines number rows columns) }
{
    Ok(format!(in alloc; "demo {number}\nrows {rows}\ncolumns {columns}\n")?)
}
