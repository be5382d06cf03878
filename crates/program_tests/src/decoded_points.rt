//! Lists of values that are decoded to their plan, and what keeps others from being points. The lists come from texts, as those of
//! other programs would.

ghost use Rattle.std.specs.Prelude.{◌≡◌, IfOk};
ghost use Rattle.ct_base.specs.Validity.{IsValid};
ghost use Rattle.program_model.specs.Points.{program_of};

use crate::networks::{crossing, one_cell};
use ct_base::{Net, valid};
use lo_program::{CompileFault, compile};
use point_decode::{Broken, decode};
use program_text::read_point;
use sparse_program::Program;
use std::alloc::Global;
use std::test::Fail;

/// The program of a network.
fn program(alloc: Global, net: &Net) -> Result<Program, CompileFault>
    requires { IsValid net.now }
    ensures { IfOk result (λ program. program ≡ program_of net.now) }
{
    compile(alloc, net)
}

/// What the values of a text are decoded to.
fn answer(alloc: Global, net: &Net, program: &Program, text: &str) -> Result<String, Fail>
    requires valid { IsValid net.now }
    requires program { program.now ≡ program_of net.now }
{
    let point = read_point(alloc, text.as_bytes()).map_err(|_| "no point")?;
    let answer = decode(alloc, net, program, point.as_slice());
    Ok(format!(in alloc; "{answer:?}")?)
}

/// One cell with 3 units over one step, of which 2 may leave: its only point, then a value outside its column's bounds, a flow
/// below what may leave, and the switch of the term that is not the first least one.
const ONE_CELL: [(&str, &str); 6] = [
    (
        "ctm-point 1\n3\n2\n1\n0\nend\n",
        "Ok(Decoded { plan: Plan { words: Listed { items: [] } }, delay: 1 })",
    ),
    (
        "ctm-point 1\n999999999999999\n2\n1\n0\nend\n",
        "Err(Column(0))",
    ),
    ("ctm-point 1\n3\n-1\n1\n0\nend\n", "Err(Column(1))"),
    ("ctm-point 1\n3\n1\n1\n0\nend\n", "Err(Row(3))"),
    ("ctm-point 1\n3\n1\n0\n1\nend\n", "Err(Row(4))"),
    ("ctm-point 1\n3\n2\n1\n0\n0\nend\n", "Err(Length(5))"),
];

/// The plan of the crossing whose point comes first, and its delay.
const TURNS: &str = "Ok(Decoded { plan: Plan { words: Listed { items: [\
    Listed { items: [Green(0), Green(1), Green(0)] }] } }, delay: 1 })";

/// The crossing: the values of the plan columns, and those of the first cell in the first step. First the point of a plan; then the
/// switch of another term, which is not above the first one; a bit of 2; a value too few; a green of three steps; and two letters
/// in the last step.
const CROSSING: [(&str, &str, &str); 6] = [
    ("1\n0\n0\n1\n1\n0\n", "1\n1\n1\n0\n0\n", TURNS),
    ("1\n0\n0\n1\n1\n0\n", "1\n1\n0\n1\n0\n", "Err(Row(10))"),
    ("1\n0\n2\n1\n1\n0\n", "1\n1\n1\n0\n0\n", "Err(Column(2))"),
    ("1\n0\n0\n1\n1\n", "1\n1\n1\n0\n0\n", "Err(Length(47))"),
    ("1\n0\n1\n0\n1\n0\n", "1\n1\n1\n0\n0\n", "Err(Row(3))"),
    ("1\n0\n0\n1\n1\n1\n", "1\n1\n1\n0\n0\n", "Err(Row(8))"),
];

/// The values of the cells behind the first one, and of the further steps.
const REST: &str = "1\n0\n1\n0\n0\n0\n0\n0\n1\n\
    0\n0\n1\n0\n0\n1\n1\n1\n0\n0\n1\n1\n1\n0\n\
    0\n0\n0\n1\n0\n0\n0\n1\n0\n0\n1\n1\n1\n0\nend\n";

#[test]
fn the_point_of_one_cell_is_decoded(rt: HostRuntime) -> Result<(), Fail> {
    let alloc = rt.alloc();
    let net = one_cell(alloc)?;
    assert!(rt; valid(&net));
    let program = program(alloc, &net).map_err(|_| "no program")?;
    for (text, wanted) in &ONE_CELL {
        let answer = answer(alloc, &net, &program, text)?;
        assert_eq!(rt; answer.as_str(), *wanted);
    }
    Ok(())
}

#[test]
fn points_of_the_crossing_are_decoded(rt: HostRuntime) -> Result<(), Fail> {
    let alloc = rt.alloc();
    let net = crossing(alloc)?;
    assert!(rt; valid(&net));
    let program = program(alloc, &net).map_err(|_| "no program")?;
    for (bits, cell, wanted) in &CROSSING {
        let text = format!(in alloc; "ctm-point 1\n{bits}{cell}{REST}")?;
        let answer = answer(alloc, &net, &program, text.as_str())?;
        assert_eq!(rt; answer.as_str(), *wanted);
    }
    Ok(())
}

#[test]
fn what_breaks_a_list_is_a_sentence(rt: HostRuntime) -> Result<(), Fail> {
    let cases = [
        (
            Broken::Length(47),
            "there are 47 values, and not one for each column",
        ),
        (
            Broken::Column(2),
            "the value of column 2 is outside its bounds",
        ),
        (Broken::Row(10), "row 10 is not met"),
        (Broken::Memory, "there was not enough memory"),
    ];
    for (broken, sentence) in &cases {
        assert_eq!(rt; format!(in rt.alloc(); "{broken}")?.as_str(), *sentence);
    }
    Ok(())
}
