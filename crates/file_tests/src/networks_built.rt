//! Networks that are built and compared whole, with numbers worked by hand.

ghost use Rattle.std.specs.Prelude.{◌<◌, length};

use cell_build::{BuildFault, DemandFault, NamedNet, PhaseAt, build};
use ct_base::{Cell, Kind, Out, Signal};
use network_file::read;
use std::alloc::{AllocError, Global};
use std::process::Abort;
use std::test::Fail;

/// Where a cell leads, in words.
fn leads(alloc: Global, out: &Out) -> Result<String, AllocError> {
    match out {
        Out::Exit => format!(in alloc; "out"),
        Out::To(target) => format!(in alloc; "to {target}"),
        Out::Turns(turns) => {
            let turns = turns.as_slice();
            format!(in alloc; "split {turns:?}")
        }
    }
}

/// What a cell is, in words.
fn cell_in_words(alloc: Global, cell: &Cell) -> Result<String, AllocError> {
    let kind = match cell.kind {
        Kind::Queue => "queue",
        Kind::Road => "road",
    };
    let gate = match &cell.gate {
        Some(gate) => format!(in alloc; "{}:{}", gate.signal, gate.greens)?,
        None => format!(in alloc; "open")?,
    };
    let leads = leads(alloc, &cell.out)?;
    let demand = cell.demand.as_slice();
    format!(in alloc;
        "{kind} {} {} {}/{} {} {demand:?} {} {}\n",
        cell.cap,
        cell.store,
        cell.wave_p,
        cell.wave_q,
        cell.initial,
        gate.as_str(),
        leads.as_str()
    )
}

/// What a signal is, in words.
fn signal_in_words(alloc: Global, signal: &Signal) -> Result<String, AllocError> {
    let mut words = format!(in alloc; "signal {}", signal.start)?;
    for phase in signal.phases.as_slice() {
        let word = format!(in alloc;
            " {}-{}+{}>{}",
            phase.min, phase.max, phase.clear, phase.next
        )?;
        words.push_str(word.as_str())?;
    }
    words.push_str("\n")?;
    Ok(words)
}

/// What a network is, in words: a line a cell, and a line a signal.
fn net_in_words(alloc: Global, named: &NamedNet) -> Result<String, AllocError> {
    let mut lines = format!(in alloc; "{} steps\n", named.net().steps)?;
    for cell in named.net().cells.as_slice() {
        lines.push_str(cell_in_words(alloc, cell)?.as_str())?;
    }
    for signal in named.net().signals.as_slice() {
        lines.push_str(signal_in_words(alloc, signal)?.as_str())?;
    }
    Ok(lines)
}

/// The name of the link of a cell, and the cell's place in the link.
fn place_in_words(alloc: Global, named: &NamedNet, cell: u32) -> Result<String, AllocError>
    requires { cell < length named.now.net.cells }
{
    let names = named.names();
    let link = names.link_of(cell);
    match names.place_of(cell) {
        Some(road) => format!(in alloc; "{link} {road};"),
        None => format!(in alloc; "{link} queue;"),
    }
}

/// The places of all cells, in words.
fn places_in_words(alloc: Global, named: &NamedNet) -> Result<String, AllocError> {
    let mut words = String::new(alloc);
    for cell in 0..named.net().cells.len() {
        words.push_str(place_in_words(alloc, named, cell as u32)?.as_str())?;
    }
    Ok(words)
}

/// Two arms that meet behind a signal. The one begins with a queue, and the other has two cells with a unit on the first.
const CROSSING: &str = "format = 1\nsteps = 3\n\
    [[signal]]\nname = \"lights\"\nstart = \"ns\"\n\
    [[signal.phase]]\nname = \"ew\"\nmin = 1\nmax = 2\nclear = 1\nnext = [\"ns\"]\n\
    [[signal.phase]]\nname = \"ns\"\nmin = 1\nmax = 3\nclear = 0\nnext = [\"ew\"]\n\
    [[link]]\nname = \"west\"\ncap = 2\nstore = 4\nto = \"out\"\nsignal = \"lights\"\ngreens = [\"ew\"]\nrates = [2, 2]\n\
    [[link]]\nname = \"south\"\ncells = 2\ncap = 2\nstore = 4\nto = \"out\"\nsignal = \"lights\"\ngreens = [\"ns\"]\ninitial = [1, 0]\n\
    [[link]]\nname = \"out\"\ncap = 1\nstore = 2\nwave = [1, 2]\n";

/// The cells and the signal that it becomes, worked by hand.
const CROSSING_IN_WORDS: &str = "3 steps\n\
    queue 2 0 1/1 0 [2, 2, 0] open to 1\n\
    road 2 4 1/1 0 [] 0:1 to 4\n\
    road 2 4 1/1 1 [] open to 3\n\
    road 2 4 1/1 0 [] 0:2 to 4\n\
    road 1 2 1/2 0 [] open out\n\
    signal 1 1-2+1>2 1-3+0>1\n";

/// The network that it becomes.
fn crossing(alloc: Global) -> Result<NamedNet, Fail> {
    let raw = read(alloc, CROSSING.as_bytes()).map_err(|_| "not read")?;
    let named = build(alloc, raw).map_err(|_| "refused")?;
    Ok(named)
}

/// The signal and its phases have their names.
fn try_names(rt: &impl Abort, named: &NamedNet) {
    assert_eq!(rt; named.net().signals.len(), 1);
    let names = named.names();
    assert_eq!(rt; names.signal(0), "lights");
    assert_eq!(rt; names.phase_named(0, b"ns"), Some(1));
    assert_eq!(rt; names.phase_named(0, b"out"), None);
    assert_eq!(rt; named.net().signals.as_slice()[0].phases.len(), 2);
    assert_eq!(rt; names.phase(0, 0), "ew");
    assert_eq!(rt; names.phase(0, 1), "ns");
}

#[test]
fn two_arms_meet_behind_a_signal(rt: HostRuntime) -> Result<(), Fail> {
    let alloc = rt.alloc();
    let named = crossing(alloc)?;
    assert_eq!(rt; net_in_words(alloc, &named)?.as_str(), CROSSING_IN_WORDS);
    assert_eq!(rt;
        places_in_words(alloc, &named)?.as_str(),
        "west queue;west 0;south 0;south 1;out 0;"
    );
    try_names(&rt, &named);
    Ok(())
}

#[test]
fn the_first_fault_is_told(rt: HostRuntime) -> Result<(), Fail> {
    let text = "format = 1\nsteps = 3\n\
        [[link]]\nname = \"a\"\ncap = 2\nstore = 4\nto = \"b\"\nrates = [2, 2]\n\
        [[link]]\nname = \"b\"\ncap = 1\nstore = 2\nto = \"b\"\n";
    let raw = read(rt.alloc(), text.as_bytes()).map_err(|_| "not read")?;
    let fault = build(rt.alloc(), raw).err();
    assert_eq!(rt; fault, Some(BuildFault::Itself { link: 1 }));
    Ok(())
}

/// Faults with the sentences that they are shown by.
const SENTENCES: [(BuildFault, &str); 5] = [
    (
        BuildFault::UnknownPhase {
            at: PhaseAt::Green(3, 1),
        },
        "green 1 of link 3 is no phase of its signal",
    ),
    (
        BuildFault::UnknownPhase {
            at: PhaseAt::Next(0, 2, 5),
        },
        "follower 5 of phase 2 of signal 0 is no phase of its signal",
    ),
    (BuildFault::Itself { link: 7 }, "link 7 leads to itself"),
    (
        BuildFault::Cells { count: 257 },
        "there are 257 cells, and at most 256 may be",
    ),
    (
        BuildFault::Demand {
            link: 2,
            fault: DemandFault::Heavy { step: 9 },
        },
        "the demand of link 2: more than 1000 units arrive in step 9",
    ),
];

#[test]
fn a_fault_is_shown_by_a_sentence(rt: HostRuntime) -> Result<(), Fail> {
    for (fault, sentence) in &SENTENCES {
        let shown = format!(in rt.alloc(); "{fault}")?;
        assert_eq!(rt; shown.as_str(), *sentence);
    }
    Ok(())
}
