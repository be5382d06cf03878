//! Networks and plans of which a copy is compared whole.

use super::given::{GivenCell, GivenOut, GivenSignal, list_of, net_of};
use ct_base::{Duplicate, Kind, Letter, Listed, Plan};
use std::process::Abort;
use std::test::Fail;

/// A cell of which no two fields are equal.
const CELL: GivenCell<'static> = GivenCell {
    kind: Kind::Queue,
    cap: 7,
    store: 0,
    wave: (1, 3),
    gate: Some((0, 2)),
    out: GivenOut::Turns(&[(4, 2), (5, 1)]),
    initial: 6,
    demand: &[8, 9],
};

/// A signal of which no two fields are equal.
const SIGNAL: GivenSignal<'static> = GivenSignal {
    start: 5,
    phases: &[(1, 2, 3, 4)],
};

/// The network of the two over 11 steps.
const NETWORK: &str = "Net { steps: 11, cells: Listed { items: [\
    Cell { kind: Queue, cap: 7, store: 0, wave_p: 1, wave_q: 3, gate: Some(Gate { signal: 0, greens: 2 }), \
    out: Turns(Listed { items: [(4, 2), (5, 1)] }), initial: 6, demand: Listed { items: [8, 9] } }] }, \
    signals: Listed { items: [Signal { start: 5, \
    phases: Listed { items: [Phase { min: 1, max: 2, clear: 3, next: 4 }] } }] } }";

/// A network is copied with all its parts.
pub fn try_networks(rt: &(impl Abort + AllocGlobal)) -> Result<(), Fail> {
    let net = net_of(rt.alloc(), 11, &[CELL], &[SIGNAL])?.copy()?;
    assert_eq!(rt; format!(in rt.alloc(); "{net:?}")?.as_str(), NETWORK);
    Ok(())
}

/// A plan is copied with all its words.
pub fn try_plans(rt: &(impl Abort + AllocGlobal)) -> Result<(), Fail> {
    let mut words = Listed::new(rt.alloc());
    words.push(list_of(
        rt.alloc(),
        &[Letter::Green(1), Letter::Clear(1), Letter::Green(0)],
    )?)?;
    words.push(list_of(rt.alloc(), &[Letter::Green(2)])?)?;
    let plan = Plan { words }.copy()?;
    assert_eq!(rt;
        format!(in rt.alloc(); "{plan:?}")?.as_str(),
        "Plan { words: Listed { items: [Listed { items: [Green(1), Clear(1), Green(0)] }, \
        Listed { items: [Green(2)] }] } }"
    );
    Ok(())
}
