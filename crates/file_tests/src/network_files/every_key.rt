//! A network with every key, whose fields are compared, and those of its copy.

use ct_base::Duplicate;
use network_file::read;
use std::test::Fail;

/// A network with every key.
const NETWORK: &str = "format = 1
steps = 9
[[link]]
name = 'north'
cells = 3
cap = 10
store = 40
wave = [1, 3]
turns = [{ link = 'east', parcel = 3 }, { link = 'west', parcel = 1 }]
signal = 'j'
greens = ['go', 'turn']
initial = [4, 0, 7]
demand = [{ from = 2, until = 6, rate = 4 }]
rates = [5, 6]
[[link]]
name = 'east'
cap = 11
store = 41
to = 'west'
[[signal]]
name = 'j'
start = 'turn'
[[signal.phase]]
name = 'go'
min = 4
max = 20
clear = 2
next = ['turn']
[[signal.phase]]
name = 'turn'
min = 3
max = 8
next = []
";
/// What is read of it. A wave and a number of cells that are not given are 1, a clearing that is not given
/// is 0, and rates are pieces of one step each.
const AS_READ: &str = "RawNet { steps: 9, links: Listed { items: [\
    RawLink { name: Text { text: \"north\" }, cells: 3, cap: 10, store: 40, wave_p: 1, wave_q: 3, to: None, \
    turns: Listed { items: [(Text { text: \"east\" }, 3), (Text { text: \"west\" }, 1)] }, \
    signal: Some(Text { text: \"j\" }), \
    greens: Listed { items: [Text { text: \"go\" }, Text { text: \"turn\" }] }, \
    initial: Some(Listed { items: [4, 0, 7] }), \
    pieces: Listed { items: [Piece { first: 2, until: 6, rate: 4 }, Piece { first: 0, until: 1, rate: 5 }, \
    Piece { first: 1, until: 2, rate: 6 }] } }, \
    RawLink { name: Text { text: \"east\" }, cells: 1, cap: 11, store: 41, wave_p: 1, wave_q: 1, \
    to: Some(Text { text: \"west\" }), turns: Listed { items: [] }, signal: None, greens: Listed { items: [] }, \
    initial: None, pieces: Listed { items: [] } }] }, \
    signals: Listed { items: [RawSignal { name: Text { text: \"j\" }, start: Some(Text { text: \"turn\" }), \
    phases: Listed { items: [\
    RawPhase { name: Text { text: \"go\" }, min: 4, max: 20, clear: 2, \
    next: Listed { items: [Text { text: \"turn\" }] } }, \
    RawPhase { name: Text { text: \"turn\" }, min: 3, max: 8, clear: 0, next: Listed { items: [] } }] } }] } }";

#[test]
fn a_network_with_every_key_is_read(rt: HostRuntime) -> Result<(), Fail> {
    let net = read(rt.alloc(), NETWORK.as_bytes())?;
    assert_eq!(rt; format!(in rt.alloc(); "{net:?}")?.as_str(), AS_READ);
    let copied = net.copy()?;
    assert_eq!(rt; format!(in rt.alloc(); "{copied:?}")?.as_str(), AS_READ);
    Ok(())
}
