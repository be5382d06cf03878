//! The names that a file gives to the parts of a network, and where each cell lies.

ghost use Rattle.std.specs.Prelude.{◌≡◌, ◌<◌, [], length, position, slice_index_or};
ghost use Rattle.std.specs.Str.{bytes_eq};
ghost use Rattle.named_net.specs.Naming.{AreInLinks, place_at, signal_names_at};

use listed::Listed;
use std::marker::Model;
use texts::Name;

/// The name of a signal, and those of its phases.
#[derive(Debug, Drop)]
pub struct SignalNames {
    pub name: Name,
    pub phases: Listed<Name>,
}

/// Where a cell lies.
#[derive(Clone, Copy, Debug)]
pub struct Place {
    /// The number of its link.
    pub link: u32,
    /// Its place among the road cells of the link, from upstream to downstream; a queue has none.
    pub road: Option<u32>,
}

/// The names of links, signals and phases, each in the order of the file, and where each cell lies, which is in a link that
/// is there.
#[derive(Debug, Drop)]
pub struct Names {
    links: Listed<Name>,
    signals: Listed<SignalNames>,
    places: Listed<Place>,
}

impl Model for Names {
    ghost use Rattle.named_net.specs.Naming.{AreInLinks, NameTable};

    ghost Value = { NameTable };

    ghost view = { λ names. record { links = names.links; signals = names.signals; places = names.places } };

    ghost invariant = { λ names. AreInLinks (record { links = names.links; signals = names.signals; places = names.places }) };
}

impl Names {
    /// The names of links and of signals, and the place of each cell.
    pub fn new(links: Listed<Name>, signals: Listed<SignalNames>, places: Listed<Place>) -> Names
        requires { AreInLinks (record { links = links; signals = signals; places = places }) }
        ensures { result ≡ record { links = links; signals = signals; places = places } }
    {
        Names {
            links,
            signals,
            places,
        }
    }

    /// The name of the signal with a number.
    pub fn signal(&self, signal: u32) -> &str
        requires { signal < length self.now.signals }
        ensures { result.now ≡ (signal_names_at self.now signal).name }
    {
        self.signals.as_slice()[signal as usize].name.as_str()
    }

    /// The name of a phase of the signal with a number.
    pub fn phase(&self, signal: u32, phase: u8) -> &str
        requires signal { signal < length self.now.signals }
        requires phase { phase < length (signal_names_at self.now signal).phases }
        ensures { result.now ≡ slice_index_or (signal_names_at self.now signal).phases phase [] }
    {
        self.signals.as_slice()[signal as usize].phases.as_slice()[phase as usize].as_str()
    }

    /// The number of the phase of this name, of the signal with a number; none where no phase of it has the name.
    pub fn phase_named(&self, signal: u32, name: &[u8]) -> Option<usize>
        requires { signal < length self.now.signals }
        ensures { result ≡ position (bytes_eq name.now) (signal_names_at self.now signal).phases }
    {
        place_among(
            self.signals.as_slice()[signal as usize].phases.as_slice(),
            name,
        )
    }

    /// The name of the link of the cell with a number.
    pub fn link_of(&self, cell: u32) -> &str
        requires { cell < length self.now.places }
        ensures { result.now ≡ slice_index_or self.now.links (place_at self.now cell).link [] }
    {
        let link = self.places.as_slice()[cell as usize].link;
        self.links.as_slice()[link as usize].as_str()
    }

    /// The place of the cell with a number among the road cells of its link, or none where it is the link's queue.
    pub fn place_of(&self, cell: u32) -> Option<u32>
        requires { cell < length self.now.places }
        ensures { result ≡ (place_at self.now cell).road }
    {
        self.places.as_slice()[cell as usize].road
    }
}

/// The place of a name among some.
fn place_among(names: &[Name], name: &[u8]) -> Option<usize>
    ensures { result ≡ position (bytes_eq name.now) names.now }
{
    names
        .iter()
        .position(|other| name == other.as_str().as_bytes())
}
