//! Links, signals and phases by their names. Links and signals are found without a walk over the list; the phases of a
//! signal, of which there are at most 8, are looked through.

ghost use Rattle.std.specs.Prelude.{◌≡◌, ℕ, ◌<◌, List, true, length, map, position, IfOk, IfSome};
ghost use Rattle.std.specs.Str.{bytes_eq};
ghost use Rattle.cell_build.specs.Link.{signal_named};
ghost use Rattle.cell_build.specs.Names.{link_names, raw_link, signal_names};
ghost use Rattle.cell_build.specs.inner.Numbered.{texts};
ghost use Rattle.network_file.specs.Range.{all_differ};

use ct_base::Memory;
use indexmap::IndexSet;
use network_file::{RawLink, RawNet, RawPhase, RawSignal};
use std::alloc::Global;
use std::marker::Model;

/// Links whose names differ. The number of a link, which is its place in the file, is looked up by its name.
#[derive(Drop)]
pub(crate) struct Links<'a> {
    links: &'a [RawLink],
    names: IndexSet<&'a str>,
}

impl<'a> Model for Links<'a> {
    ghost use Rattle.std.specs.Prelude.{◌≡◌, List};
    ghost use Rattle.network_file.specs.declared.raw.RawLink.{RawLink as Link};
    ghost use Rattle.cell_build.specs.Names.{link_names};
    ghost use Rattle.cell_build.specs.inner.Numbered.{texts};

    ghost Value = { List Link };

    ghost view = { λ l. l.links.now };

    ghost invariant = { λ l. texts l.names.keys ≡ link_names l.links.now };
}

impl<'a> Links<'a> {
    /// Links with their names by number.
    pub(crate) fn of(alloc: Global, links: &'a [RawLink]) -> Result<Links<'a>, Memory>
        requires { all_differ (link_names links.now) ≡ true }
        ensures { IfOk result (λ made. made ≡ links.now) }
    {
        let names = names_of(alloc, links)?;
        Ok(Links { links, names })
    }

    /// The links in the order of the file.
    pub(crate) fn as_slice(&self) -> &'a [RawLink]
        ensures { result.now ≡ self.now }
    {
        self.links
    }

    /// The link with a number.
    pub(crate) fn get(&self, place: usize) -> &'a RawLink
        requires { place < length self.now }
        ensures { result.now ≡ raw_link self.now place }
    {
        &self.as_slice()[place]
    }

    /// The number of the link of this name.
    pub(crate) fn place_of(&self, name: &str) -> Option<usize>
        ensures value { result ≡ position (bytes_eq name.now) (link_names self.now) }
        ensures below { IfSome result (λ place. place < length self.now) }
    {
        place_among(&self.names, name)
    }
}

/// Signals whose names differ. The number of a signal, which is its place in the file, is looked up by its name.
#[derive(Drop)]
pub(crate) struct Signals<'a> {
    signals: &'a [RawSignal],
    names: IndexSet<&'a str>,
}

impl<'a> Model for Signals<'a> {
    ghost use Rattle.std.specs.Prelude.{◌≡◌, List};
    ghost use Rattle.network_file.specs.declared.raw.RawSignal.{RawSignal as Signal};
    ghost use Rattle.cell_build.specs.Names.{signal_names};
    ghost use Rattle.cell_build.specs.inner.Numbered.{texts};

    ghost Value = { List Signal };

    ghost view = { λ s. s.signals.now };

    ghost invariant = { λ s. texts s.names.keys ≡ signal_names s.signals.now };
}

impl<'a> Signals<'a> {
    /// Signals with their names by number.
    pub(crate) fn of(alloc: Global, signals: &'a [RawSignal]) -> Result<Signals<'a>, Memory>
        requires { all_differ (signal_names signals.now) ≡ true }
        ensures { IfOk result (λ made. made ≡ signals.now) }
    {
        let names = names_of(alloc, signals)?;
        Ok(Signals { signals, names })
    }

    /// The signals in the order of the file.
    pub(crate) fn as_slice(&self) -> &'a [RawSignal]
        ensures { result.now ≡ self.now }
    {
        self.signals
    }

    /// The number of the signal of this name.
    pub(crate) fn place_of(&self, name: &str) -> Option<usize>
        ensures value { result ≡ position (bytes_eq name.now) (signal_names self.now) }
        ensures below { IfSome result (λ place. place < length self.now) }
    {
        place_among(&self.names, name)
    }

    /// The phases of the signal of this name. Where no signal has it, its number is 0.
    pub(crate) fn phases_of(&self, name: &str) -> &'a [RawPhase]
        ensures { result.now ≡ (signal_named self.now name.now).phases }
    {
        match self.signals.get(self.place_of(name).unwrap_or(0)) {
            Some(signal) => signal.phases.as_slice(),
            None => &[],
        }
    }
}

/// A network of a file, whose links and signals are found by their names.
#[derive(Drop)]
pub(crate) struct Numbered<'a> {
    /// The number of steps of the horizon.
    pub(crate) steps: u32,
    pub(crate) links: Links<'a>,
    pub(crate) signals: Signals<'a>,
}

impl<'a> Model for Numbered<'a> {
    ghost use Rattle.network_file.specs.declared.raw.RawNet.{RawNet as Raw};

    ghost Value = { Raw };

    ghost view = { λ n. record { steps = n.steps; links = n.links; signals = n.signals } };
}

impl<'a> Numbered<'a> {
    /// The network with its names by number.
    pub(crate) fn of(alloc: Global, raw: &'a RawNet) -> Result<Numbered<'a>, Memory>
        requires links { all_differ (link_names raw.now.links) ≡ true }
        requires signals { all_differ (signal_names raw.now.signals) ≡ true }
        ensures { IfOk result (λ made. made ≡ raw.now) }
    {
        let links = Links::of(alloc, raw.links.as_slice())?;
        let signals = Signals::of(alloc, raw.signals.as_slice())?;
        Ok(Numbered {
            steps: raw.steps,
            links,
            signals,
        })
    }
}

/// What a file gives a name.
trait HasName {
    ghost name_of: { Self → List ℕ };

    /// The name.
    fn name(&self) -> &str
        ensures { result.now ≡ name_of self.now };
}

impl HasName for RawLink {
    ghost name_of = { λ link. link.name };

    fn name(&self) -> &str {
        self.name.as_str()
    }
}

impl HasName for RawSignal {
    ghost name_of = { λ signal. signal.name };

    fn name(&self) -> &str {
        self.name.as_str()
    }
}

/// The names of links or signals, each at the number of its link or signal.
fn names_of<'a, T: HasName>(alloc: Global, items: &'a [T]) -> Result<IndexSet<&'a str>, Memory>
    requires { all_differ (map T.name_of items.now) ≡ true }
    ensures { IfOk result (λ names. texts names.keys ≡ map T.name_of items.now) }
{
    let mut names = IndexSet::with_capacity(alloc, items.len())?;
    for item in items {
        names.insert(item.name())?;
    }
    Ok(names)
}

/// The number of a name.
#[tactic(auto, using(crate::proofs::NameLaws::position_text))]
fn place_among<'a>(names: &IndexSet<&'a str>, name: &str) -> Option<usize>
    ensures value { result ≡ position (bytes_eq name.now) (texts names.now.keys) }
    ensures below { IfSome result (λ place. place < length names.now.keys) }
{
    names.get_index_of(name)
}

/// The number of the phase of this name.
pub(crate) fn phase_place(phases: &[RawPhase], name: &str) -> Option<usize>
    ensures value { result ≡ position (bytes_eq name.now) (map (λ phase. phase.name) phases.now) }
    ensures below { IfSome result (λ place. place < length phases.now) }
{
    phases.iter().position(|phase| name == phase.name.as_str())
}
