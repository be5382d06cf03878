//! From the text of a certificate to its bound and its nodes.

ghost use Rattle.std.specs.Prelude.{◌≡◌, map, IfOk, OnOk};
ghost use Rattle.refusals.specs.Memory.{OrMemory};
ghost use Rattle.cert_format.specs.Fronts.{front_of, read_of, shown, spelled};
ghost use Rattle.cert_format.specs.Marks.{node_of};
ghost use Rattle.cert_format.specs.Readers.{bound_with, nodes_with};

use crate::cert::{Cert, Node};
use crate::event::Event;
use crate::fault::CertFault;
use crate::reader::Reader;
use listed::{Listed, Memory};
use std::alloc::Global;

/// How a text ends. Lines are counted from 1.
#[derive(Clone, Copy, Debug, PartialEq, Eq)]
pub enum Ending {
    /// With the line `end` behind a whole tree.
    Whole,
    /// The line is of no form, lacks its line feed, is missing, or comes where another has to be.
    BadForm(u64),
    /// Bytes stand behind the line `end`, as the line with this number.
    Tail(u64),
}

/// What a text says before its first line that breaks the form of a certificate.
#[derive(Debug, Drop)]
pub struct Front {
    /// The bound, or 0 where no line names it.
    pub bound: i64,
    /// The nodes from the top down.
    pub nodes: Listed<Node>,
    /// How the text ends.
    pub ending: Ending,
}

/// The certificate that a text spells, or its first line that breaks the form.
pub fn read(alloc: Global, bytes: &[u8]) -> Result<Cert, CertFault>
    ensures { OrMemory CertFault.Memory (spelled (front_of bytes.now)) (read_of result) }
{
    let front = read_front(alloc, bytes)?;
    match front.ending {
        Ending::Whole => Ok(Cert {
            bound: front.bound,
            nodes: front.nodes,
        }),
        Ending::BadForm(line) => Err(CertFault::Form(line)),
        Ending::Tail(line) => Err(CertFault::Tail(line)),
    }
}

/// What a text says before its first line that breaks the form. A text that is no certificate is read as far as it goes.
pub fn read_front(alloc: Global, bytes: &[u8]) -> Result<Front, Memory>
    ensures { IfOk result (λ front. shown front ≡ front_of bytes.now) }
{
    let mut reader = Reader::start(alloc);
    let mut front = Front {
        bound: 0,
        nodes: Listed::new(alloc),
        ending: Ending::BadForm(1),
    };
    let mut at = 0;
    while at < bytes.len() {
        let (count, event) = reader.feed(&bytes[at..])?;
        front.add(event)?;
        at += count;
    }
    front.ending = reader.finish();
    Ok(front)
}

impl Front {
    /// Adds what an event tells besides how the text ends.
    fn add(&mut self, event: Event) -> Result<(), Memory>
        ensures bound { OnOk result (self.new.bound ≡ bound_with event self.old.bound) }
        ensures nodes { OnOk result (map node_of self.new.nodes ≡ nodes_with event (map node_of self.old.nodes)) }
    {
        match event {
            Event::Head(bound) => self.bound = bound,
            Event::Node(node) => self.nodes.push(node)?,
            Event::More | Event::Whole | Event::BadForm(_) | Event::Tail(_) => {}
        }
        Ok(())
    }
}
