//! A valid network together with names that fit it.

ghost use Rattle.std.specs.Prelude.{◌≡◌};
ghost use Rattle.ct_base.specs.Validity.{IsValid};
ghost use Rattle.named_net.specs.Naming.{IsNamed};

use crate::names::Names;
use ct_base::Net;
use std::marker::Model;

/// A network of cells, which is valid, and its names, which fit it: there is one for each link, signal and phase, no two
/// signals share one, and no two phases of a signal do.
#[derive(Debug, Drop)]
pub struct NamedNet {
    net: Net,
    names: Names,
}

impl Model for NamedNet {
    ghost use Rattle.named_net.specs.Naming.{IsNamed, Named};

    ghost Value = { Named };

    ghost view = { λ named. record { net = named.net; names = named.names } };

    ghost invariant = { λ named. IsNamed (record { net = named.net; names = named.names }) };
}

impl NamedNet {
    /// A valid network and its names.
    pub fn new(net: Net, names: Names) -> NamedNet
        requires { IsNamed (record { net = net; names = names }) }
        ensures net { result.net ≡ net }
        ensures names { result.names ≡ names }
    {
        NamedNet { net, names }
    }

    /// The network, which is valid.
    pub fn net(&self) -> &Net
        ensures value { result.now ≡ self.now.net }
        ensures valid { IsValid result.now }
    {
        &self.net
    }

    /// The names of its parts, which fit it.
    pub fn names(&self) -> &Names
        ensures value { result.now ≡ self.now.names }
        ensures fits { IsNamed self.now }
    {
        &self.names
    }
}
