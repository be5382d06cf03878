//! What the bytes of a network file come to. The function does nothing: its clause is a law, and a caller that calls it knows
//! it.

ghost use Rattle.std.specs.Prelude.{◌≡◌, ℕ, List, Ok};
ghost use Rattle.named_net.specs.Naming.{IsNamed, Named};
ghost use Rattle.cell_build.specs.Spelled.{spelled_network};

/// A network that bytes spell is valid, and its names fit it.
pub fn spelled_networks_are_valid_and_named()
    ensures { (bytes : List ℕ) (named : Named) → spelled_network bytes ≡ Ok named → IsNamed named }
{}
