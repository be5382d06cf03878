//! Networks that are made from numbers: one text whole, the digest of all texts, and what each becomes.

use cell_build::read;
use generated_nets::generate;
use sha2::{Digest, Sha256};
use std::test::Fail;

/// What `tools/generate.py 0` prints.
const TEXT_OF_0: &str = "format = 1\nsteps = 30\n\
    [[link]]\nname = \"m0\"\ncells = 3\ncap = 10\nstore = 40\nwave = [1, 3]\nturns = [{ link = \"m1\", parcel = 2 }, { link = \"o0\", parcel = 1 }]\nsignal = \"k0\"\ngreens = [\"main\"]\ndemand = [{ from = 0, until = 20, rate = 5 }]\n\
    [[link]]\nname = \"s0\"\ncells = 2\ncap = 10\nstore = 40\nwave = [1, 3]\nto = \"m1\"\nsignal = \"k0\"\ngreens = [\"side\"]\ndemand = [{ from = 0, until = 20, rate = 2 }]\n\
    [[link]]\nname = \"o0\"\ncells = 1\ncap = 10\nstore = 40\nwave = [1, 3]\n\
    [[link]]\nname = \"m1\"\ncells = 3\ncap = 10\nstore = 40\nwave = [1, 3]\nturns = [{ link = \"m2\", parcel = 3 }, { link = \"o1\", parcel = 1 }]\nsignal = \"k1\"\ngreens = [\"main\"]\n\
    [[link]]\nname = \"s1\"\ncells = 2\ncap = 10\nstore = 40\nwave = [1, 3]\nto = \"m2\"\nsignal = \"k1\"\ngreens = [\"side\"]\ndemand = [{ from = 0, until = 20, rate = 4 }]\n\
    [[link]]\nname = \"o1\"\ncells = 1\ncap = 10\nstore = 40\nwave = [1, 3]\n\
    [[link]]\nname = \"m2\"\ncells = 2\ncap = 10\nstore = 40\nwave = [1, 3]\n\
    [[signal]]\nname = \"k0\"\n\
    [[signal.phase]]\nname = \"main\"\nmin = 4\nmax = 12\nclear = 2\nnext = [\"side\"]\n\
    [[signal.phase]]\nname = \"side\"\nmin = 3\nmax = 8\nclear = 2\nnext = [\"main\"]\n\
    [[signal]]\nname = \"k1\"\n\
    [[signal.phase]]\nname = \"main\"\nmin = 4\nmax = 12\nclear = 2\nnext = [\"side\"]\n\
    [[signal.phase]]\nname = \"side\"\nmin = 3\nmax = 8\nclear = 2\nnext = [\"main\"]\n";

/// What `tools/generate.py --digest` prints: the SHA-256 of the texts of all numbers, one behind another.
const DIGEST_OF_ALL: &str = "37093df2490422c75094bda830b93b711e895a5929c562f2d6e3fbc2f5ad47b0";

/// The text of a number, whole.
#[test]
fn the_text_of_0(rt: HostRuntime) -> Result<(), Fail> {
    let text = generate(rt.alloc(), 0)?;
    assert_eq!(rt; text.as_slice(), TEXT_OF_0.as_bytes());
    Ok(())
}

/// The texts of all numbers, by their digest.
#[test]
fn the_texts_of_all_numbers(rt: HostRuntime) -> Result<(), Fail> {
    let mut hasher = Sha256::new();
    for number in 0..10_000 {
        let text = generate(rt.alloc(), number)?;
        hasher.update(text.as_slice());
    }
    let digest = hex::encode(rt.alloc(), hasher.finalize())?;
    assert_eq!(rt; digest.as_str(), DIGEST_OF_ALL);
    Ok(())
}

/// Each of the 132 texts that differ is accepted, as a network of so many steps, cells and signals.
#[test]
fn each_text_is_a_network(rt: HostRuntime) -> Result<(), Fail> {
    for number in 0..132_u16 {
        let text = generate(rt.alloc(), number)?;
        let named = read(rt.alloc(), text.as_slice()).map_err(|_| "refused")?;
        let net = named.net();
        let junctions = 2 + usize::from(number % 3);
        assert_eq!(rt;
            (net.steps, net.cells.len(), net.signals.len()),
            (30 + u32::from(number % 11), 7 * junctions + 3, junctions),
            "network {number}"
        );
    }
    Ok(())
}
