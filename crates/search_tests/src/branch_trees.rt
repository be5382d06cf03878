//! A tree that is split, closed and written as a certificate.

use branch_tree::{Leaf, Tree};
use cert_format::write;
use sparse_program::{Bounds, Builder, Memory, Program};
use std::alloc::Global;
use std::test::Fail;

/// The certificate of a split with two fixed leaves.
const TEXT: &str = "ctm-cert 1\nbound 5\nsplit 0 1\nfixed\nfixed\nend\n";

/// One column, of 0 to 3.
fn one_column(alloc: Global) -> Result<Program, Memory> {
    let mut builder = Builder::new(alloc);
    builder.col(0, 3, 1)?;
    builder.finish(0)
}

/// Closes the first open leaf, as one that has one plan alone.
fn close_first(tree: &mut Tree) {
    if let Some(leaf) = tree.least_open() {
        tree.close(leaf, Leaf::Fixed);
    }
}

#[test]
fn a_tree_is_split_closed_and_written(rt: HostRuntime) -> Result<(), Fail> {
    let alloc = rt.alloc();
    let bounds = Bounds::new(alloc, &one_column(alloc)?)?;
    assert!(rt; 0 < bounds.cols());
    assert!(rt; bounds.low(0) <= 1);
    assert!(rt; 1 < bounds.high(0));
    let mut tree = Tree::new(alloc, bounds)?;
    assert_eq!(rt; tree.split(0, 0, 1)?, (1, 2));
    assert_eq!(rt; tree.nodes(), 3);
    close_first(&mut tree);
    close_first(&mut tree);
    match tree.least_open() {
        Some(_) => Err("a leaf is open".into()),
        None => {
            let text = write(alloc, &tree.to_cert(5)?)?;
            assert_eq!(rt; text.as_slice(), TEXT.as_bytes());
            Ok(())
        }
    }
}
