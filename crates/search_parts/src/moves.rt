//! A box that is moved along a path of splits.

ghost use Rattle.std.specs.Prelude.{◌≡◌, ◌<◌, ◌<ℤ◌, IfOk, IfSome, IsTrue, OnOk, length, true};
ghost use Rattle.ct_base.specs.Validity.{IsValid};
ghost use Rattle.sparse_program.specs.Box.{high_of, low_of};
ghost use Rattle.kept_value.specs.Kept.{IsKeptOf};
ghost use Rattle.branch_tree.specs.Boxes.{box_of};
ghost use Rattle.branch_tree.specs.OpenTree.{has};

use crate::fault::Fault;
use crate::kept::{is_right, kept_of};
use branch_tree::laws::splits_cut_the_box_of_their_leaf;
use branch_tree::{MAX_NODES, Tree};
use ct_base::{Memory, Net};
use kept_value::KeptValue;
use sparse_program::{Bounds, Program};
use std::alloc::Global;

/// So often a box is moved, up and down again.
const MOVES: u32 = 1000;

/// Moves the box of all points along a path of at most so many splits, down, and often up and down again. Answers whether the kept value
/// is right at the end of the path.
pub fn move_along(alloc: Global, net: &Net, program: &Program, splits: u32) -> Result<bool, Fault>
    requires { IsValid net.now }
{
    let mut kept = kept_of(alloc, net, program)?;
    let root = Bounds::new(alloc, program)?;
    let mut tree = Tree::new(alloc, root)?;
    let end = deepen(program, &mut tree, &mut kept, splits)?;
    move_often(program, &tree, &mut kept, end);
    Ok(is_right(program, &kept))
}

/// Moves a box from the end of a path up to the root and down again, many times.
fn move_often(program: &Program, tree: &Tree, kept: &mut KeptValue, end: u32)
    requires of { IsKeptOf program.now kept.old }
    requires stands { kept.old.box ≡ box_of tree.now end }
    ensures { IsKeptOf program.now kept.new }
{
    if has_node(tree, 0) && has_node(tree, end) {
        for _ in 0..MOVES {
            tree.enter(program, end, 0, kept);
            tree.enter(program, 0, end, kept);
        }
    }
}

/// Splits a tree of one leaf along a path of at most so many splits, moves the box of its root to the end of the path, and answers that.
fn deepen(
    program: &Program,
    tree: &mut Tree,
    kept: &mut KeptValue,
    splits: u32,
) -> Result<u32, Memory>
    requires of { IsKeptOf program.now kept.old }
    requires stands { kept.old.box ≡ box_of tree.old 0 }
    ensures of { OnOk result (IsKeptOf program.now kept.new) }
    ensures stands { IfOk result (λ end. kept.new.box ≡ box_of tree.new end) }
{
    let mut end = 0;
    for _ in 0..splits {
        end = split_below(program, tree, kept, end)?;
    }
    Ok(end)
}

/// Splits a leaf at the low of the first column that has more than one number, moves the box into the right side, and answers that; or
/// the leaf, where it can't be split.
fn split_below(
    program: &Program,
    tree: &mut Tree,
    kept: &mut KeptValue,
    leaf: u32,
) -> Result<u32, Memory>
    requires of { IsKeptOf program.now kept.old }
    requires stands { kept.old.box ≡ box_of tree.old leaf }
    ensures of { OnOk result (IsKeptOf program.now kept.new) }
    ensures stands { IfOk result (λ end. kept.new.box ≡ box_of tree.new end) }
{
    splits_cut_the_box_of_their_leaf();
    if tree.nodes() <= leaf || MAX_NODES <= tree.nodes() as usize || !tree.is_open(leaf) {
        return Ok(leaf);
    }
    match first_open(kept.bounds()) {
        Some(column) => {
            let (_, right) = tree.split(leaf, column, kept.bounds().low(column))?;
            if has_node(tree, leaf) && has_node(tree, right) {
                tree.enter(program, leaf, right, kept);
                return Ok(right);
            }
            Ok(leaf)
        }
        None => Ok(leaf),
    }
}

/// The first column that has more than one number.
fn first_open(bounds: &Bounds) -> Option<u32>
    ensures there { IfSome result (λ column. column < length bounds.now.lows) }
    ensures several { IfSome result (λ column. low_of bounds.now column <ℤ high_of bounds.now column) }
{
    for j in 0..bounds.cols() {
        if bounds.low(j) < bounds.high(j) {
            return Some(j);
        }
    }
    None
}

/// Whether a tree has a node with a number.
fn has_node(tree: &Tree, number: u32) -> bool
    ensures { IsTrue result → IsTrue (has tree.now.tree number) }
{
    tree.is_growing();
    number < tree.nodes()
}
