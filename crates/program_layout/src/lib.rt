//! Where the columns of a network's program stand: how many stand before those of a signal or of a cell, which is worked out once
//! (docs/program.md, "Columns").
#![tactic(auto)]

mod layout;

pub use layout::making::{
    after_room, columns_of_branch, columns_of_split, is_room_column, layout_of, letters_by,
    term_count,
};
pub use layout::numbers::{branch_column, parcels_column};
pub use layout::{Layout, first_bit, first_column, has_room};
