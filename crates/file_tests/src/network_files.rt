//! Files that are read or refused as their writer means them: each stage at each kind of table, the order of the stages
//! and within them, both ends of each range, and a whole network with every key.

mod every_key;
mod link_lines;
mod long_arrays;
mod sentences;
mod signal_lines;
mod whole_files;

use network_file::{At, NetFault, read};
use std::process::Abort;
use std::test::Fail;

/// A text, and the refusal that it gets in its place; none where the file is read.
type Case = (&'static str, Option<NetFault>);

const TOP: At = At::Top;

const LINK: At = At::Link(0);

const SIGNAL: At = At::Signal(0);

const PHASE: At = At::Phase(0, 1);

/// Reads each case behind a head.
fn try_each(rt: &(impl Abort + AllocGlobal), head: &str, cases: &[Case]) -> Result<(), Fail> {
    for (text, refusal) in cases {
        let document = format!(in rt.alloc(); "{head}{text}")?;
        assert_eq!(rt;
            read(rt.alloc(), document.as_bytes()).err(),
            *refusal,
            "{document}"
        );
    }
    Ok(())
}
