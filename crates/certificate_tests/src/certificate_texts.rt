//! Texts of certificates: some that are read and written back, and texts that break at each kind of line.

use cert_format::{
    CertFault, Ending, Mark, is_end, is_head, read, read_bound, read_front, read_node, write,
};
use std::test::Fail;

/// The lines of the certificate of a network over three steps (docs/certificate.md, "Worked by hand") before its first leaf.
const BEFORE: &str = "ctm-cert 1\n\
    bound 1\n\
    split 2 0\n\
    split 3 0\n";

/// Its first leaf.
const LEAF: &str = "empty 5 1\n";

/// The lines behind its first leaf.
const BEHIND: &str = "split 4 0\n\
    split 5 0\n\
    empty 8 1\n\
    fixed\n\
    split 5 0\n\
    fixed\n\
    empty 8 -1\n\
    split 3 0\n\
    split 4 0\n\
    split 5 0\n\
    empty 8 1\n\
    fixed\n\
    empty 3 1\n\
    empty 5 -1\n";

/// A text with each form of a node, and the greatest numbers.
const EACH_FORM: &str = "ctm-cert 1\n\
    bound -999999999999999\n\
    split 999999999 -7\n\
    priced\n\
    split 0 999999999999999\n\
    priced 0 1024 3 -1 999999999 999999999999999\n\
    fixed\n\
    end\n";

/// Lines in the place of the first leaf that are no line of a node, or not where one has to be.
const OTHER_LEAVES: &[&str] = &[
    "empty 5 0\n",
    "empty 5 01\n",
    "empty 05 1\n",
    "empty 5 -0\n",
    "empty 1000000000 1\n",
    "empty 5 1000000000000000\n",
    "empty 5\n",
    "empty 5 1 8\n",
    "empty 5 1 \n",
    "empty \n",
    "empty  5 1\n",
    " empty 5 1\n",
    "empty 5 1\r\n",
    "split 2\n",
    "split 2 0 0\n",
    "split -2 0\n",
    "fixed \n",
    "fixed 1\n",
    "prices 5 1\n",
    "bound 1\n",
    "end\n",
    "\n",
];

/// Texts, and why they are refused.
const REFUSED: &[(&str, CertFault)] = &[
    ("", CertFault::Form(1)),
    ("ctm-cert 1", CertFault::Form(1)),
    ("ctm-cert 2\nbound 1\nfixed\nend\n", CertFault::Form(1)),
    ("bound 1\nfixed\nend\n", CertFault::Form(1)),
    ("ctm-cert 1\n", CertFault::Form(2)),
    ("ctm-cert 1\nfixed\nend\n", CertFault::Form(2)),
    ("ctm-cert 1\nbound\nfixed\nend\n", CertFault::Form(2)),
    ("ctm-cert 1\nbound 007\nfixed\nend\n", CertFault::Form(2)),
    ("ctm-cert 1\nbound 1 1\nfixed\nend\n", CertFault::Form(2)),
    ("ctm-cert 1\nbound 1", CertFault::Form(2)),
    ("ctm-cert 1\nbound 1\n", CertFault::Form(3)),
    ("ctm-cert 1\nbound 1\nend\n", CertFault::Form(3)),
    ("ctm-cert 1\nbound 1\nfixed", CertFault::Form(3)),
    ("ctm-cert 1\nbound 1\nfixed\n", CertFault::Form(4)),
    ("ctm-cert 1\nbound 1\nfixed\nend", CertFault::Form(4)),
    (
        "ctm-cert 1\nbound 1\nfixed\nfixed\nend\n",
        CertFault::Form(4),
    ),
    (
        "ctm-cert 1\nbound 1\nsplit 0 0\nfixed\nend\n",
        CertFault::Form(5),
    ),
    ("ctm-cert 1\nbound 1\nfixed\nend\n\n", CertFault::Tail(5)),
    (
        "ctm-cert 1\nbound 1\nfixed\nend\nend\nx",
        CertFault::Tail(5),
    ),
];

#[test]
fn certificates_are_read_and_written_back(rt: HostRuntime) -> Result<(), Fail> {
    let three_steps = format!(in rt.alloc(); "{BEFORE}{LEAF}{BEHIND}end\n")?;
    for text in [three_steps.as_str(), EACH_FORM] {
        let cert = read(rt.alloc(), text.as_bytes())?;
        let written = write(rt.alloc(), &cert)?;
        assert_eq!(rt; written.as_slice(), text.as_bytes(), "{text}");
    }
    let cert = read(rt.alloc(), EACH_FORM.as_bytes())?;
    let parts = format!(in rt.alloc(); "{} {:?}", cert.bound, cert.nodes)?;
    assert_eq!(rt;
        parts.as_str(),
        "-999999999999999 Listed { items: [\
         Split { column: 999999999, at: -7 }, \
         Priced(Listed { items: [] }), \
         Split { column: 0, at: 999999999999999 }, \
         Priced(Listed { items: [(0, 1024), (3, -1), (999999999, 999999999999999)] }), \
         Fixed] }"
    );
    Ok(())
}

#[test]
fn other_certificates_are_refused_at_their_line(rt: HostRuntime) -> Result<(), Fail> {
    for (text, fault) in REFUSED {
        assert_eq!(rt;
            read(rt.alloc(), text.as_bytes()).err(),
            Some(*fault),
            "{text}"
        );
    }
    for leaf in OTHER_LEAVES {
        let text = format!(in rt.alloc(); "{BEFORE}{leaf}{BEHIND}end\n")?;
        assert_eq!(rt;
            read(rt.alloc(), text.as_bytes()).err(),
            Some(CertFault::Form(5)),
            "{leaf}"
        );
    }
    let sentence = format!(in rt.alloc(); "{}", CertFault::Tail(21))?;
    assert_eq!(rt; sentence.as_str(), "line 21 stands behind the end");
    Ok(())
}

#[test]
fn what_stands_before_the_first_fault_is_read(rt: HostRuntime) -> Result<(), Fail> {
    let whole = format!(in rt.alloc(); "{BEFORE}{LEAF}{BEHIND}")?;
    let longer = format!(in rt.alloc(); "{BEFORE}{LEAF}{BEHIND}end\nx")?;
    let fronts = [
        (BEFORE, 1, 2, Ending::BadForm(5)),
        (whole.as_str(), 1, 17, Ending::BadForm(20)),
        (longer.as_str(), 1, 17, Ending::Tail(21)),
        (EACH_FORM, -999_999_999_999_999, 5, Ending::Whole),
        (
            "ctm-cert 1\nbound x\nfixed\nend\n",
            0,
            0,
            Ending::BadForm(2),
        ),
    ];
    for (text, bound, nodes, ending) in fronts {
        let front = read_front(rt.alloc(), text.as_bytes())?;
        assert_eq!(rt; front.bound, bound, "{text}");
        assert_eq!(rt; front.nodes.len(), nodes, "{text}");
        assert_eq!(rt; front.ending, ending, "{text}");
    }
    Ok(())
}

#[test]
fn lines_are_read_one_by_one(rt: HostRuntime) -> Result<(), Fail> {
    let mut pairs = Vec::new(rt.alloc());
    assert!(rt; is_head(b"ctm-cert 1"));
    assert!(rt; is_end(b"end"));
    assert_eq!(rt; read_bound(b"bound -12"), Some(-12));
    assert_eq!(rt;
        read_node(b"priced 5 1 8 -1024", 3, &mut pairs)?,
        Some(Mark::Priced)
    );
    assert_eq!(rt; pairs.as_slice(), [(5u32, 1i64), (8, -1024)].as_slice());
    assert_eq!(rt;
        read_node(b"empty 3 2 4 1", 1, &mut pairs)?,
        Some(Mark::Empty)
    );
    assert_eq!(rt; pairs.as_slice(), [(3u32, 2i64)].as_slice());
    assert_eq!(rt;
        read_node(b"split 2 -1", 1, &mut pairs)?,
        Some(Mark::Split { column: 2, at: -1 })
    );
    assert_eq!(rt; read_node(b"fixed", 1, &mut pairs)?, Some(Mark::Fixed));
    assert_eq!(rt; read_node(b"fixed 1", 1, &mut pairs)?, None);
    Ok(())
}
