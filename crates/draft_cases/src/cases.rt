//! The cases.
use draft::paper::{TextError, bytes_of};
use std::alloc::{AllocError, Global};
use std::test::Fail;

const GOOD: &str =
    "list\nrole 0\nnumber 3\nlast day 365\nfiles 2\nfile 1\nsize 4096\ndigest a1a1a1a1a1a1a1a1a1a1a1a1a1a1a1a1a1a1a1a1a1a1a1a1a1a1a1a1a1a1a1a1\nfile 1/5\nsize 120\ndigest a2a2a2a2a2a2a2a2a2a2a2a2a2a2a2a2a2a2a2a2a2a2a2a2a2a2a2a2a2a2a2a2\nbranches 1\nbranch 7\nkeys 2\nasked 1\nkey 5151515151515151515151515151515151515151515151515151515151515151\nkey 5252525252525252525252525252525252525252525252525252525252525252\nstart 2\nlast yes\n";

/// A line's number and what stands there in place of the good one; all but this line is good.
const REFUSED: &[(u64, &str)] = &[
    (1, "lists"),
    (1, "LIST"),
    (1, ""),
    (2, "role 65536"),
    (3, "number 0"),
    (3, "number 03"),
    (3, "number  3"),
    (3, "number 3 "),
    (3, "number 3\r"),
    (3, "number 4294967296"),
    (3, "number 18446744073709551617"),
    (3, "number -3"),
    (3, "number"),
    (3, "version 3"),
    (4, "last day"),
    (4, "last day 4294967296"),
    (5, "files 257"),
    (6, "file"),
    (6, "file 1/"),
    (6, "file 1//5"),
    (6, "file 65536"),
    (6, "file 1/2/3/4/5/6/7/8/9"),
    (7, "size 1099511627777"),
    (8, "digest a1"),
    (
        8,
        "digest A1A1A1A1A1A1A1A1A1A1A1A1A1A1A1A1A1A1A1A1A1A1A1A1A1A1A1A1A1A1A1A1",
    ),
    (
        8,
        "digest g1g1g1g1g1g1g1g1g1g1g1g1g1g1g1g1g1g1g1g1g1g1g1g1g1g1g1g1g1g1g1g1",
    ),
    (9, "file 1"),
    (9, "file 0/9"),
    (12, "branches 33"),
    (14, "keys 0"),
    (14, "keys 17"),
    (15, "asked 0"),
    (15, "asked 3"),
    (
        17,
        "key 5151515151515151515151515151515151515151515151515151515151515151",
    ),
    (
        17,
        "key 5050505050505050505050505050505050505050505050505050505050505050",
    ),
    (18, "start "),
    (18, "start /"),
    (18, "start 1/2/3/4/5/6/7/8/9"),
    (19, "last maybe"),
    (20, "more"),
    (20, "\n"),
];

/// As above, within each limit.
const ACCEPTED: &[(u64, &str)] = &[
    (2, "role 65535"),
    (3, "number 4294967295"),
    (4, "last day 0"),
    (6, "file 0/65535"),
    (6, "file 1/2/3/4/5/6/7/8"),
    (7, "size 1099511627776"),
    (9, "file 2"),
    (15, "asked 2"),
    (18, "start"),
    (18, "start 1/2/3/4/5/6/7/8"),
    (19, "last no"),
];

/// As above, and what the refusal says was expected there.
const EXPECTED: &[(u64, &str, &str)] = &[
    (1, "lists", "root, clock, index or list"),
    (3, "number 0", "number and a number from 1 to 4294967295"),
    (15, "asked 3", "asked and a number from 1 to 2"),
    (8, "digest a1", "digest and 64 hexadecimal digits"),
    (
        6,
        "file",
        "file and 1 to 8 steps from 0 to 65535, a slash between them",
    ),
    (9, "file 1", "a path above the one before"),
    (
        17,
        "key 5151515151515151515151515151515151515151515151515151515151515151",
        "a key above the one before",
    ),
    (19, "last maybe", "last yes or last no"),
    (20, "more", "the end of the text"),
];

/// An index whose second role does not rise, on its seventh line.
const INDEX: &str = "index\nnumber 1\nlast day 9\nroles 2\nrole 4\nnumber 1\nrole 4\nnumber 1\n";

/// Whether a text is refused at this line with these words.
fn refused_with(heap: Global, text: &[u8], line: u64, words: &str) -> Result<bool, AllocError> {
    match bytes_of(heap, text) {
        Err(TextError::Line(named, expected)) => {
            let said = format!(in heap; "{expected}")?;
            Ok(named == line && said.as_str() == words)
        }
        _ => Ok(false),
    }
}

/// The good text with another line in one place; a line behind the last has no end.
fn with_line(heap: Global, line: u64, new: &str) -> Result<Vec<u8>, AllocError> {
    let mut text = Vec::new(heap);
    for (i, old) in GOOD.split('\n').enumerate() {
        if i > 0 {
            text.push(b'\n')?;
        }
        let here = if (i as u64).saturating_add(1) == line {
            new
        } else {
            old
        };
        text.extend_from_slice(here.as_bytes())?;
    }
    Ok(text)
}

#[test]
fn a_bad_line_is_named(rt: HostRuntime) -> Result<(), Fail> {
    let heap = rt.alloc();
    for (line, new) in REFUSED {
        let text = with_line(heap, *line, new)?;
        match bytes_of(heap, &text) {
            Err(TextError::Line(named, _)) => assert_eq!(rt; named, *line, "{}", new),
            _ => return Err(Fail::new(new)),
        }
    }
    Ok(())
}

#[test]
fn a_refusal_says_what_was_expected(rt: HostRuntime) -> Result<(), Fail> {
    let heap = rt.alloc();
    for (line, new, words) in EXPECTED {
        let text = with_line(heap, *line, new)?;
        assert!(rt; refused_with(heap, &text, *line, words)?, "{}", new);
    }
    assert!(rt; refused_with(heap, INDEX.as_bytes(), 7, "a role above the one before")?);
    Ok(())
}

#[test]
fn what_is_within_the_limits_is_accepted(rt: HostRuntime) -> Result<(), Fail> {
    let heap = rt.alloc();
    for (line, new) in ACCEPTED {
        let text = with_line(heap, *line, new)?;
        assert!(rt; bytes_of(heap, &text).is_ok(), "{}", new);
    }
    Ok(())
}

#[test]
fn a_text_that_is_cut_is_refused(rt: HostRuntime) {
    let heap = rt.alloc();
    let text = GOOD.as_bytes();
    assert!(rt; bytes_of(heap, text).is_ok());
    for size in 0..text.len() {
        assert!(rt; bytes_of(heap, &text[..size]).is_err());
    }
}
