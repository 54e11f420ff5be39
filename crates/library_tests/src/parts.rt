// Parts under keys, which the program does not have. Rows of parts stand in `tests/program/parts.py` and
// `tests/tables/rows`.

use b3::{Mode, NotNeighbours, Part};
use std::test::Fail;

const KEY: Mode = Mode::Keyed(*b"whats the Elvish word for friend");

// As `b3sum --keyed` gives it for 3,073 zeros.
#[test]
fn parts_under_a_key_are_joined(rt: HostRuntime) -> Result<(), Fail> {
    let left = Part::of(KEY, 0, &[0; 2048])?;
    let right = Part::of(KEY, 2, &[0; 1025])?;
    let Ok(whole) = Part::join(left, right) else {
        panic!(rt; "not joined");
    };
    let mut digest = [0; 32];
    whole.root()?.fill(&mut digest)?;
    assert!(rt; digest.starts_with(b"\xa7\x7d\x86\x0c"));
    Ok(())
}

// Nor does what is shown of a part have its key.
#[test]
fn parts_under_two_keys_are_handed_back(rt: HostRuntime) -> Result<(), Fail> {
    let left = Part::of(KEY, 0, &[0; 1024])?;
    let right = Part::of(Mode::Keyed([0; 32]), 1, &[0; 1024])?;
    let Err(NotNeighbours { left, right }) = Part::join(left, right) else {
        panic!(rt; "joined");
    };
    assert_eq!(rt; right.told().first_chunk(), 1);
    let shown = format!(in rt.alloc(); "{left:?}")?;
    let expected = "Part { mode: Keyed, first_chunk: 0, len: 1024 }";
    assert_eq!(rt; shown.as_str(), expected);
    Ok(())
}
