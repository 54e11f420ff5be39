// What the faults of the libraries say, which no contract covers.

use partlist::{EndFault, JoinFault, PartFault};
use source::{ReadFailed, SourceFault, WriteFailed};
use std::alloc::Global;
use std::fmt::Display;
use std::test::Fail;
use sumlist::{CheckFault, EntryFault, LineFault, OpenFault, TaggedFault};

fn say<F: Display>(alloc: Global, faults: &[(F, &str)]) -> Result<(), Fail> {
    for (fault, text) in faults {
        let said = format!(in alloc; "{fault}")?;
        if said.as_str() != *text {
            Err("a fault says something else")?;
        }
    }
    Ok(())
}

#[test]
fn faults_of_feeds_and_sinks_say_what_failed(rt: HostRuntime) -> Result<(), Fail> {
    say(rt.alloc(), &[(ReadFailed, "a read failed")])?;
    say(rt.alloc(), &[(WriteFailed, "a write failed")])?;
    say(
        rt.alloc(),
        &[
            (SourceFault::Read, "a read failed"),
            (SourceFault::TooLong, "the input is too long"),
        ],
    )
}

#[test]
fn faults_of_lists_say_what_failed(rt: HostRuntime) -> Result<(), Fail> {
    say(
        rt.alloc(),
        &[
            (CheckFault::ListRead, "cannot read the list"),
            (CheckFault::Write, "cannot write"),
            (CheckFault::OutOfMemory, "out of memory"),
            (CheckFault::ListTooLong, "the list is too long"),
        ],
    )?;
    say(
        rt.alloc(),
        &[
            (OpenFault::Missing, "missing"),
            (OpenFault::Failed, "cannot open"),
            (OpenFault::OutOfMemory, "out of memory"),
        ],
    )
}

#[test]
fn faults_of_lines_say_what_is_wrong(rt: HostRuntime) -> Result<(), Fail> {
    say(
        rt.alloc(),
        &[
            (LineFault::Malformed, "malformed line"),
            (LineFault::OutOfMemory, "out of memory"),
        ],
    )?;
    say(
        rt.alloc(),
        &[
            (EntryFault::BadName, "bad name"),
            (EntryFault::BadTag, "bad tag"),
        ],
    )?;
    say(
        rt.alloc(),
        &[
            (TaggedFault::Write, "cannot write"),
            (TaggedFault::TooLong, "the line is too long"),
        ],
    )
}

#[test]
fn faults_of_parts_say_what_stands_in_the_way(rt: HostRuntime) -> Result<(), Fail> {
    say(
        rt.alloc(),
        &[
            (JoinFault::Read, "a read failed"),
            (
                JoinFault::Line(1, PartFault::NotAPart),
                "line 1: not a part",
            ),
            (
                JoinFault::Line(2, PartFault::BytesMissing),
                "line 2: bytes are missing before it",
            ),
            (
                JoinFault::Line(3, PartFault::Overlaps),
                "line 3: begins before the part before it ends",
            ),
            (
                JoinFault::Line(4, PartFault::NotWhole),
                "line 4: the part before it is not whole",
            ),
        ],
    )?;
    say(
        rt.alloc(),
        &[
            (EndFault::NoParts, "no parts"),
            (EndFault::Alone, "one part alone"),
            (EndFault::EndsAfter(7), "the parts end after 7 bytes"),
        ],
    )
}
