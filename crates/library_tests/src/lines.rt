// Outputs that take a beginning of a line, and how many writes a line takes. Rows of lines, read and written, are in
// `tests/program/lists.py`.

ghost use Rattle.std.specs.Prelude.{None};

use source::{Alg, FixedSink, Sink, WriteFailed};
use std::alloc::Global;
use std::test::Fail;
use sumlist::{Entry, TaggedFault, WriteFault, write_entry, write_tagged};
use words::Tag;

// BLAKE2b of no bytes with a digest of one byte (`printf '' | b2sum -l 8`), under a name.
fn entry_of(alloc: Global, name: &str) -> Result<Entry, Fail> {
    let name = String::from_str(alloc, name)?;
    let tag = Tag::of(&[0x2e]).ok_or("tag")?;
    Ok(Entry::new(Alg::Blake2b(1), name, tag)?)
}

#[test]
fn a_full_sink_holds_a_beginning_of_the_line(rt: HostRuntime) -> Result<(), Fail> {
    let entry = entry_of(rt.alloc(), "a\\b\n")?;
    let line = b"\\2e  a\\\\b\\n\n";
    let tagged = b"\\BLAKE2b-8 (a\\\\b\\n) = 2e\n";
    let mut storage = [0; 32];
    for room in 0..=line.len() {
        let answer = if room < line.len() {
            Err(WriteFault)
        } else {
            Ok(())
        };
        let mut out = FixedSink::new(&mut storage[..room]);
        assert_eq!(rt; write_entry(&entry, &mut out), answer, "{room}");
        assert_eq!(rt; out.written(), &line[..room]);
    }
    for room in 0..tagged.len() {
        let mut out = FixedSink::new(&mut storage[..room]);
        assert_eq!(rt;
            write_tagged(&entry, &mut out),
            Err(TaggedFault::Write),
            "{room}"
        );
        assert_eq!(rt; out.written(), &tagged[..room]);
    }
    Ok(())
}

// Counts its writes, and keeps nothing.
#[derive(Drop)]
struct Counter {
    writes: usize,
}

impl Sink for Counter {
    ghost shown = { λ _. record { failures = 0; contents = None } };

    fn write(&mut self, bytes: &[u8]) -> Result<usize, WriteFailed> {
        self.writes = self.writes.saturating_add(1);
        Ok(bytes.len())
    }
}

#[test]
fn a_name_is_cut_at_its_escapes_alone(rt: HostRuntime) -> Result<(), Fail> {
    let alloc = rt.alloc();
    let long = "n".repeat(alloc, 60_000)?;
    // The digits, two spaces, what stands before, between and after the escapes, each escape, and LF.
    for (name, writes) in [("a", 4), (long.as_str(), 4), ("one\nend", 7), ("\\\r", 6)] {
        let entry = entry_of(alloc, name)?;
        let mut out = Counter { writes: 0 };
        assert_eq!(rt; write_entry(&entry, &mut out), Ok(()));
        assert_eq!(rt; out.writes, writes, "{name:?}");
    }
    Ok(())
}
