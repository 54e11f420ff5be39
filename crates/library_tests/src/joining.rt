// Lines of parts from feeds that fail; rows of lines are in `tests/program/parts.py`. The values of parts come from a
// second implementation, in Python, for the bytes 0, 1, .. 250, 0, ..; the digest of 4,096 of them is an official
// vector of BLAKE3.

ghost use Rattle.std.specs.Prelude.{◌≡◌, ℕ, List, IfSome};
ghost use Rattle.b3.specs.inside.Output.{output_root};
ghost use Rattle.b3.specs.Modes.{hash_root};
ghost use Rattle.b3.specs.declared.row.PartValue.{PartValue};
ghost use Rattle.partlist.specs.Joined.{AllTell, AreValuesOf, bytes_of};
ghost use Rattle.sumlist.specs.Lines.{lines};

use b3::Output;
use partlist::{JoinFault, Joiner, PartFault};
use source::{Bytes, Feed};
use std::test::Fail;

// The caller of CALLING.md.
/// The output of a message, if the lines that a feed gives describe parts that are all of its bytes.
fn output_of<F: Feed>(feed: &mut F, bytes: u64) -> Option<Output>
    ensures { IfSome (F.remaining feed.old) (λ text. IfSome result (λ output. (parts : List PartValue)
        × AllTell (lines text) parts × (bytes_of parts ≡ bytes)
        × ((m : List ℕ) → AreValuesOf parts m → output_root output ≡ hash_root m))) }
{
    let mut joiner = Joiner::new();
    joiner.add_lines(feed).ok()?;
    joiner.output(Some(bytes)).ok()
}

const TWO: &[u8] =
    b"sums-part-1 blake3 0 2048 811f7d4f1735258e27c68b9214ff7c4aac866d47f73deef1fd8908b5e38f804f\n";

const NEXT_TWO: &[u8] =
    b"sums-part-1 blake3 2 2048 0442fb717e48cfb822322404f01bed7f13e2ed168408f1b5e6307b3c1b7a1ab7\n";

// One part by itself has no output.
#[test]
fn a_part_alone_is_refused(rt: HostRuntime) {
    assert!(rt; output_of(&mut Bytes::new(TWO, 7), 2048).is_none());
}

// Adds lines of a feed that fails at a place.
fn add(joiner: &mut Joiner, lines: &[u8], place: usize) -> Result<(), JoinFault> {
    joiner.add_lines(&mut Bytes::failing(lines, 7, place))
}

// What came before a fault stays, and what cannot be a line is refused before its end.
#[test]
fn a_list_of_parts_that_fails_adds_what_came_before(rt: HostRuntime) -> Result<(), Fail> {
    let mut joiner = Joiner::new();
    assert_eq!(rt; add(&mut joiner, TWO, 50), Err(JoinFault::Read));
    assert_eq!(rt; add(&mut joiner, TWO, 91), Err(JoinFault::Read));
    assert_eq!(rt; add(&mut joiner, NEXT_TWO, 1000), Ok(()));
    let fault = Err(JoinFault::Line(1, PartFault::NotAPart));
    assert_eq!(rt; add(&mut joiner, &[b'a'; 400], 390), fault);
    let mut root = [0; 32];
    joiner.output(Some(4096))?.fill(&mut root)?;
    assert!(rt; root.starts_with(b"\x01\x50\x94\x01"));
    Ok(())
}
