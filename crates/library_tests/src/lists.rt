// Outputs, lists and files that fail, each at each place in turn, with reads of one byte and of 4,096. What a list means
// is in the rows of `tests/program/lists.py`.

ghost use Rattle.std.specs.Prelude.{◌≡◌, ◌≤◌, IfOk, IsTrue};

use source::{Bytes, Feed, FixedSink, Sink, VecSink};
use std::alloc::{AllocError, Global};
use std::collections::BTreeMap;
use std::process::Abort;
use std::test::Fail;
use sumlist::{CheckFault, Kind, MemoryTree, Tree, check};

// The caller of CALLING.md: whether each line that is not skipped is OK. If so, no file failed.
fn all_match<L: Feed, T: Tree, W: Sink>(
    alloc: Global,
    list: &mut L,
    kind: Kind,
    tree: &mut T,
    out: &mut W,
) -> Result<bool, CheckFault>
    ensures { IfOk result (λ all. IsTrue all
        → T.failure_count tree.new ≡ T.failure_count tree.old) }
{
    let found = check(alloc, list, kind, tree, out)?;
    if found.unreadable > 0 {
        return Ok(false);
    }
    let others = [found.failed, found.missing, found.too_long, found.malformed];
    Ok(others == [0; 4])
}

type Files = BTreeMap<String, Vec<u8>>;

// A match, another digest, a missing file, a digit too few, and a comment.
const LIST: &[u8] = b"\
ba7816bf8f01cfea414140de5dae2223b00361a396177a9cb410ff61f20015ad  abc.txt\n\
ba7816bf8f01cfea414140de5dae2223b00361a396177a9cb410ff61f20015ae  abc.txt\n\
ba7816bf8f01cfea414140de5dae2223b00361a396177a9cb410ff61f20015ad  none.txt\n\
a7816bf8f01cfea414140de5dae2223b00361a396177a9cb410ff61f20015ad  abc.txt\n\
# end\n";

const REPORT: &[u8] = b"abc.txt: OK\nabc.txt: FAILED\nnone.txt: MISSING\nline 4: MALFORMED\n";

fn files(alloc: Global) -> Result<Files, AllocError> {
    let mut files = BTreeMap::new(alloc);
    files.insert(String::from_str(alloc, "abc.txt")?, b"abc".to_vec(alloc)?)?;
    Ok(files)
}

// The first line of the list alone, and the whole list, over a map that is lent.
#[test]
fn a_list_whose_lines_are_ok(rt: HostRuntime) -> Result<(), Fail> {
    let files = files(rt.alloc())?;
    for (list, expected) in [(&LIST[..74], true), (LIST, false)] {
        let mut out = VecSink::new(rt.alloc());
        let mut feed = Bytes::new(list, 64);
        let answer = all_match(rt.alloc(), &mut feed, Kind::Sha256, &mut &files, &mut out);
        assert_eq!(rt; answer, Ok(expected));
    }
    Ok(())
}

// A check of the list whose reads give at most `most` bytes and fail at a place in the list and at one in the file, with
// room for so many bytes of its report.
fn reports(
    rt: &impl Abort,
    alloc: Global,
    most: usize,
    limits: [usize; 3],
    fault: Option<CheckFault>,
    report: Option<&[u8]>,
) -> Result<(), Fail>
    requires { 1 ≤ most }
{
    let [list, file, room] = limits;
    let files = files(alloc)?;
    let places = [("abc.txt", file)];
    let mut tree = MemoryTree::failing(&files, most, &places);
    let mut feed = Bytes::failing(LIST, most, list);
    let mut storage = [0; 100];
    let mut out = FixedSink::new(&mut storage[..room.min(100)]);
    let answer = check(alloc, &mut feed, Kind::Sha256, &mut tree, &mut out);
    assert_eq!(rt; answer.err(), fault, "{list} {file} {room}");
    assert_eq!(rt; Some(out.written()), report, "{list} {file} {room}");
    Ok(())
}

// Where reads of the list fail, and how much of the report the lines before give. After its end no read is
// asked for.
#[test]
fn a_list_that_fails_is_reported_up_to_there(rt: HostRuntime) -> Result<(), Fail> {
    for (places, told) in [
        (0..74, 0),
        (74..148, 12),
        (148..223, 28),
        (223..296, 46),
        (296..303, 64),
    ] {
        for place in places {
            for most in [1, 64, 4096] {
                let fault = Some(CheckFault::ListRead);
                reports(
                    &rt,
                    rt.alloc(),
                    most,
                    [place, 100, 100],
                    fault,
                    REPORT.get(..told),
                )?;
            }
        }
    }
    reports(&rt, rt.alloc(), 1, [303, 100, 100], None, Some(REPORT))
}

// A read that would begin at the end of the file is the last of them.
#[test]
fn a_file_that_fails_at_any_read_is_unreadable(rt: HostRuntime) -> Result<(), Fail> {
    let unreadable =
        b"abc.txt: UNREADABLE\nabc.txt: UNREADABLE\nnone.txt: MISSING\nline 4: MALFORMED\n";
    for place in 0..4 {
        for most in [1, 4096] {
            reports(
                &rt,
                rt.alloc(),
                most,
                [1000, place, 100],
                None,
                Some(unreadable),
            )?;
        }
    }
    Ok(())
}

#[test]
fn an_output_of_each_room_holds_a_beginning_of_the_report(rt: HostRuntime) -> Result<(), Fail> {
    for room in 0..64 {
        for most in [1, 4096] {
            let fault = Some(CheckFault::Write);
            reports(
                &rt,
                rt.alloc(),
                most,
                [1000, 100, room],
                fault,
                REPORT.get(..room),
            )?;
        }
    }
    reports(&rt, rt.alloc(), 1, [1000, 100, 64], None, Some(REPORT))
}
