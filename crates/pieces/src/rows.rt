// The digests of any number of messages that lie in one buffer. They go side by side by falling length.

ghost use Rattle.std.specs.Prelude.{◌≡◌, ◌<◌, ◌≤◌, ◌+◌, ◌*◌, ◌/◌, [], ℕ, true, false, length, take, drop};
ghost use Rattle.std.specs.Prelude.{slice_index, slice_index_or};
ghost use Rattle.pieces.specs.inside.Rows.{AreWritten, IsRow};

use crate::digests::put_digest;
use crate::messages::Messages;
use crate::piece_hash::PieceHash;

// So many messages at most are put in order together.
const WINDOW: usize = 64;

// Some of the messages that wait.
#[derive(Drop)]
struct Group<const LANES: usize> {
    // Their places, by falling length; those after the last repeat the first.
    places: [usize; LANES],
    // How many they are.
    count: usize,
}

// Puts message `i` among the first `count` places, by falling length. If there is no room, the shortest drops out.
fn insert<const LANES: usize>(places: &mut [usize; LANES], count: usize, lens: &[usize], i: usize)
    requires count { count ≤ LANES }
    requires message { i < length lens.now }
    requires inside { (k : ℕ) → k < LANES → slice_index places.old k < length lens.now }
    ensures { (k : ℕ) → k < LANES → slice_index places.new k < length lens.now }
{
    let mut next = i;
    'places: for k in 0..count {
        let other = places[k];
        if lens[next] > lens[other] {
            places[k] = next;
            next = other;
        }
    }
    if count < LANES {
        places[count] = next;
    }
}

// The longest messages that wait.
fn longest<const LANES: usize>(lens: &[usize], waiting: &[bool; WINDOW]) -> Group<LANES>
    requires some { 0 < length lens.now }
    requires most { length lens.now ≤ 64 }
    ensures { (k : ℕ) → k < LANES → slice_index result.places k < length lens.now }
{
    let mut places = [0; LANES];
    let mut count = 0;
    'messages: for i in 0..lens.len() {
        if waiting[i] {
            insert(&mut places, count, lens, i);
            count = LANES.min(count + 1);
        }
    }
    'others: for k in count..LANES {
        places[k] = places[0];
    }
    Group { places, count }
}

// Whether the group goes side by side; if not, its longest message goes alone. A step takes as long as if each lane had
// the longest, so it needs `fewest` messages, and a second one of at least half that length.
fn goes_together<const LANES: usize>(group: &Group<LANES>, lens: &[usize], fewest: usize) -> bool
    requires two { 1 < LANES }
    requires inside { (k : ℕ) → k < LANES → slice_index group.now.places k < length lens.now }
    ensures many { result ≡ true → fewest ≤ group.now.count }
    ensures near { result ≡ true → slice_index lens.now (slice_index group.now.places 0) / 2
        ≤ slice_index lens.now (slice_index group.now.places 1) }
{
    group.count >= fewest && lens[group.places[0]] / 2 <= lens[group.places[1]]
}

// What a list has at these places, from the first on.
fn at_places<const LANES: usize>(
    list: &[usize],
    first: usize,
    places: &[usize; LANES],
) -> [usize; LANES]
    requires { (k : ℕ) → k < LANES → first + slice_index places.now k < length list.now }
    ensures { (k : ℕ) → k < LANES → slice_index result k ≡ slice_index list.now (first + slice_index places.now k) }
{
    let mut picked = [0; LANES];
    'lanes: for k in 0..LANES {
        picked[k] = list[first + places[k]];
    }
    picked
}

// Writes the rows of a group, and marks its messages.
fn write_group<H: PieceHash<LANES, MOST>, const LANES: usize, const MOST: usize>(
    hash: &H,
    messages: &Messages<'_>,
    first: usize,
    places: &[usize; LANES],
    written: &mut [bool; WINDOW],
    out: &mut [u8],
)
    requires room { H.size hash.now * length messages.now.starts.now ≤ length out.old }
    requires inside { (k : ℕ) → k < LANES → first + slice_index places.now k < length messages.now.starts.now }
    requires window { (k : ℕ) → k < LANES → slice_index places.now k < 64 }
    requires right { AreWritten (H.digest hash.now) (H.size hash.now) messages.now out.old first
        written.old }
    ensures right { AreWritten (H.digest hash.now) (H.size hash.now) messages.now out.new first
        written.new }
    ensures kept { (i : ℕ) → IsRow (H.digest hash.now) (H.size hash.now) messages.now out.old i
        → IsRow (H.digest hash.now) (H.size hash.now) messages.now out.new i }
    ensures length { length out.new ≡ length out.old }
{
    let size = hash.digest_len();
    let rows = hash.rows(
        messages.bytes,
        &at_places(messages.starts, first, places),
        &at_places(messages.lens, first, places),
    );
    'rows: for k in 0..LANES {
        put_digest(&rows[k], size, out, size * (first + places[k]));
        written[places[k]] = true;
    }
}

// Writes the row of message `i`, unless it is written.
fn write_left<H: PieceHash<LANES, MOST>, const LANES: usize, const MOST: usize>(
    hash: &H,
    messages: &Messages<'_>,
    i: usize,
    written: bool,
    out: &mut [u8],
)
    requires room { H.size hash.now * length messages.now.starts.now ≤ length out.old }
    requires inside { i < length messages.now.starts.now }
    requires right { written ≡ true
        → IsRow (H.digest hash.now) (H.size hash.now) messages.now out.old i }
    ensures right { IsRow (H.digest hash.now) (H.size hash.now) messages.now out.new i }
    ensures kept { (j : ℕ) → IsRow (H.digest hash.now) (H.size hash.now) messages.now out.old j
        → IsRow (H.digest hash.now) (H.size hash.now) messages.now out.new j }
    ensures length { length out.new ≡ length out.old }
{
    if written {
        return;
    }
    let size = hash.digest_len();
    let start = messages.starts[i];
    let row = hash.one(&messages.bytes[start..start + messages.lens[i]]);
    put_digest(&row, size, out, size * i);
}

// Writes the rows of `count` messages, from the first on.
fn write_window<H: PieceHash<LANES, MOST>, const LANES: usize, const MOST: usize>(
    hash: &H,
    messages: &Messages<'_>,
    first: usize,
    count: usize,
    out: &mut [u8],
)
    requires room { H.size hash.now * length messages.now.starts.now ≤ length out.old }
    requires some { 0 < count }
    requires most { count ≤ 64 }
    requires inside { first + count ≤ length messages.now.starts.now }
    ensures right { (i : ℕ) → first ≤ i → i < first + count
        → IsRow (H.digest hash.now) (H.size hash.now) messages.now out.new i }
    ensures kept { (i : ℕ) → IsRow (H.digest hash.now) (H.size hash.now) messages.now out.old i
        → IsRow (H.digest hash.now) (H.size hash.now) messages.now out.new i }
    ensures length { length out.new ≡ length out.old }
{
    let own = &messages.lens[first..first + count];
    let mut waiting = [true; WINDOW];
    let mut written = [false; WINDOW];
    'groups: for _turn in 0..count {
        let group = longest::<LANES>(own, &waiting);
        if goes_together(&group, own, hash.fewest(own[group.places[0]])) {
            write_group(hash, messages, first, &group.places, &mut written, out);
            stop_waiting(&mut waiting, &group.places);
        } else {
            waiting[group.places[0]] = false;
        }
    }
    'rest: for k in 0..count {
        write_left(hash, messages, first + k, written[k], out);
    }
}

// They wait no more.
fn stop_waiting<const LANES: usize>(waiting: &mut [bool; WINDOW], places: &[usize; LANES])
    requires { (k : ℕ) → k < LANES → slice_index places.now k < 64 }
    ensures { (k : ℕ) → k < LANES → slice_index_or waiting.new (slice_index places.now k) true ≡ false }
{
    'places: for k in 0..LANES {
        waiting[places[k]] = false;
    }
}

/// Writes the digests of the messages of `lens` bytes that begin at `starts`, one after the other. In which order they
/// are hashed is open.
pub(crate) fn write_rows<H: PieceHash<LANES, MOST>, const LANES: usize, const MOST: usize>(
    hash: &H,
    bytes: &[u8],
    starts: &[usize],
    lens: &[usize],
    out: &mut [u8],
)
    requires same { length lens.now ≡ length starts.now }
    requires fits { (i : ℕ) → i < length starts.now
        → slice_index starts.now i + slice_index lens.now i ≤ length bytes.now }
    requires room { H.size hash.now * length starts.now ≤ length out.old }
    ensures right { (i : ℕ) → i < length starts.now → take (H.size hash.now) (drop (H.size hash.now * i) out.new)
        ≡ H.digest hash.now (take (slice_index lens.now i) (drop (slice_index starts.now i) bytes.now)) }
    ensures length { length out.new ≡ length out.old }
{
    let messages = Messages {
        bytes,
        starts,
        lens,
    };
    let mut first = 0;
    'windows: while first < starts.len() {
        let count = WINDOW.min(starts.len() - first);
        write_window(hash, &messages, first, count, out);
        first += count;
    }
}
