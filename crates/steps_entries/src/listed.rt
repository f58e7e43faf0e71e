// The listed steps: the bytes of one, and the list of them while it is made, entries of 132 bytes each without duplicates. An entry stays where it
// was put; an index behind the entries has a byte for each, which says where the entries stand in ascending byte order.
ghost use Rattle.std.specs.Prelude.{◌≡◌, ◌+◌, ◌*◌, ◌<◌, ◌≤◌, length, take};
ghost use Rattle.std.proofs.lemmas.List.Edits.{sets};
ghost use Rattle.terms.specs.Limits.{name_count, longest_term};
ghost use Rattle.steps_entries.specs.Entries.{entry_from, comes_before, Alike, AlikeIs, place_at, PlaceIs, InsertIs};
ghost use Rattle.steps_entries.specs.EntryBytes.{object_byte, action_bytes, entry_bytes};
ghost use Rattle.steps.specs.Limits.{step_bytes, most_steps};
ghost use Rattle.steps_entries.specs.Entries.{index_place, list_room};

use crate::limits::{INDEX, MOST_STEPS, STEP_BYTES};
use steps_conditions::action::{Action, NEW_NAME};
use terms_bytes::bytes::{copy, get};
use terms_bytes::limits::NAME_COUNT;

// How many bytes of two entries are compared at once: by long pieces first,
const LONG_PIECE: usize = 16;

// and by short ones inside the long piece that differs.
const SHORT_PIECE: usize = 4;

// The bytes of an action.
#[derive(Clone, Copy)]
pub struct ActionBytes {
    pub kind: u8,
    pub channel: u8,
    pub object: u8,
}

// The entry of a step with the condition's classes, the action's bytes and the first `n` bytes of a result.
pub fn entry_of(class: &[u8], action: ActionBytes, res: &[u8], n: usize) -> [u8; STEP_BYTES]
    requires { (name_count ≤ length class.now) × (n ≤ length res.now) × (n ≤ longest_term) }
    ensures { result ≡ entry_bytes class.now action (take n res.now) }
{
    let mut entry = [0u8; STEP_BYTES];
    copy(class, 0, NAME_COUNT, &mut entry, 0);
    entry[NAME_COUNT] = action.kind;
    entry[NAME_COUNT + 1] = action.channel;
    entry[NAME_COUNT + 2] = action.object;
    entry[NAME_COUNT + 3] = n as u8;
    copy(res, 0, n, &mut entry, NAME_COUNT + 4);
    entry
}

// The byte of an action's object outside every restriction: the new name is `x`, and another name is rewritten by the condition.
fn object_byte(class: &[u8], object: u8, x: u8) -> u8
    ensures { result ≡ object_byte class.now x object }
{
    if object == NEW_NAME {
        x
    } else {
        get(class, object as usize)
    }
}

// The bytes of an action outside every restriction: the channel is rewritten by the condition, and the new name is `x`.
pub fn action_bytes(class: &[u8], action: Action, x: u8) -> ActionBytes
    ensures { result ≡ action_bytes class.now x action }
{
    match action {
        Action::Silent => ActionBytes {
            kind: 0,
            channel: 0,
            object: 0,
        },
        Action::Input(a, b) => ActionBytes {
            kind: 1,
            channel: get(class, a as usize),
            object: object_byte(class, b, x),
        },
        Action::Output(a, b) => ActionBytes {
            kind: 2,
            channel: get(class, a as usize),
            object: object_byte(class, b, x),
        },
        Action::NewOutput(a, b) => ActionBytes {
            kind: 3,
            channel: get(class, a as usize),
            object: object_byte(class, b, x),
        },
    }
}

// Whether the `n` bytes at `i` and at `j` are alike. All are looked at, so that the processor can take many at once.
pub fn alike(a: &[u8], i: usize, b: &[u8], j: usize, n: usize) -> bool
    requires { (i + n ≤ length a.now) × (j + n ≤ length b.now) }
    ensures { AlikeIs a.now i b.now j n result }
{
    let mut same = true;
    for k in 0..n {
        same = same & (a[i + k] == b[j + k]);
    }
    same
}

// How far the entries at `i` and at `j` are alike, by pieces of `n` bytes: a place in them, `from` or behind it, before which they do not differ.
fn alike_to(a: &[u8], i: usize, b: &[u8], j: usize, from: usize, n: usize) -> usize
    requires { (i + step_bytes ≤ length a.now) × (j + step_bytes ≤ length b.now) × (from ≤ step_bytes) × (0 < n) × (n ≤ step_bytes) × Alike a.now i b.now j from }
    ensures { (result ≤ step_bytes) × Alike a.now i b.now j result }
{
    let mut k = from;
    // no range: the end of the last piece is the answer, too
    while k + n <= STEP_BYTES {
        if !alike(a, i + k, b, j + k, n) {
            return k;
        }
        k += n;
    }
    k
}

// Whether the entry at `i` comes before the entry at `j`: the first byte that differs decides.
pub fn precedes(a: &[u8], i: usize, b: &[u8], j: usize) -> bool
    requires { (i + step_bytes ≤ length a.now) × (j + step_bytes ≤ length b.now) }
    ensures { result ≡ comes_before (entry_from a.now i) (entry_from b.now j) }
{
    let far = alike_to(a, i, b, j, 0, LONG_PIECE);
    for k in alike_to(a, i, b, j, far, SHORT_PIECE)..STEP_BYTES {
        let x = a[i + k];
        let y = b[j + k];
        if x < y {
            return true;
        }
        if y < x {
            return false;
        }
    }
    false
}

// Where the i-th entry in order begins.
fn entry_place(list: &[u8], i: usize) -> usize
    requires { i < most_steps }
    ensures { (result ≡ place_at list.now i * step_bytes) × (result + step_bytes ≤ index_place) }
{
    get(list, INDEX + i) as usize * STEP_BYTES
}

// Where the entry belongs among the first `count` in order, by halving: the number of entries that come before it.
fn place(list: &[u8], count: usize, entry: &[u8]) -> usize
    requires { (count ≤ most_steps) × (list_room ≤ length list.now) × (step_bytes ≤ length entry.now) }
    ensures { PlaceIs list.now count (entry_from entry.now 0) result }
{
    let mut low = 0;
    let mut high = count;
    while low < high {
        let middle = low + (high - low) / 2;
        if precedes(list, entry_place(list, middle), entry, 0) {
            low = middle + 1;
        } else {
            high = middle;
        }
    }
    low
}

// Moves the first `n` bytes up by one, the last first. They begin the slice, so that the compiler makes this one move of memory.
fn move_up(list: &mut [u8], n: usize)
    requires { n + 1 ≤ length list.old }
    ensures { list.new ≡ sets list.old 1 (take n list.old) }
{
    for i in (0..n).rev() {
        list[i + 1] = list[i];
    }
}

// Puts the entry behind the first `count`, unless its bytes are there, and its number in its place in the index. Answers how many there are then;
// where they would be more than the limit, nothing changes.
pub fn insert(list: &mut [u8], count: usize, entry: &[u8]) -> usize
    requires { (count ≤ most_steps) × (list_room ≤ length list.old) × (length entry.now ≡ step_bytes) }
    ensures { InsertIs list.old count entry.now result list.new }
{
    let i = place(list, count, entry);
    if i < count {
        if !precedes(entry, 0, list, entry_place(list, i)) {
            return count;
        }
    }
    if count == MOST_STEPS {
        return count + 1;
    }
    copy(entry, 0, STEP_BYTES, list, count * STEP_BYTES);
    let at = INDEX + i;
    move_up(&mut list[at..], count - i);
    list[at] = count as u8;
    count + 1
}
