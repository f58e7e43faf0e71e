// The pieces that a result is written of.
ghost use Rattle.std.specs.Prelude.{◌≡◌, false, [], ◌∷◌, ◌+◌, ◌≤◌, ◌<◌, length, get_or};
ghost use Rattle.steps_conditions.specs.Names.{most_binders, name_slots, Kept};
ghost use Rattle.steps_plans.specs.Plans.{opening, StoreIs, TermIs, WriteIs};
ghost use Rattle.steps_tallies.specs.Tally.{TallyIs, EndsTallied};

use crate::plan::{Cursor, Task};
use steps_passing::names::{renaming, unchanged};
use steps_tallies::bodies::arities_of;
use steps_tallies::tally::end_at;
use terms_bytes::bytes::{copy, get, room};
use terms_bytes::limits::TABLE_NAMES;
use terms_bytes::tags::{OUTPUT, PARALLEL, RESTRICTION, SILENT};
use terms_renaming::rename::rename;

// Binders one within the other whose indices have a byte.
const MOST_LEVELS: usize = 128;

// One byte.
pub fn store(out: &mut [u8], put: usize, b: u8) -> usize
    requires { put ≤ length out.old }
    ensures { StoreIs out.old put (b ∷ []) result out.new }
{
    if out.len() <= put {
        return out.len() + 1;
    }
    out[put] = b;
    put + 1
}

// A term, renamed by the table. Where each name stays as it is, its bytes are copied.
pub fn write_term(
    question: &[u8],
    src: &[u8],
    tally: &[u32],
    cursor: Cursor,
    levels: usize,
    names: &[u8],
    out: &mut [u8],
) -> usize
    requires { (cursor.binders ≤ most_binders) × (cursor.put ≤ length out.old) × EndsTallied question.now src.now tally.now × (length names.now ≡ name_slots) }
    ensures { TermIs question.now src.now cursor.at cursor.binders names.now levels out.old cursor.put result out.new }
{
    let at = cursor.at;
    let binders = cursor.binders;
    let put = cursor.put;
    if src.len() <= at {
        return out.len() + 1;
    }
    let n = end_at(tally, at) - at;
    if !room(out.len(), put, n) {
        return out.len() + 1;
    }
    if unchanged(names, binders, levels) {
        copy(src, at, n, out, put);
        return put + n;
    }
    // an index of more than a byte: what is written is not used
    if MOST_LEVELS < levels {
        return out.len() + 1;
    }
    let table = renaming(names, binders, levels);
    rename(src, at, arities_of(question), &table, out, put);
    put + n
}

// The continuation of a prefix.
pub fn write_prefix(
    question: &[u8],
    src: &[u8],
    tally: &[u32],
    cursor: Cursor,
    task: Task,
    names: &mut [u8],
    out: &mut [u8],
) -> usize
    requires { (cursor.at < length src.now) × (get_or src.now cursor.at 0 < 5) × (cursor.binders < most_binders) × (task.still ≡ false) × (length names.old ≡ name_slots) × (cursor.put ≤ length out.old) × TallyIs question.now src.now task.calls tally.now }
    ensures { WriteIs question.now src.now cursor.at cursor.binders names.old task out.old cursor.put result out.new × Kept cursor.binders names.old names.new }
{
    let at = cursor.at;
    let binders = cursor.binders;
    let t = get(src, at);
    let levels = task.levels;
    if t == SILENT {
        let next = at + 1;
        let rest = Cursor { at: next, ..cursor };
        return write_term(question, src, tally, rest, levels, names, out);
    }
    if t == OUTPUT {
        let behind = at + 3;
        let rest = Cursor {
            at: behind,
            ..cursor
        };
        return write_term(question, src, tally, rest, levels, names, out);
    }
    names[TABLE_NAMES + binders] = task.new;
    let bound = at + 2;
    let inner = binders + 1;
    let rest = Cursor {
        at: bound,
        binders: inner,
        ..cursor
    };
    write_term(question, src, tally, rest, levels, names, out)
}

// The bytes before the sides of a parallel.
pub fn open_pair(out: &mut [u8], put: usize, closed: bool) -> usize
    requires { put ≤ length out.old }
    ensures { StoreIs out.old put (opening closed) result out.new }
{
    if !closed {
        return store(out, put, PARALLEL);
    }
    let e = store(out, put, RESTRICTION);
    if out.len() < e {
        return e;
    }
    store(out, e, PARALLEL)
}
