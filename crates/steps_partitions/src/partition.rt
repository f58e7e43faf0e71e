// Partitions of the places of a call's names, each known by its number.
ghost use Rattle.std.specs.Prelude.{◌≡◌, ◌+◌, ◌≤◌, ◌<◌};
ghost use Rattle.steps_partitions.specs.Partition.{most_places, continuations, merged_class, ClassWeightIs, RankIs, ClassIs, Cases, UnrankIs, MergeIs, MergedRowIs};

use terms_bytes::bytes::get;
use terms_bytes::limits::GREATEST_ARITY;

// The partitions of as many places as a definition has names at most.
pub const MOST_PARTITIONS: usize = 4140;

// In how many ways r further places can be given classes behind m classes, at 9 r + m, where r + m is at most 8.
const WAYS: [usize; 81] = [
    1, 1, 1, 1, 1, 1, 1, 1, 1, 1, 2, 3, 4, 5, 6, 7, 8, 0, 2, 5, 10, 17, 26, 37, 50, 0, 0, 5, 15,
    37, 77, 141, 235, 0, 0, 0, 15, 52, 151, 372, 799, 0, 0, 0, 0, 52, 203, 674, 1915, 0, 0, 0, 0,
    0, 203, 877, 3263, 0, 0, 0, 0, 0, 0, 877, 4140, 0, 0, 0, 0, 0, 0, 0, 4140, 0, 0, 0, 0, 0, 0, 0,
    0,
];

// In how many ways `rest` further places can be given classes behind so many.
pub fn ways(rest: usize, classes: usize) -> usize
    requires { rest + classes ≤ most_places }
    ensures { result ≡ continuations rest classes }
{
    WAYS[9 * rest + classes]
}

// What a place of class `class` adds to the number, behind so many classes and with `rest` places to come.
fn class_weight(class: u8, rest: usize, classes: usize) -> usize
    requires { rest + classes ≤ most_places }
    ensures { ClassWeightIs class rest classes result }
{
    class as usize * ways(rest, classes)
}

// The number of the partition that the first `count` entries are.
pub fn rank(classes: &[u8], count: usize) -> usize
    requires { count ≤ most_places }
    ensures { RankIs classes.now count result }
{
    let mut m = 0;
    let mut number = 0;
    for i in 0..count {
        if i < m {
            return 0;
        }
        let c = get(classes, i);
        number += class_weight(c, count - 1 - i, m);
        m = m.max(c as usize + 1);
    }
    number
}

// The class of a place, one of `classes` that have come or the next one, by the number left, where a class takes `size` numbers.
fn class_in(left: usize, size: usize, classes: usize) -> usize
    requires { 0 < size }
    ensures { ClassIs left size classes result }
{
    classes.min(left / size)
}

// The partition of this number.
pub fn unrank(row: usize, count: usize) -> [u8; GREATEST_ARITY]
    requires { count ≤ most_places }
    ensures { UnrankIs row count result }
{
    let mut classes = [0u8; GREATEST_ARITY];
    let mut m = 0;
    let mut left = row;
    for i in 0..count {
        let size = ways(count - 1 - i, m);
        let c = class_in(left, size, m);
        classes[i] = c as u8;
        left -= c * size;
        m = m.max(c + 1);
    }
    classes
}

// Class c once class `hi` is class `lo`.
fn merged_into(lo: u8, hi: u8, c: u8) -> u8
    requires { lo < hi }
    ensures { Cases lo hi c result }
{
    if c == hi {
        return lo;
    }
    if hi < c {
        return c - 1;
    }
    c
}

// Class c once classes a and b are one.
fn merged_class(a: u8, b: u8, c: u8) -> u8
    ensures { result ≡ merged_class a b c }
{
    if a == b {
        return c;
    }
    if b < a {
        return merged_into(b, a, c);
    }
    merged_into(a, b, c)
}

// The first `count` entries with two classes merged.
fn merge(classes: &[u8], count: usize, a: u8, b: u8) -> [u8; GREATEST_ARITY]
    requires { count ≤ most_places }
    ensures { MergeIs classes.now count a b result }
{
    let mut merged = [0u8; GREATEST_ARITY];
    for i in 0..count {
        merged[i] = merged_class(a, b, get(classes, i));
    }
    merged
}

// The number of the partition of this number once the classes of two places are one.
pub fn merged_row(row: usize, count: usize, i: usize, j: usize) -> usize
    requires { (count ≤ most_places) × (i < count) × (j < count) }
    ensures { MergedRowIs row count i j result }
{
    let classes = unrank(row, count);
    let a = get(&classes, i);
    let b = get(&classes, j);
    if a == b {
        return row;
    }
    let merged = merge(&classes, count, a, b);
    rank(&merged, count)
}
