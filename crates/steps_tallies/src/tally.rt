// How many candidates each subterm of a part or body has, and where it ends, tallied once from its last byte to its first.
ghost use Rattle.std.specs.Prelude.{◌≡◌, false, ◌+◌, ◌<◌, ◌≤◌, length, get_or};
ghost use Rattle.terms_bytes.specs.FieldPlaces.{field_place};
ghost use Rattle.terms.specs.Limits.{longest_term, most_definitions};
ghost use Rattle.steps_tallies.specs.Tally.{tally_size, body_tallies, visible_at, silent_at, end_at, restricted_bodies, restricted_at, FewCalls, body_tally, TalliedBelow, PlacesBelow, BodiesTidied, BodiesUnrestricted, BodiesTallied, PartTallied};
ghost use Rattle.steps_tallies.specs.Tallying.{number_at, EntryIs, nothing_at, tallied_entry, prefix_entry, call_entry, choice_entry, parallel_entry, Small, Filled};

use crate::bodies::{arities_of, body_at};
use crate::front::front_at;
use terms_bytes::bytes::get;
use terms_bytes::frame::{after_field, field_place};
use terms_bytes::limits::{LONGEST_TERM, MOST_DEFINITIONS};
use terms_bytes::tags::{CALL, CHOICE, INACTION, MATCH, PARALLEL, SILENT};
use terms_restrictions::restriction::has_restriction;

// Three times the longest term, at each place the visible candidates, the silent ones, and the end; and one number more.
pub const TALLY: usize = 337;

// A tally for each definition, and one number more.
pub const BODY_TALLIES: usize = 5393;

// That number is 0 only where no body has a restriction or an output of a new name.
const RESTRICTED_BODIES: usize = 5392;

// The last number of a part's tally is 0 only where neither the part nor a body has one.
const RESTRICTED: usize = 336;

// The last number of a body's tally: where its field begins in the question.
const PLACE: usize = 336;

// No body of an accepted question begins this far behind.
const SMALL_PLACE: usize = 65536;

// The number at `i` behind `from`, and 0 past the end.
fn number(list: &[u32], from: usize, i: usize) -> usize
    ensures { result ≡ get_or list.now (from + i) 0 }
{
    let n = list.len();
    if n <= from {
        return 0;
    }
    if n - from <= i {
        return 0;
    }
    list[from + i] as usize
}

pub fn visible_at(tally: &[u32], at: usize) -> usize
    ensures { result ≡ visible_at tally.now at }
{
    number(tally, 0, at)
}

pub fn silent_at(tally: &[u32], at: usize) -> usize
    ensures { result ≡ silent_at tally.now at }
{
    number(tally, LONGEST_TERM, at)
}

pub fn end_at(tally: &[u32], at: usize) -> usize
    ensures { result ≡ end_at tally.now at }
{
    number(tally, LONGEST_TERM + LONGEST_TERM, at)
}

#[tactic(auto, unfolding(crate::specs::Tallying::number_at))]
pub fn number_at(tally: &[u32], at: usize, silently: bool) -> usize
    ensures { result ≡ number_at tally.now at silently }
{
    if silently {
        silent_at(tally, at)
    } else {
        visible_at(tally, at)
    }
}

// The candidates of a term, and where it ends.
#[derive(Clone, Copy)]
pub struct Entry {
    pub visible: usize,
    pub silent: usize,
    pub end: usize,
}

// No candidates, up to `end`.
#[tactic(auto, unfolding(crate::specs::Tallying::nothing_at))]
fn nothing(end: usize) -> Entry
    ensures { result ≡ nothing_at end }
{
    Entry {
        visible: 0,
        silent: 0,
        end,
    }
}

// The entry of a place that is tallied. Past the bytes there is nothing.
fn tallied(tally: &[u32], at: usize, size: usize) -> Entry
    ensures { result ≡ tallied_entry tally.now at size }
{
    if size <= at {
        return nothing(at);
    }
    Entry {
        visible: visible_at(tally, at),
        silent: silent_at(tally, at),
        end: end_at(tally, at),
    }
}

// A prefix that ends at `end`, by its first byte.
fn prefix_entry(t: u8, end: usize) -> Entry
    ensures { result ≡ prefix_entry t end }
{
    if t == SILENT {
        return Entry {
            visible: 0,
            silent: 1,
            end,
        };
    }
    Entry {
        visible: 1,
        silent: 0,
        end,
    }
}

// A call of definition `k` that ends at `end`: its body's numbers.
fn call_entry(bodies: &[u32], k: u8, end: usize) -> Entry
    ensures { result ≡ call_entry bodies.now k end }
{
    let at = TALLY * (k as usize);
    Entry {
        visible: visible_at(bodies, at),
        silent: silent_at(bodies, at),
        end,
    }
}

// The choice of two terms.
fn choice(p: Entry, q: Entry) -> Entry
    requires { Small p × Small q }
    ensures { result ≡ choice_entry p q }
{
    Entry {
        visible: p.visible + q.visible,
        silent: p.silent + q.silent,
        end: q.end,
    }
}

// Two terms in parallel: besides, each visible candidate of the one meets each of the other.
fn parallel(p: Entry, q: Entry) -> Entry
    requires { Small p × Small q }
    ensures { result ≡ parallel_entry p q }
{
    Entry {
        visible: p.visible + q.visible,
        silent: p.silent + q.silent + p.visible * q.visible,
        end: q.end,
    }
}

// The entry of a place from the entries behind it.
fn entry_at(src: &[u8], at: usize, arities: &[u8], bodies: &[u32], tally: &[u32]) -> Entry
    requires { (at < length src.now) × (length src.now ≤ longest_term) × FewCalls longest_term bodies.now × Filled src.now arities.now bodies.now (1 + at) tally.now }
    ensures { (at < result.end) × EntryIs src.now arities.now bodies.now at result }
{
    let Some(h) = front_at(src, at, arities) else {
        return nothing(at + 1);
    };
    let t = h.tag;
    let next = h.next;
    if t == INACTION {
        return nothing(at + 1);
    }
    if t == CALL {
        return call_entry(bodies, get(src, at + 1), next);
    }
    let p = tallied(tally, next, src.len());
    if t < MATCH {
        return prefix_entry(t, p.end);
    }
    let q = tallied(tally, p.end, src.len());
    if t == CHOICE {
        return choice(p, q);
    }
    if t == PARALLEL {
        return parallel(p, q);
    }
    p
}

// Fills the tally of a part or body, where a call has the numbers of its body.
fn fill(src: &[u8], arities: &[u8], bodies: &[u32], tally: &mut [u32])
    requires { (length src.now ≤ longest_term) × FewCalls longest_term bodies.now × (length tally.old ≡ tally_size) }
    ensures { Filled src.now arities.now bodies.now 0 tally.new }
{
    for at in (0..src.len()).rev() {
        let e = entry_at(src, at, arities, bodies, tally);
        tally[at] = e.visible as u32;
        tally[LONGEST_TERM + at] = e.silent as u32;
        tally[LONGEST_TERM + LONGEST_TERM + at] = e.end as u32;
    }
}

// Tallies the body of definition `k`, whose field begins at `place`; no further call may be opened in it. What is too long for a body has no
// candidates.
fn tally_body(question: &[u8], k: usize, place: usize, bodies: &mut [u32])
    requires { (k < most_definitions) × TalliedBelow question.now k bodies.old × (place ≡ field_place question.now k) }
    ensures { TalliedBelow question.now (k + 1) bodies.new }
{
    let body = body_at(question, place);
    if body.len() == 0 {
        return;
    }
    if LONGEST_TERM < body.len() {
        return;
    }
    let none = [0u32; 1];
    let from = TALLY * k;
    let end = from + TALLY;
    fill(body, arities_of(question), &none, &mut bodies[from..end]);
}

// Puts the place of body `k` into its tally, if it is small.
fn put_place(question: &[u8], bodies: &mut [u32], k: usize, place: usize)
    requires { (k < most_definitions) × TalliedBelow question.now most_definitions bodies.old × PlacesBelow question.now k bodies.old × (place ≡ field_place question.now k) }
    ensures { TalliedBelow question.now most_definitions bodies.new × PlacesBelow question.now (k + 1) bodies.new }
{
    if place < SMALL_PLACE {
        bodies[TALLY * k + PLACE] = place as u32;
    }
}

// Puts the places of the bodies into their tallies, found on one way along the question.
fn put_places(question: &[u8], bodies: &mut [u32])
    requires { TalliedBelow question.now most_definitions bodies.old }
    ensures { TalliedBelow question.now most_definitions bodies.new × PlacesBelow question.now most_definitions bodies.new }
{
    let mut place = field_place(question, 0);
    for k in 0..MOST_DEFINITIONS {
        put_place(question, bodies, k, place);
        place = after_field(question, place);
    }
}

// Whether a body has a restriction or an output of a new name.
fn has_restricted_body(question: &[u8]) -> bool
    ensures { result ≡ false → BodiesUnrestricted question.now }
{
    let arities = arities_of(question);
    let mut place = field_place(question, 0);
    for k in 0..arities.len() {
        let body = body_at(question, place);
        if has_restriction(body, arities) {
            return true;
        }
        place = after_field(question, place);
    }
    false
}

// Notes whether a body has a restriction.
fn note_restrictions(question: &[u8], bodies: &mut [u32])
    requires { TalliedBelow question.now most_definitions bodies.old × PlacesBelow question.now most_definitions bodies.old × BodiesTidied question.now }
    ensures { BodiesTallied question.now bodies.new }
{
    if has_restricted_body(question) {
        bodies[RESTRICTED_BODIES] = 1;
    }
}

// The tallies of the bodies of all definitions, one behind the other. The bodies are tidied.
pub fn body_tallies(question: &[u8]) -> [u32; BODY_TALLIES]
    requires { BodiesTidied question.now }
    ensures { BodiesTallied question.now result }
{
    let mut bodies = [0u32; BODY_TALLIES];
    let mut place = field_place(question, 0);
    for k in 0..MOST_DEFINITIONS {
        tally_body(question, k, place, &mut bodies);
        place = after_field(question, place);
    }
    put_places(question, &mut bodies);
    note_restrictions(question, &mut bodies);
    bodies
}

// The place of the body of definition `k`.
pub fn place_of(question: &[u8], bodies: &[u32], k: usize) -> usize
    requires { BodiesTallied question.now bodies.now }
    ensures { result ≡ field_place question.now k }
{
    if MOST_DEFINITIONS <= k {
        return field_place(question, k);
    }
    if SMALL_PLACE <= question.len() + 258 {
        return field_place(question, k);
    }
    number(bodies, TALLY * k, PLACE)
}

// The tally of the body of definition `k`.
pub fn body_tally(bodies: &[u32], k: usize) -> &[u32]
    requires { (k < most_definitions) × (length bodies.now ≡ body_tallies) }
    ensures { result.now ≡ body_tally bodies.now k }
{
    let from = TALLY * k;
    let end = from + TALLY;
    &bodies[from..end]
}

// Whether it is noted that a body has a restriction.
pub fn bodies_restricted(bodies: &[u32]) -> bool
    ensures { result ≡ false → get_or bodies.now restricted_bodies 0 ≡ 0 }
{
    number(bodies, 0, RESTRICTED_BODIES) != 0
}

// Whether it is noted that the part that is tallied, or a body, has a restriction.
pub fn is_restricted(tally: &[u32]) -> bool
    ensures { result ≡ false → get_or tally.now restricted_at 0 ≡ 0 }
{
    number(tally, 0, RESTRICTED) != 0
}

// Tallies the candidates of a part, in which one call may be opened, and notes whether the part or a body has a restriction. What `numbers` has before is not read.
pub fn tally(question: &[u8], bodies: &[u32], src: &[u8], restricted: bool, numbers: &mut [u32])
    requires { (length src.now ≤ longest_term) × BodiesTallied question.now bodies.now × (length numbers.old ≡ tally_size) }
    ensures { PartTallied question.now src.now restricted numbers.new }
{
    fill(src, arities_of(question), bodies, numbers);
    numbers[RESTRICTED] = restricted as u32;
}
