// The neighbours of every stop, worked out once for a planning call, into the table that `improve` keeps and lends. It is one flat array of
// numbers, without a heap: stop i has the 50 places from 50 * i on, with 0 where there is no further neighbour.
ghost use Rattle.std.specs.Prelude.{◌≡◌, ◌+◌, ◌*◌, ◌<◌, ◌≤◌, length, Some, None, if◌then◌else◌};
ghost use Rattle.rules.specs.Fields.{stops};
ghost use Rattle.rules.specs.Neighbours.{between, compatible, neighbour_key};
ghost use Rattle.neighbours.specs.Tables.{TableOf, RowOf, RowBy, KeysOf, key_above, least_above, stop_of_key};

use day::days::Day;

// Above every key. In the pass over the keys it stands for none, so that one comparison does for both.
const NO_KEY: u32 = u32::MAX;

// Whether stop j, so many minutes away, is a neighbour of stop i.
fn is_neighbour(day: &Day, i: usize, j: usize, away: u32) -> bool
    requires { (0 < i) × (i ≤ stops day.now) × (0 < j) × (j ≤ stops day.now) × (away ≡ between day.now i j) }
    ensures { result ≡ compatible day.now i j }
{
    let here = day.stop_window(i);
    let there = day.stop_window(j);
    let service = day.stop_service(i);
    let is_met = (there.opening <= here.closing + service + away)
        & (here.opening + service + away <= there.closing);
    (i != j) & is_met
}

// The key of stop j as a neighbour of stop i, where it is one: its minutes, then its number.
fn key_of(day: &Day, i: usize, j: usize) -> Option<u32>
    requires { (0 < i) × (i ≤ stops day.now) × (0 < j) × (j ≤ stops day.now) }
    ensures { result ≡ (if compatible day.now i j then Some (neighbour_key day.now i j) else None) }
{
    let leg = day.leg(day.stop_place(i), day.stop_place(j));
    if is_neighbour(day, i, j, leg.minutes) {
        Some(leg.minutes * 256 + (j as u32))
    } else {
        None
    }
}

// The keys of all stops as neighbours of stop i, in the order of their numbers.
fn fill_keys(day: &Day, i: usize, keys: &mut [u32])
    requires { (0 < i) × (i ≤ stops day.now) × (length keys.old ≡ stops day.now) }
    ensures { KeysOf day.now i keys.new }
{
    for (j, key) in keys.iter_mut().enumerate() {
        *key = key_of(day, i, j + 1).unwrap_or(NO_KEY);
    }
}

// A key that is above the last one, and none in place of another.
fn key_above(last: u32, key: u32) -> u32
    ensures { result ≡ key_above last key }
{
    if last < key { key } else { NO_KEY }
}

// The least key above the last one. No way leads out of the pass, so that many keys can be looked at together. In a fold over
// the keys, which was tried, LLVM looks at one key at a time.
fn next_key(keys: &[u32], last: u32) -> u32
    ensures { result ≡ least_above last keys.now }
{
    let mut best = NO_KEY;
    for key in keys {
        best = best.min(key_above(last, *key));
    }
    best
}

// The stop of a key, 0 for none: no stop has number 0, so that a place of the table is one byte. An Option in it would take two.
fn stop_of_key(key: u32) -> u8
    ensures { result ≡ stop_of_key key }
{
    if key == NO_KEY { 0 } else { (key % 256) as u8 }
}

// A row by the keys of a stop's neighbours.
fn fill_row(keys: &[u32], row: &mut [u8])
    ensures { RowBy keys.now (length row.old) row.new }
{
    let mut last = 0;
    for place in row.iter_mut() {
        last = next_key(keys, last);
        *place = stop_of_key(last);
    }
}

// The row of stop i.
fn fill_stop(day: &Day, i: usize, row: &mut [u8])
    requires { (stops day.now ≤ 240) × (0 < i) × (i ≤ stops day.now) }
    ensures { RowOf day.now i (length row.old) row.new }
{
    let mut space = [0u32; 240];
    let keys = &mut space[..day.stops()];
    fill_keys(day, i, keys);
    fill_row(keys, row);
}

// The first k neighbours of every stop. Of a row's 50 places, of which those of stop i begin at 50 * i, the first k are written.
pub fn fill_table(day: &Day, k: usize, table: &mut [u8])
    requires { (stops day.now ≤ 240) × (k ≤ 50) × (length table.old ≡ 12050) }
    ensures { TableOf day.now k table.new }
{
    for i in 1..=day.stops() {
        fill_stop(day, i, &mut table[50 * i..50 * i + k]);
    }
}
