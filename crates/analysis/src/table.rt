// The sorted table of keys in a lent buffer, two words a key: binary search, and insertion in place.
ghost use Rattle.std.specs.Prelude.{◌≡◌, ◌^◌, ◌<◌, ◌≤◌};
ghost use Rattle.footprint.specs.KeyWords.{key_from, keys_in};
ghost use Rattle.analysis.specs.KeyTable.{place_in, cell_place, stands_at, Sorted, Tabled, Inserted};

use block::limits::MAX_KEYS;

// Stays: the words and the number of their keys are two parameters, since `zumbiqa_open` lends words and the table grows into those behind it.

// How many of the n keys are below a key, by binary search.
fn key_place(keys: &[u64], n: usize, high: u64, low: u64) -> usize
    requires sorted { Sorted n keys.now }
    requires low_bound { low < 2 ^ 32 }
    ensures place { result ≡ place_in (keys_in n keys.now) (key_from high low) }
    ensures bound { result ≤ n }
{
    let (pairs, _) = keys.as_chunks::<2>();
    pairs[..n].partition_point(|key| key[0] < high || key[0] == high && key[1] < low)
}

// The number of a key's cell; for a key that the table lacks, the place where it would stand.
pub(crate) fn cell_number(keys: &[u64], n: usize, high: u64, low: u64) -> usize
    requires sorted { Sorted n keys.now }
    requires low_bound { low < 2 ^ 32 }
    ensures { result ≡ cell_place (keys_in n keys.now) (key_from high low) }
{
    key_place(keys, n, high, low)
}

// Whether a key stands at a place of the n keys.
fn key_stands(keys: &[u64], n: usize, at: usize, high: u64, low: u64) -> bool
    requires sorted { Sorted n keys.now }
    requires low_bound { low < 2 ^ 32 }
    ensures { result ≡ stands_at (keys_in n keys.now) at (key_from high low) }
{
    at < n && keys[2 * at] == high && keys[2 * at + 1] == low
}

// The table with one more key, or unchanged where the key is in it; the answer is the number of its keys. Where that would pass
// MAX_KEYS nothing is stored.
pub(crate) fn key_insert(keys: &mut [u64], n: usize, high: u64, low: u64) -> usize
    requires tabled { Tabled n keys.old }
    requires low_bound { low < 2 ^ 32 }
    ensures { Inserted n keys.old (key_from high low) result keys.new }
{
    let at = key_place(keys, n, high, low);
    if key_stands(keys, n, at, high, low) {
        return n;
    }
    if n == MAX_KEYS {
        return MAX_KEYS + 1;
    }
    keys.copy_within(2 * at..2 * n, 2 * at + 2);
    keys[2 * at] = high;
    keys[2 * at + 1] = low;
    n + 1
}
