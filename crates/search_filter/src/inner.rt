// What the candidates and the search call with an order list that they have tested.
ghost use Rattle.std.specs.Prelude.{◌≡◌, ℕ, ◌-◌, ◌≤◌, ◌<◌, length, get_or};
ghost use Rattle.search_filter.specs.Places.{word_at, Ordered, Sampled, Reached};
ghost use Rattle.search_filter.specs.Sweeps.{Small, IsKey};
ghost use Rattle.search_filter.specs.Lists.{IsSorted, LowerIn, FirstIn, SweepingIn, SettledIn};
ghost use Rattle.search_filter.specs.Steps.{Ascends, AfterSamples, Fresh, Window, TailKey, KeysPassed, KeySettled};

// The words that leave `first` modulo 2^(w - zeros); those below 2^w are keys, 2^zeros of them.
#[derive(Clone, Copy)]
pub struct Residue {
    pub w: u32,
    pub zeros: u32,
    pub first: u64,
}

// A lent order list of n slots, the rows that it lists, and samples of their first words, which may be none.
#[derive(Clone, Copy)]
pub struct Sorted<'a> {
    pub rows: &'a [u64],
    pub order: &'a [u32],
    pub n: usize,
    pub samples: &'a [u64],
}

// The place that a sweep has come to, its running value, which is the key that it looks for, and how many keys are left, this one included.
#[derive(Clone, Copy)]
pub struct Sweep {
    pub at: usize,
    pub key: u64,
    pub left: u64,
}

// Of so few places each word is read. No read waits for another then, as it does in a binary search.
const SCANNED: usize = 4;

// A sample is taken of each so many places.
pub const SAMPLE_STEP: usize = 64;

// The first word of the slot at place k.
pub fn word_at(rows: &[u64], order: &[u32], n: usize, k: usize) -> u64
    requires { Ordered n rows.now order.now × (k < n) }
    ensures { result ≡ word_at rows.now order.now k }
{
    let s = order[k] as usize;
    rows[row_gates::ROW_WORDS * s]
}

// Takes samples as long as there are places and room, and answers how many.
pub fn sample(samples: &mut [u64], rows: &[u64], order: &[u32], n: usize) -> usize
    requires { Ordered n rows.now order.now }
    ensures { Sampled n rows.now order.now samples.new result }
{
    for j in 0..samples.len() {
        if n <= SAMPLE_STEP * j {
            return j;
        }
        samples[j] = word_at(rows, order, n, SAMPLE_STEP * j);
    }
    samples.len()
}

// How many of the samples are below the key.
fn count_below(samples: &[u64], key: u64) -> usize
    requires { Ascends (λ (j : ℕ). get_or samples.now j 0) (length samples.now) }
    ensures { Reached (λ (j : ℕ). get_or samples.now j 0) (length samples.now) 0 key result }
{
    let mut from: usize = 0;
    let mut to = samples.len();
    // no count: each turn halves what is left
    while from < to {
        let mid = from + (to - from >> 1);
        if samples[mid] < key {
            from = mid + 1;
        } else {
            to = mid;
        }
    }
    from
}

// The place after the last of u samples, or lo if that is later.
fn after_samples(lo: usize, u: usize) -> usize
    requires { (lo ≤ 262144) × (u ≤ 262144) }
    ensures { AfterSamples lo u result }
{
    if SAMPLE_STEP * u < lo + SAMPLE_STEP {
        return lo;
    }
    SAMPLE_STEP * (u - 1) + 1
}

// The first place from `from` on whose first word is `key` or more, which is `to` at the latest, word by word.
fn scan_lower(sorted: &Sorted<'_>, from: usize, to: usize, key: u64) -> usize
    requires { IsSorted sorted.now × Window sorted.now from to key }
    ensures { LowerIn sorted.now from key result }
{
    let rows = sorted.rows;
    let order = sorted.order;
    let n = sorted.n;
    let mut a = from;
    for i in from..to {
        if word_at(rows, order, n, i) < key {
            a = i + 1;
        }
    }
    a
}

// The same by binary search, as long as there are more than a few places.
fn lower_between(sorted: &Sorted<'_>, from: usize, to: usize, key: u64) -> usize
    requires { IsSorted sorted.now × Window sorted.now from to key }
    ensures { LowerIn sorted.now from key result }
{
    let rows = sorted.rows;
    let order = sorted.order;
    let n = sorted.n;
    let mut a = from;
    let mut b = to;
    // no count: each turn halves what is left
    while b - a > SCANNED {
        let mid = a + (b - a >> 1);
        if word_at(rows, order, n, mid) < key {
            a = mid + 1;
        } else {
            b = mid;
        }
    }
    scan_lower(sorted, a, b, key)
}

// The first place from `lo` on whose first word is `key` or more. The samples narrow the search before it reads rows.
pub fn lower(sorted: &Sorted<'_>, lo: usize, key: u64) -> usize
    requires { IsSorted sorted.now × (lo ≤ sorted.now.n) }
    ensures { LowerIn sorted.now lo key result }
{
    let n = sorted.n;
    if lo == n {
        return lo;
    }
    // a run of equal words is walked with no search
    if key <= word_at(sorted.rows, sorted.order, n, lo) {
        return lo;
    }
    let u = count_below(sorted.samples, key);
    let from = after_samples(lo, u);
    if u < sorted.samples.len() {
        return lower_between(sorted, from, SAMPLE_STEP * u, key);
    }
    lower_between(sorted, from, n, key)
}

// A sweep at the first place, its running value at the least key.
fn first_sweep(class: Residue) -> Sweep
    requires { Small class }
    ensures { Fresh class result }
{
    let left: u64 = 1 << class.zeros;
    let key = class.first;
    Sweep { at: 0, key, left }
}

// The next value: 2^(w - zeros) more. After the last key there is no step: at width 64 with no zeros it would be 2^64.
fn next_key(class: Residue, key: u64, left: u64) -> u64
    requires { Small class × IsKey class key left × (1 < left) }
    ensures { IsKey class result (left - 1) }
{
    let step: u64 = 1 << (class.w - class.zeros);
    key + step
}

// From the sweep's place on, the first place whose first word is one of the keys left.
fn settle_keys(sorted: &Sorted<'_>, class: Residue, s: Sweep) -> Sweep
    requires { IsSorted sorted.now × Small class × SweepingIn class sorted.now s }
    ensures { KeySettled class sorted.now.n sorted.now.rows.now sorted.now.order.now s.at result }
{
    let rows = sorted.rows;
    let order = sorted.order;
    let n = sorted.n;
    let mut at = s.at;
    let mut key = s.key;
    let mut left = s.left;
    // no count: a turn looks up a place or goes to the next key
    while left > 0 {
        if at == n {
            return Sweep { at, key, left: 0 };
        }
        // nothing is looked up as long as the word here is beyond the key
        let word = word_at(rows, order, n, at);
        if word < key {
            at = lower(sorted, at, key);
        } else {
            if word == key {
                return Sweep { at, key, left };
            }
            if left == 1 {
                return Sweep { at, key, left: 0 };
            }
            key = next_key(class, key, left);
            left -= 1;
        }
    }
    Sweep { at, key, left: 0 }
}

// The first place from `at` on whose first word is of the class, one by one.
fn scan_class(sorted: &Sorted<'_>, class: Residue, at: usize) -> usize
    requires { IsSorted sorted.now × Small class × (at ≤ sorted.now.n) }
    ensures { FirstIn class sorted.now at result }
{
    let rows = sorted.rows;
    let order = sorted.order;
    let n = sorted.n;
    let bits = class.w - class.zeros;
    for i in at..n {
        if arith::reduce(word_at(rows, order, n, i), bits) == class.first {
            return i;
        }
    }
    n
}

// What the tail is looked up by: 2^w, if the list has a word as large.
fn tail_key(rows: &[u64], order: &[u32], n: usize, w: u32) -> Option<u64>
    requires { Ordered n rows.now order.now × (0 < n) × (w ≤ 64) }
    ensures { TailKey w n rows.now order.now result }
{
    if w == limits::MAX_WIDTH {
        return None;
    }
    // the last word is the largest: most lists have no word of 2^w or more
    let top: u64 = 1 << w;
    if word_at(rows, order, n, n - 1) < top {
        return None;
    }
    Some(top)
}

// From `at` on, the first place whose first word is of the class: all such words are 2^w or more.
fn settle_tail(sorted: &Sorted<'_>, class: Residue, at: usize) -> usize
    requires { IsSorted sorted.now × Small class × KeysPassed class sorted.now.n sorted.now.rows.now sorted.now.order.now at }
    ensures { FirstIn class sorted.now at result }
{
    let n = sorted.n;
    if at == n {
        return n;
    }
    let Some(top) = tail_key(sorted.rows, sorted.order, n, class.w) else {
        return n;
    };
    let from = lower(sorted, at, top);
    scan_class(sorted, class, from)
}

// From the sweep's place on, the first place of the class.
fn settle(sorted: &Sorted<'_>, class: Residue, s: Sweep) -> Sweep
    requires { IsSorted sorted.now × Small class × SweepingIn class sorted.now s }
    ensures { SettledIn class sorted.now s.at result }
{
    let t = settle_keys(sorted, class, s);
    if t.left > 0 {
        return t;
    }
    let at = settle_tail(sorted, class, t.at);
    Sweep {
        at,
        key: t.key,
        left: 0,
    }
}

// The first place of the class.
pub fn first_place(sorted: &Sorted<'_>, class: Residue) -> Sweep
    requires { IsSorted sorted.now × Small class }
    ensures { SettledIn class sorted.now 0 result }
{
    settle(sorted, class, first_sweep(class))
}

// The next place of the class from `from` on, which is after the one that the sweep has come to.
pub fn next_from(sorted: &Sorted<'_>, class: Residue, s: Sweep, from: usize) -> Sweep
    requires { IsSorted sorted.now × Small class × SweepingIn class sorted.now s × (s.at < from) × (from ≤ sorted.now.n) }
    ensures { SettledIn class sorted.now from result }
{
    settle(
        sorted,
        class,
        Sweep {
            at: from,
            key: s.key,
            left: s.left,
        },
    )
}
