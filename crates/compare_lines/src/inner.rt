// Words of a line, for callers that know where they stand.
pub mod scan;

ghost use Rattle.std.specs.Prelude.{◌+◌, ◌≤◌, length};

use crate::number_at;

// A row from `base` on, zeros past the line's end.
pub fn row_at(line: &[u64], base: usize) -> [u64; 16]
    requires { base ≤ 1000 }
{
    std::array::from_fn(|i| number_at(line, base + i))
}

// Whether the words stand in the line from `base` on.
pub fn words_same(words: &[u64], line: &[u64], base: usize) -> bool
    requires { base + length words.now ≤ length line.now }
{
    words == &line[base..base + words.len()]
}
