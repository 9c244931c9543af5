// What the candidates and the search call with lengths that they have tested.
ghost use Rattle.std.specs.Prelude.{◌≡◌, ◌*◌, ◌≤◌, length, take};
ghost use Rattle.index_order.specs.Order.{is_order};

// Whether the first n entries of `order` are the order list of the first n rows. Stops at the first that can't be.
pub fn is_order(rows: &[u64], n: usize, order: &[u32]) -> bool
    requires { (16 * n ≤ length rows.now) × (n ≤ length order.now) }
    ensures { result ≡ is_order n rows.now (take n order.now) }
{
    if n == 0 {
        return true;
    }
    let mut last = order[0] as usize;
    if last >= n {
        return false;
    }
    let mut word = rows[row_gates::ROW_WORDS * last];
    for i in 1..n {
        let s = order[i] as usize;
        if s >= n {
            return false;
        }
        // only a greater word may follow, unless the slot is a later one. No branch: a wrong guess would wait for the row
        let more = std::num::wrapping_add_u64(word, 1);
        let least = if s <= last { more } else { word };
        if least < word {
            return false;
        }
        let w = rows[row_gates::ROW_WORDS * s];
        if w < least {
            return false;
        }
        word = w;
        last = s;
    }
    true
}
