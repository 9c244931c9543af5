// What the crates above ask of a lent formula before they test it.
ghost use Rattle.std.specs.Prelude.{◌≡◌};
ghost use Rattle.expr.specs.Answers.{too_short};

// Whether one of the two arrays has fewer than `count` places.
pub fn too_short(count: usize, ops: &[u8], operands: &[u64]) -> bool
    ensures { result ≡ too_short count ops.now operands.now }
{
    ops.len() < count || operands.len() < count
}
