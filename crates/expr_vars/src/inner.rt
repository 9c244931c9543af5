// What the crates above call to make sets.
ghost use Rattle.std.specs.Prelude.{◌≡◌, ◌^◌, ◌<◌};

// The set of variable i alone.
pub fn variable_set(i: u32) -> u8
    requires { i < 6 }
    ensures { result ≡ 2 ^ i }
{
    1 << i
}
