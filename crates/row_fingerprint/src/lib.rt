// The fingerprint of a row, from template_decomposer.rs.
#![tactic(auto)]

ghost use Rattle.std.specs.Prelude.{◌≡◌};
ghost use Rattle.row_fingerprint.specs.Fingerprint.{fingerprint_of, mix_word, finished};

// A number made of a row's words. Equal fingerprints never stand for equal rows.
pub fn fingerprint(row: [u64; 16]) -> u64
    ensures { result ≡ fingerprint_of row }
{
    let mut h: u64 = 0xcbf2_9ce4_8422_2325;
    for i in 0..16 {
        h = mix_word(h, row[i]);
    }
    finish(h)
}

// One word folded in.
fn mix_word(h: u64, v: u64) -> u64
    ensures { result ≡ mix_word h v }
{
    let x = arith::wrapping_mul(h ^ v, 0x0000_0100_0000_01b3);
    x ^ (x >> 29)
}

// The final mixing.
fn finish(h: u64) -> u64
    ensures { result ≡ finished h }
{
    let x = arith::wrapping_mul(h ^ (h >> 32), 0xff51_afd7_ed55_8ccd);
    x ^ (x >> 32)
}
