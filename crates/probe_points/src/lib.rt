// splitmix64 and the sixteen probe points that it gives, from template_decomposer.rs.
#![tactic(auto)]

ghost use Rattle.std.specs.Prelude.{◌≡◌, ◌≤◌};
ghost use Rattle.limits.specs.Refusal.{number_of};
ghost use Rattle.probe_points.specs.Points.{drawn, zero_points, probe_points, made_points, DrawsPoint};

use limits::Refusal;

// How many points there are, and the words of each (N_PROBES, MAX_VARS).
pub const POINTS: usize = 16;

pub const POINT_WORDS: usize = 6;

// The generator's first state.
const PROBE_SEED: u64 = 0xC0B4A;

// A state of splitmix64, and the word that it gave.
#[derive(Clone, Copy)]
pub struct Draw {
    pub state: u64,
    pub word: u64,
}

// A word for each variable; the places past the variable count are ignored by every call.
#[derive(Clone, Copy)]
pub struct Point {
    pub words: [u64; 6],
}

// Sixteen points, or zeros: by value beside the refusal, the form that docs/SPECIFICATION.md 19 asks for.
#[derive(Clone, Copy)]
pub struct Points {
    pub refusal: u32,
    pub points: [Point; 16],
}

// A point, and the state after it.
#[derive(Clone, Copy)]
struct DrawnPoint {
    state: u64,
    point: Point,
}

// One step of splitmix64: the next state, and its word.
pub fn splitmix64(state: u64) -> Draw
    ensures { result ≡ drawn state }
{
    let next = std::num::wrapping_add_u64(state, 0x9E37_79B9_7F4A_7C15);
    let a = arith::wrapping_mul(next ^ (next >> 30), 0xBF58_476D_1CE4_E5B9);
    let b = arith::wrapping_mul(a ^ (a >> 27), 0x94D0_49BB_1331_11EB);
    Draw {
        state: next,
        word: b ^ (b >> 31),
    }
}

// The sixteen points of nv variables at width w. Refuses 1, 2.
pub fn make_probe_points(nv: u32, w: u32) -> Points
    ensures { result ≡ made_points nv w }
{
    if limits::inner::bad_count(nv) {
        return refused_points(Refusal::VariableCount);
    }
    if limits::inner::bad_width(w) {
        return refused_points(Refusal::Width);
    }
    let points = draw_points(nv as usize, w);
    Points { refusal: 0, points }
}

// Zeros beside a refusal.
fn refused_points(refusal: Refusal) -> Points
    ensures { result ≡ record { refusal = number_of refusal; points = zero_points } }
{
    let points = [Point { words: [0; 6] }; 16];
    Points {
        refusal: u32::from(refusal),
        points,
    }
}

// All sixteen, point after point.
fn draw_points(nv: usize, w: u32) -> [Point; 16]
    requires { (nv ≤ 6) × (w ≤ 64) }
    ensures { result ≡ probe_points nv w }
{
    let mut points = [Point { words: [0; 6] }; 16];
    let mut state = PROBE_SEED;
    for k in 0..POINTS {
        let d = draw_point(nv, w, state);
        points[k] = d.point;
        state = d.state;
    }
    points
}

// The words of one point, each reduced, and 0 in the places past the variable count.
fn draw_point(nv: usize, w: u32, state: u64) -> DrawnPoint
    requires { (nv ≤ 6) × (w ≤ 64) }
    ensures { DrawsPoint nv w state result }
{
    let mut words = [0u64; 6];
    let mut s = state;
    for i in 0..nv {
        let d = splitmix64(s);
        s = d.state;
        words[i] = arith::reduce(d.word, w);
    }
    DrawnPoint {
        state: s,
        point: Point { words },
    }
}
