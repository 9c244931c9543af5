// The turns of a bank build: Neg and Not of each atom, `populate` of template_decomposer.rs. What a phase of the build leaves stands in specs/.
#![tactic(auto)]

pub mod inner;

use probe_points::Point;

// What a bank is built over: the variable count, the width and the points.
#[derive(Clone, Copy)]
pub struct Setting {
    pub nv: u32,
    pub w: u32,
    pub points: [Point; 16],
}
