// One atom pushed into the bank's five lent arrays and the map of its rows: `push` of template_decomposer.rs.
#![tactic(auto)]

pub mod inner;

use limits::ATOMS_MAX;

// The map of a bank's rows has 2^MAP_BITS heads, and a link for each atom.
pub const MAP_BITS: u32 = 10;

// The words of a bank's work area.
pub const WORK_WORDS: usize = 4 * ATOMS_MAX;
