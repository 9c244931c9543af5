// The equation p × f = t modulo 2^w that the candidates solve: template_decomposer.rs, `collect_mul_probe0_candidates`.
#![tactic(auto)]

pub mod inner;
