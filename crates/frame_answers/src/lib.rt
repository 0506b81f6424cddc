// What an accepted frame says beside its spectrum and residual bits; specs/Answers.antt has document 01's number and cause of each answer.
// Inner: `frame_arithmetic`, `frame` and the crates of `writer` stand over it, and `frame` hands the answers on to callers. It asks
// nothing.
#![tactic(auto)]

use frame_side::Side;

// What an accepted frame says beside its TNS coefficients, spectrum and residual bits.
#[derive(Clone, Copy, Default)]
pub struct Fields {
    pub side: Side,
    pub tns_order_0: u8,
    pub tns_order_1: u8,
    pub residual_bits: u16,
    pub symbols: u16,
}

// The fields, and beside them each filter's coefficients: 0 from its order on.
#[derive(Clone, Copy, Default)]
pub struct Reading {
    pub fields: Fields,
    pub tns_coefficients_0: [u8; 8],
    pub tns_coefficients_1: [u8; 8],
}
