// The arithmetic coder's tables of clauses 5.9.4 and 5.9.6, for whoever reads or writes a frame. The code stands over nothing, its
// definitions and proofs over crate `laws`. Each function promises the whole table of specs/Tables.antt, its rows one after the other, the
// lookups in the order of specs/Layout.antt; proofs/Rules.antt proves of these once that every row rises from 0 to exactly 1,024 and that
// every lookup names one of the 64 rows. make_tables makes the code's numbers and the definitions' from tables.txt. Inner: the crates of
// `frame` and `writer` stand over it. It asks nothing.
#![tactic(auto)]

ghost use Rattle.std.specs.Prelude.{◌≡◌};
ghost use Rattle.coder_tables.specs.Layout.{by_context};
ghost use Rattle.coder_tables.specs.Tables.{look_table, spectrum_table, order_table, coefficient_table};

mod constants;

// The row of `spectrum` for each context, its four levels side by side.
pub fn lookup() -> &'static [u8; 4096]
    ensures { result.now ≡ by_context look_table }
{
    &constants::LOOKUP
}

// 64 rows of the symbols 0 to 16.
pub fn spectrum() -> &'static [u16; 1152]
    ensures { result.now ≡ spectrum_table }
{
    &constants::SPECTRUM
}

// A row of the orders 1 to 8 for each weighting.
pub fn tns_order() -> &'static [u16; 18]
    ensures { result.now ≡ order_table }
{
    &constants::ORDER
}

// A row of the indices 0 to 16 for each coefficient's place.
pub fn tns_coefficients() -> &'static [u16; 144]
    ensures { result.now ≡ coefficient_table }
{
    &constants::COEFFICIENTS
}
