// The public face: the C names of include/silberlaus.h, a line each over the functions of `silberlaus_sizes`, `silberlaus_slots`,
// `silberlaus_batches`, `silberlaus_frames`, `silberlaus_writing`, `silberlaus_entries`, `silberlaus_records` and `silberlaus_moves`, which
// turn the results into document 01's numbers and C's structs. Each function is total, and its contract is that of the function
// called: number by number, the values beside it, and every lent buffer.
#![tactic(auto)]

pub mod frames;
pub mod records;
pub mod slots;
