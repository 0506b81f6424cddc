// The sample and its frames (`sample`), and what the sender and the air do with a frame (`air`). It stands over `slot_sizes` and
// `frame_settings`, for a frame's size and a setting's lines. Inner: `day_way` and `day` stand over it. `air::changes_at` asks for a slot
// of at most 400 bytes, `air::bits_changed` for at most 216 changes, the most that `changes_at` answers.
#![tactic(auto)]

pub mod air;
pub mod sample;
