// What a caller asks before he lends buffers: a frame's bytes in a slot, and the lines of a rate and a duration. It stands over
// `slot_sizes` and `frame_settings`.
// Inner: `silberlaus` stands over it. It asks nothing.
#![tactic(auto)]

ghost use Rattle.std.specs.Prelude.{◌≡◌};
ghost use Rattle.slot_laws.specs.Sizes.{IsFrameSize};
ghost use Rattle.frame_settings.specs.Settings.{line_count};

// The bytes of a frame in a slot, 0 where a setting is out of range.
pub fn frame_size(size: usize, mode: u32) -> usize
    ensures { IsFrameSize size mode result }
{
    slot_sizes::frame_size(size, mode)
}

// The lines of a rate and a duration, 0 where one of them is none.
pub fn line_count(khz: u32, duration: u32) -> usize
    ensures { result ≡ line_count khz duration }
{
    frame_settings::line_count(khz, duration)
}
