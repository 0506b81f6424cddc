// A slice copied into another of its length. The library's `copy_from_slice` calls memmove, and include/silberlaus.h promises that the
// archive wants memcpy and memset alone; this becomes a memcpy, or none.
// Inner: `slot_ordering`, `slot_gathering` and `frame_finish` stand over it. It asks for two slices of one length.
#![tactic(auto)]

ghost use Rattle.std.specs.Prelude.{◌≡◌, length};

// Every element copied.
pub fn copy<T: Copy>(to: &mut [T], from: &[T])
    requires { length to.old ≡ length from.now }
    ensures { to.new ≡ from.now }
{
    for k in 0..to.len() {
        to[k] = from[k];
    }
}
