// The data of a slot in order (A.16 to A.37): semi-octets of the frame, heading, swap.
// Inner: `slot_delivery`, `slot_protection` and `slot` stand over it. It asks for a size, a mode and a request in range and for buffers of
// their length.
#![tactic(auto)]

ghost use Rattle.std.specs.Prelude.{◌≡◌, ◌+◌, ◌-◌, ◌*◌, ◌^◌, ◌≤◌, ◌<◌, length, drop};
ghost use Rattle.slot_laws.specs.Sizes.{InRange, Settings, hash1, heading_size, data_size};
ghost use Rattle.slot_laws.specs.Order.{unrolled, semis, heading, ordered, swapped, request_swapped, data_of, Data};
ghost use Rattle.slot_ordering.specs.Room.{HeadingRoom, DataRoom, TwoPlaces};

// The frame's semi-octets, byte order reversed (A.16, A.17).
pub fn unroll(frame: &[u8], out: &mut [u8])
    requires out_len { length out.old ≡ 2 * length frame.now }
    requires frame_len_bound { length frame.now ≤ 400 }
    ensures { out.new ≡ unrolled (length frame.now) frame.now }
{
    let n = frame.len();
    for k in 0..n {
        let b = frame[n - 1 - k];
        out[2 * k] = b / 16;
        out[2 * k + 1] = b % 16;
    }
}

// The lowest semi-octets of a number, as many as there is room for.
fn put_semis(v: u32, out: &mut [u8])
    ensures { out.new ≡ semis (length out.old) v }
{
    let mut left = v;
    for c in out.iter_mut() {
        *c = (left % 16) as u8;
        left /= 16;
    }
}

// The request behind the first hash's bits.
fn raised(size: usize, request: u32) -> u32
    requires { request < 4 }
    ensures value { result ≡ request * 2 ^ (8 * hash1 size - 2) }
    ensures upper_bound { result ≤ 12582912 }
{
    match size {
        40 => request * 16384,
        _ => request * 4194304,
    }
}

// First hash, request and second hash (A.26 to A.29).
pub fn put_heading(size: usize, mode: usize, request: u32, a: &[u8], out: &mut [u8])
    requires settings { Settings size mode request }
    requires heading_room { HeadingRoom size mode a.now out.old }
    ensures { out.new ≡ heading size mode request a.now }
{
    let e = 2 * slot_sizes::first_hash_size(size);
    put_semis(
        slot_hashing::first_hash(size, mode, request, a) + raised(size, request),
        &mut out[..e],
    );
    put_semis(slot_hashing::second_hash(size, mode, a), &mut out[e..]);
}

// The upper two bits of semi-octet i and the lower two of semi-octet j change places (A.32 to A.36).
pub fn swap(s: &mut [u8], i: usize, j: usize)
    requires { TwoPlaces s.old i j }
    ensures { s.new ≡ swapped i j s.old }
{
    let a = s[i];
    let b = s[j];
    s[i] = a % 4 + 4 * (b % 4);
    s[j] = b / 4 * 4 + a / 4;
}

// The swap of the request's bits, which is its own inverse.
pub fn swap_request(size: usize, mode: usize, s: &mut [u8])
    requires in_range { InRange size mode }
    requires fact { Data size mode s.old }
    ensures { s.new ≡ request_swapped size mode s.old }
{
    let count = slot_sizes::word_count(size);
    let distance = code_word_settings::distance(mode);
    swap(
        s,
        2 * slot_sizes::first_hash_size(size) - 1,
        slot_sizes::word_length(size, count, 0) - distance,
    );
}

// The heading in front of the frame's semi-octets, which stand in their place already (A.30, A.31).
fn put_in_front(size: usize, mode: usize, request: u32, out: &mut [u8])
    requires settings { Settings size mode request }
    requires out_len { length out.old ≡ data_size size mode }
    ensures { out.new ≡ ordered size mode request (drop (heading_size size mode) out.old) }
{
    let h = slot_sizes::heading_size(size, mode);
    let mut head = [0u8; 10];
    put_heading(size, mode, request, &out[h..], &mut head[..h]);
    copying::copy(&mut out[..h], &head[..h]);
}

// The data of a slot (A.16 to A.37).
pub fn arrange(size: usize, mode: usize, request: u32, frame: &[u8], out: &mut [u8])
    requires settings { Settings size mode request }
    requires data_room { DataRoom size mode frame.now out.old }
    ensures { out.new ≡ data_of size mode request frame.now }
{
    let h = slot_sizes::heading_size(size, mode);
    unroll(frame, &mut out[h..]);
    put_in_front(size, mode, request, out);
    swap_request(size, mode, out);
}
