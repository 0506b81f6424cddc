// What happened, counted. A tally goes by value from step to step, and each step answers it with its own counts added.
use day_sample::air::Weather;
use refusals::Refusal;
use std::num::wrapping_add_usize;

#[derive(Clone, Copy, Default)]
pub struct Tally {
    pub left_out: usize,
    pub sent: usize,
    pub mode_2: usize,
    pub mode_3: usize,
    pub mode_4: usize,
    pub untouched: usize,
    pub few: usize,
    pub most: usize,
    pub beyond: usize,
    pub written: usize,
    pub as_is: usize,
    pub clean: usize,
    pub repaired: usize,
    pub semi_octets: usize,
    pub bits: usize,
    pub other_frames: usize,
    pub other_requests: usize,
    pub other_counts: usize,
    pub other_bits: usize,
    pub frames: usize,
    pub lines: usize,
    pub symbols: usize,
    pub refused_1: usize,
    pub refused_2: usize,
    pub refused_3: usize,
    pub refused_4: usize,
    pub refused_5: usize,
    pub refused_6: usize,
    pub refused_7: usize,
    pub stored: usize,
    pub used: usize,
}

// A sum of counts; it does not wrap round, since no sample that fits the buffer has so much to count.
fn more(a: usize, b: usize) -> usize {
    wrapping_add_usize(a, b)
}

impl Tally {
    // Nothing has happened; the record has `used` bytes.
    pub fn new(used: usize) -> Self {
        Self {
            used,
            ..Self::default()
        }
    }

    // A frame for which there is no slot.
    pub fn leave_out(mut self) -> Self {
        self.left_out = more(self.left_out, 1);
        self
    }

    // A slot was sent in this mode.
    pub fn send(mut self, mode: u32) -> Self {
        self.sent = more(self.sent, 1);
        match mode {
            2 => self.mode_2 = more(self.mode_2, 1),
            3 => self.mode_3 = more(self.mode_3, 1),
            _ => self.mode_4 = more(self.mode_4, 1),
        }
        self
    }

    // A slot was sent through this weather.
    pub fn weather(mut self, weather: Weather) -> Self {
        match weather {
            Weather::Clear => self.untouched = more(self.untouched, 1),
            Weather::Few => self.few = more(self.few, 1),
            Weather::Most => self.most = more(self.most, 1),
            Weather::Beyond => self.beyond = more(self.beyond, 1),
        }
        self
    }

    // A frame was sent: whether it was written anew, or as the sample has it.
    pub fn write(mut self, anew: bool) -> Self {
        if anew {
            self.written = more(self.written, 1);
        } else {
            self.as_is = more(self.as_is, 1);
        }
        self
    }

    // A slot was accepted with so many semi-octets repaired, and so many bits in them.
    pub fn accept(mut self, count: usize, bits: usize) -> Self {
        if count == 0 {
            self.clean = more(self.clean, 1);
        } else {
            self.repaired = more(self.repaired, 1);
        }
        self.semi_octets = more(self.semi_octets, count);
        self.bits = more(self.bits, bits);
        self
    }

    // An accepted slot beside what was sent: whether the frame, the request and the counts of semi-octets and bits are the same.
    pub fn compare(mut self, frame: bool, request: bool, count: bool, bits: bool) -> Self {
        if !frame {
            self.other_frames = more(self.other_frames, 1);
        }
        if !request {
            self.other_requests = more(self.other_requests, 1);
        }
        if !count {
            self.other_counts = more(self.other_counts, 1);
        }
        if !bits {
            self.other_bits = more(self.other_bits, 1);
        }
        self
    }

    // A frame was read.
    pub fn read(mut self, lines: usize, symbols: usize) -> Self {
        self.frames = more(self.frames, 1);
        self.lines = more(self.lines, lines);
        self.symbols = more(self.symbols, symbols);
        self
    }

    // An entry was stored, and the record now has `used` bytes.
    pub fn store(mut self, used: usize) -> Self {
        self.stored = more(self.stored, 1);
        self.used = used;
        self
    }

    // Something was refused.
    pub fn refuse(mut self, refusal: Refusal) -> Self {
        match refusal {
            Refusal::Setting => self.refused_1 = more(self.refused_1, 1),
            Refusal::Length => self.refused_2 = more(self.refused_2, 1),
            Refusal::Beyond => self.refused_3 = more(self.refused_3, 1),
            Refusal::Foreign => self.refused_4 = more(self.refused_4, 1),
            Refusal::BitError(_) => self.refused_5 = more(self.refused_5, 1),
            Refusal::NoRoom => self.refused_6 = more(self.refused_6, 1),
            _ => self.refused_7 = more(self.refused_7, 1),
        }
        self
    }
}
