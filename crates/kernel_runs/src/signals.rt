// The signals of one plain process.
use call_table::Taken;

/// The numbers of the signals.
pub(crate) const NUMBERS: [u32; 11] = [2, 4, 5, 9, 10, 11, 12, 13, 15, 17, 24];

/// By number whether it is pending, whether it is masked, and its handler and restorer: handler 0 is the default, 1 ignores.
#[derive(Clone, Copy)]
pub(crate) struct Signals {
    pending: [bool; 32],
    masked: [bool; 32],
    acts: [(u32, u32); 32],
}

pub(crate) fn is_signal(number: u32) -> bool {
    for signal in &NUMBERS {
        if *signal == number {
            return true;
        }
    }
    false
}

fn is_set(bits: &[bool; 32], number: u32) -> bool {
    match bits.as_slice().get(number as usize) {
        Some(bit) => *bit,
        None => false,
    }
}

/// Whether a raised signal is not ignored.
pub(crate) fn heeds(signals: &Signals, signal: u32) -> bool {
    match signals.act(signal).0 {
        0 => signal != 17,
        1 => false,
        _ => true,
    }
}

impl Signals {
    pub(crate) const NONE: Signals = Signals {
        pending: [false; 32],
        masked: [false; 32],
        acts: [(0, 0); 32],
    };

    fn act(&self, signal: u32) -> (u32, u32) {
        match self.acts.as_slice().get(signal as usize) {
            Some(act) => *act,
            None => (0, 0),
        }
    }

    pub(crate) fn set_pending(&mut self, signal: u32, value: bool) {
        if let Some(bit) = self.pending.as_mut_slice().get_mut(signal as usize) {
            *bit = value;
        }
    }

    /// What a child has: nothing is pending.
    pub(crate) fn inherited(&self) -> Signals {
        let mut signals = *self;
        signals.pending = [false; 32];
        signals
    }

    pub(crate) fn set_act(&mut self, signal: u32, handler: u32, restorer: u32) {
        if let Some(act) = self.acts.as_mut_slice().get_mut(signal as usize) {
            *act = (handler, restorer);
        }
        if !heeds(self, signal) {
            self.set_pending(signal, false);
        }
    }

    pub(crate) fn mask(&self) -> u32 {
        let mut word = 0u32;
        for signal in &NUMBERS {
            if is_set(&self.masked, *signal) {
                word = word.saturating_add(1u32.wrapping_shl(*signal));
            }
        }
        word
    }

    pub(crate) fn set_mask(&mut self, word: u32) {
        for signal in 0..32u32 {
            let bit = (word.wrapping_shr(signal)) % 2 == 1;
            if let Some(place) = self.masked.as_mut_slice().get_mut(signal as usize) {
                *place = bit && signal != 9 && is_signal(signal);
            }
        }
    }

    /// The lowest signal that is pending and not masked.
    pub(crate) fn lowest(&self) -> Option<u32> {
        for signal in &NUMBERS {
            if is_set(&self.pending, *signal) && !is_set(&self.masked, *signal) {
                return Some(*signal);
            }
        }
        None
    }

    /// Takes the lowest signal.
    pub(crate) fn take(&mut self, room: bool) -> Option<Taken> {
        let signal = self.lowest()?;
        self.set_pending(signal, false);
        let (handler, restorer) = self.act(signal);
        if handler < 2 {
            return Some(Taken::Dies((signal % 256) as u8));
        }
        if !room {
            return Some(Taken::Dies(11));
        }
        let mask = self.mask();
        if let Some(place) = self.masked.as_mut_slice().get_mut(signal as usize) {
            *place = true;
        }
        Some(Taken::Enters {
            signal: (signal % 256) as u8,
            handler,
            restorer,
            mask,
        })
    }
}
