//! Random scripts: right ones, and what a few changes make of them.
use std::alloc::{AllocError, Global};

const NUMBERED: &str = "try_send |send |poll_send |withdraw_send |poll |withdraw |set_capacity ";

const PLAIN: &str = "try_recv|recv block|recv plain|recv stream|recv arm|drain|clone_sender|\
    clone_receiver|drop_sender|drop_receiver|len|is_empty|is_full|capacity|sender_count|\
    receiver_count|is_disconnected";

const NUMBERS: &str = "0|1|2|3|4|10|007|9223372036854775808|18446744073709551615|\
    00018446744073709551615";

const PIECES: &str = "\n|\r|\r\n|\n\r| |  |\t|\0|\u{b}|\u{85}|\u{660}|\u{2028}|+|-|_|.|0|9|a|e|S|s|\
    18446744073709551615|18446744073709551616|99999999999999999999|\
    340282366920938463463374607431768211456|unbounded\n|bounded 1\n|recv |len\n|send 5\n| block";

const RUNS: &str = "0|9|a| |\r|\n|\0|len\n";

const LONGEST: usize = 5000;

#[derive(Drop)]
pub(crate) struct RandomScripts {
    pub(crate) state: u64,
}

impl RandomScripts {
    fn below(&mut self, bound: usize) -> usize {
        self.state = self
            .state
            .wrapping_mul(6_364_136_223_846_793_005)
            .wrapping_add(1_442_695_040_888_963_407);
        ((self.state >> 33) as usize)
            .checked_rem(bound)
            .unwrap_or(0)
    }

    fn one_of(&mut self, texts: &'static str) -> &'static str {
        let place = self.below(texts.split("|").count());
        texts.split("|").nth(place).unwrap_or("")
    }

    fn add_line(&mut self, script: &mut Vec<u8>, is_first: bool) -> Result<(), AllocError> {
        let (word, number) = match (is_first, self.below(2)) {
            (true, 0) => ("unbounded", ""),
            (true, _) => ("bounded ", self.one_of(NUMBERS)),
            (false, 0) => (self.one_of(PLAIN), ""),
            (false, _) => (self.one_of(NUMBERED), self.one_of(NUMBERS)),
        };
        script.extend_from_slice(word.as_bytes())?;
        script.extend_from_slice(number.as_bytes())?;
        let end = if self.below(8) == 0 { "\r\n" } else { "\n" };
        script.extend_from_slice(end.as_bytes())
    }

    fn right_script(&mut self, alloc: Global) -> Result<Vec<u8>, AllocError> {
        let mut script = Vec::new(alloc);
        self.add_line(&mut script, true)?;
        for _ in 0..self.below(10) {
            self.add_line(&mut script, false)?;
        }
        // A last line without its line feed is right too.
        if self.below(4) == 0 && !script.ends_with(b"\r\n") {
            script.pop();
        }
        Ok(script)
    }

    // A place in the script; every other time the beginning of a word.
    fn place(&mut self, script: &[u8]) -> usize {
        let least = self.below(script.len().saturating_add(1));
        if self.below(2) == 0 {
            return least;
        }
        for (place, &byte) in script.iter().enumerate() {
            if place >= least && (byte == 32 || byte == 10) {
                return place.saturating_add(1);
            }
        }
        least
    }

    // Replaces, removes or inserts a byte, cuts the script, doubles a part, or inserts texts.
    fn change(&mut self, alloc: Global, script: &[u8]) -> Result<Vec<u8>, AllocError> {
        let (len, byte) = (script.len(), [u8::try_from(self.below(256)).unwrap_or(0)]);
        let at = self.place(script);
        let later = at.saturating_add(self.below(30));
        let next = at.saturating_add(1);
        let part = script.get(at..later.min(len)).unwrap_or_default();
        match self.below(16) {
            0..=2 => replace(alloc, script, (at, next), &byte, 1),
            3 | 4 => replace(alloc, script, (at, next), &byte, 0),
            5 | 6 => replace(alloc, script, (at, at), &byte, 1),
            7 => replace(alloc, script, (at, len), &byte, 0),
            8 | 9 => replace(alloc, script, (at, at), part, 1),
            10 => {
                let (piece, times) = (self.one_of(RUNS), self.below(LONGEST));
                replace(alloc, script, (at, at), piece.as_bytes(), times)
            }
            _ => replace(alloc, script, (at, at), self.one_of(PIECES).as_bytes(), 1),
        }
    }

    /// A script; in three of eight cases a right one, else one with up to three changes.
    pub(crate) fn script(&mut self, alloc: Global) -> Result<Vec<u8>, AllocError> {
        let mut script = self.right_script(alloc)?;
        let changes = [0, 0, 0, 1, 1, 1, 2, 3].get(self.below(8)).copied();
        for _ in 0..changes.unwrap_or(0) {
            script = self.change(alloc, &script)?;
        }
        Ok(script)
    }
}

fn replace(
    alloc: Global,
    bytes: &[u8],
    (from, to): (usize, usize),
    piece: &[u8],
    times: usize,
) -> Result<Vec<u8>, AllocError> {
    let mut all = Vec::new(alloc);
    all.extend_from_slice(bytes.get(..from).unwrap_or_default())?;
    for _ in 0..times {
        all.extend_from_slice(piece)?;
    }
    all.extend_from_slice(bytes.get(to..).unwrap_or_default())?;
    Ok(all)
}
