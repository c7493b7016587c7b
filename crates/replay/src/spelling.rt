// Reading words of a line and writing numbers by their bits. Everything here is total: what is not there, or is no digit, reads as 0 or as nothing.
use boxes::Vec3;
use std::fmt;

// A stored call: any bytes, in words that are parted by one space.
#[derive(Clone, Copy)]
pub(crate) struct Line<'a>(pub(crate) &'a [u8]);

// What a digit stands for, decimal or hex: 0 for any other byte, a capital too.
fn digit(byte: u8) -> u8 {
    match byte {
        b'0'..=b'9' => byte - b'0',
        b'a'..=b'f' => byte - b'a' + 10,
        _ => 0,
    }
}

impl<'a> Line<'a> {
    // What is called: the first word, where a space stands behind it.
    pub(crate) fn call(self) -> &'a [u8] {
        match self.0.iter().position(|byte| *byte == b' ') {
            Some(end) => self.0.get(..end).unwrap_or(&[]),
            None => &[],
        }
    }

    // What stands from the k-th word on, counted from 0.
    fn from(self, k: usize) -> Line<'a> {
        let mut parts = self.0.splitn(k.saturating_add(1), |byte| *byte == b' ');
        Line(parts.nth(k).unwrap_or(&[]))
    }

    // The k-th word, counted from 0.
    pub(crate) fn word(self, k: usize) -> &'a [u8] {
        let mut words = self.0.split(|byte| *byte == b' ');
        words.nth(k).unwrap_or(&[])
    }

    // The k-th word as a number of decimal digits.
    pub(crate) fn number(self, k: usize) -> u32 {
        let mut number = 0;
        for byte in self.word(k) {
            number = number % 100_000_000 * 10 + u32::from(digit(*byte) % 10);
        }
        number
    }

    // The k-th word is 1: yes.
    pub(crate) fn flag(self, k: usize) -> bool {
        self.number(k) == 1
    }

    // The first so many bytes as hex digits, whatever they are.
    fn hex(self, count: usize) -> u64 {
        let mut bits = 0;
        for i in 0..count {
            let byte = self.0.get(i).copied().unwrap_or(0);
            bits = bits << 4 | u64::from(digit(byte));
        }
        bits
    }

    // The f64 of the 16 hex digits that the k-th word begins.
    pub(crate) fn float(self, k: usize) -> f64 {
        floats::float_of_bits(self.from(k).hex(16))
    }

    // So many f64s from the k-th word on.
    pub(crate) fn floats<const N: usize>(self, k: usize) -> [f64; N] {
        let mut floats = [0.0; N];
        let mut rest = self.from(k);
        for float in floats.iter_mut() {
            *float = rest.float(0);
            rest = rest.from(1);
        }
        floats
    }

    // So many f32s from the k-th word on, each of 8 hex digits.
    pub(crate) fn singles<const N: usize>(self, k: usize) -> [f32; N] {
        let mut singles = [0.0; N];
        let mut rest = self.from(k);
        for single in singles.iter_mut() {
            *single = tables::single_of((rest.hex(8) % 0x1_0000_0000) as u32);
            rest = rest.from(1);
        }
        singles
    }
}

// A number by its bits: 16 hex digits.
#[derive(Clone, Copy)]
pub(crate) struct Bits(pub(crate) f64);

impl fmt::Display for Bits {
    fn fmt<W: fmt::Write>(&self, f: &mut fmt::Formatter<W>) -> fmt::Result {
        write!(f, "{:016x}", floats::bits_of_float(self.0))
    }
}

// The three numbers of a vector by their bits.
#[derive(Clone, Copy)]
pub(crate) struct VectorBits(pub(crate) Vec3);

impl fmt::Display for VectorBits {
    fn fmt<W: fmt::Write>(&self, f: &mut fmt::Formatter<W>) -> fmt::Result {
        let Vec3 { x, y, z } = self.0;
        write!(f, "{} {} {}", Bits(x), Bits(y), Bits(z))
    }
}
