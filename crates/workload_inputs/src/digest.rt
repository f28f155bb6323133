//! The digest of results.

/// What the mixing multiplies by.
const FACTOR: u64 = 0x517c_c1b7_2722_0a95;

/// A digest of numbers and bytes, in their order.
#[derive(Clone, Copy)]
pub struct Digest {
    value: u64,
}

impl Digest {
    /// Of nothing.
    pub fn new() -> Digest {
        Digest { value: 0 }
    }

    /// The digest itself.
    pub fn value(&self) -> u64 {
        self.value
    }

    /// Takes a number in.
    #[inline]
    pub fn number(&mut self, number: u64) {
        self.value = (self.value.rotate_left(5) ^ number).wrapping_mul(FACTOR);
    }

    /// Takes bytes in, and how many they are.
    pub fn bytes(&mut self, bytes: &[u8]) {
        for chunk in bytes.chunks(8) {
            match chunk {
                [a, b, c, d, e, f, g, h] => {
                    self.number(u64::from_le_bytes([*a, *b, *c, *d, *e, *f, *g, *h]));
                }
                rest => self.rest(rest),
            }
        }
        self.number(bytes.len() as u64);
    }

    /// Takes bytes in, each as a number.
    fn rest(&mut self, bytes: &[u8]) {
        for byte in bytes {
            self.number(u64::from(*byte));
        }
    }
}
