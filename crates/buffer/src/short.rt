// A text of at most N bytes, by value: what a writer makes of one unit of content before it is copied into the lent buffer.
ghost use Rattle.std.specs.Prelude.{◌≡◌, ◌≤◌, ℕ, List, length, take, drop, nat_eq};

use std::marker::Model;

// The bytes after the text are zeros, so that the text gives all fields back: a value that is copied has to.
#[derive(Clone, Copy)]
pub struct Short<const N: usize> {
    bytes: [u8; N],
    size: usize,
}

// Clauses see the bytes of the text.
impl<const N: usize> Model for Short<N> {
    ghost use Rattle.std.specs.Prelude.{◌≡◌, ◌≤◌, ℕ, List, length, take};
    ghost use Rattle.std.proofs.Common.{arith, sym, length-take-le};
    ghost use Rattle.buffer.specs.Padded.{padded};

    ghost Value = { List ℕ };

    ghost view = { λ s. take s.size s.bytes };

    ghost invariant = { λ s. (s.size ≤ N) × (length s.bytes ≡ N) × (s.bytes ≡ padded N (take s.size s.bytes)) };

    ghost inverse = { λ t. record { bytes = padded N t; size = length t } };

    ghost inverse_ok = { λ s h i. record {
      bytes = sym h.2 i;
      size = length-take-le s.size s.bytes (omega (arith, h.0, h.1)) i;
    } };
}

impl<const N: usize> Short<N> {
    // The first `size` bytes.
    pub fn new(bytes: [u8; N], size: usize) -> Short<N>
        requires { size ≤ N }
        ensures { result ≡ take size bytes.entry }
    {
        let mut bytes = bytes;
        let tail = &mut bytes[..];
        tail[size..].fill(0);
        Short { bytes, size }
    }

    // The bytes of a slice.
    pub fn of(text: &[u8]) -> Short<N>
        requires { length text.now ≤ N }
        ensures { result ≡ text.now }
    {
        let mut bytes = [0u8; N];
        let size = crate::copy(&mut bytes, 0, text);
        Short { size, bytes }
    }

    pub fn as_slice(&self) -> &[u8]
        ensures text { result.now ≡ self.now }
        ensures short { length self.now ≤ N }
    {
        &self.bytes[..self.size]
    }

    pub fn is_empty(&self) -> bool
        ensures { result ≡ nat_eq (length self.now) 0 }
    {
        self.size == 0
    }
}
