ghost use Rattle.std.specs.Prelude.{◌≡◌, ◌++◌, length, min, take, drop};

use std::marker::Model;

/// Bytes in memory of which a front has been given out: as a value, those that are left.
#[derive(Drop)]
pub(crate) struct Rest {
    bytes: Vec<u8>,
    at: usize,
}

impl Model for Rest {
    ghost use Rattle.std.specs.Prelude.{List, ℕ, ◌≤◌, drop, vec_len};

    ghost Value = { List ℕ };

    ghost view = { λ r. drop r.at r.bytes.items };

    ghost invariant = { λ r. r.at ≤ vec_len r.bytes };
}

impl Rest {
    pub(crate) fn new(bytes: Vec<u8>) -> Rest
        ensures { result ≡ bytes.items }
    {
        Rest { bytes, at: 0 }
    }

    /// Gives the next bytes: as many as the buffer and the piece have room for.
    pub(crate) fn give(&mut self, buf: &mut [u8], piece: usize) -> usize
        ensures count { result ≡ min (min (length buf.old) piece) (length self.old) }
        ensures given { buf.new ≡ take result self.old ++ drop result buf.old }
        ensures left { self.new ≡ drop result self.old }
    {
        let from = self.at;
        let count = buf.len().min(piece).min(self.bytes.len() - from);
        buf[..count].copy_from_slice(&self.bytes[from..from + count]);
        self.at = from + count;
        count
    }
}
