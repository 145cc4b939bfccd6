ghost use Rattle.std.specs.Prelude.{◌≡◌};

use std::marker::Model;

/// A whole number of 128 bits, kept as two words: an `i128` has to lie at a multiple of 16 bytes, and so would all that
/// holds one.
#[derive(Clone, Copy, Debug, PartialEq, Eq, Hash)]
pub struct Wide {
    high: u64,
    low: u64,
}

impl Model for Wide {
    ghost use Rattle.std.specs.Prelude.{ℤ, ◌<◌, ◌^◌};
    ghost use Rattle.wh_base.specs.Words.{from_words, high_word, low_word, words_kept};

    ghost Value = { ℤ };

    ghost view = { λ w. from_words w.high w.low };

    ghost invariant = { λ w. (w.high < 2 ^ 64) × (w.low < 2 ^ 64) };

    ghost inverse = { λ n. record { high = high_word n; low = low_word n } };

    ghost inverse_ok = { λ w h. words_kept (λ high low. record { high = high; low = low }) w.high w.low h.0 h.1 };
}

impl Wide {
    /// The words of a number.
    pub fn new(number: i128) -> Wide
        ensures { result ≡ number }
    {
        let bits = number.cast_unsigned();
        Wide {
            high: (bits >> 64) as u64,
            low: (bits & 0xffff_ffff_ffff_ffff) as u64,
        }
    }

    /// The number.
    pub fn get(self) -> i128
        ensures { result ≡ self }
    {
        (u128::from(self.high) << 64 | u128::from(self.low)).cast_signed()
    }
}
