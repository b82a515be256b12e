ghost use Rattle.std.specs.Prelude.{◌≡◌, true};
ghost use Rattle.netpbm.specs.Machine.{none, takes, longer, Below};

use crate::Number;
use crate::bytes::is_digit;

impl Number {
    // The number that has no digit yet.
    pub fn none() -> Number
        ensures { result ≡ none }
    {
        Number {
            digits: 0,
            value: 0,
        }
    }

    // Whether a byte can go on with it: a digit, and the fifth at most.
    pub fn takes(self, byte: u8) -> bool
        ensures { result ≡ takes self byte }
    {
        if self.digits >= 5 {
            return false;
        }
        is_digit(byte)
    }

    // The number with one digit more.
    pub fn longer(self, byte: u8) -> Number
        requires { Below self × (takes self byte ≡ true) }
        ensures { result ≡ longer self byte }
    {
        Number {
            digits: self.digits + 1,
            value: self.value * 10 + ((byte - b'0') as usize),
        }
    }
}
