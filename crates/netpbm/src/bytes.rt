ghost use Rattle.std.specs.Prelude.{◌≡◌};
ghost use Rattle.netpbm.specs.Form.{space, digit, bit};

// Whether a byte is white space: space, tab, carriage return or line feed.
#[tactic(auto, unfolding(crate::specs::Form::space))]
pub fn is_space(byte: u8) -> bool
    ensures { result ≡ space byte }
{
    matches!(byte, b' ' | b'\t' | b'\r' | b'\n')
}

// Whether a byte is a decimal digit.
#[tactic(auto, unfolding(crate::specs::Form::digit))]
pub fn is_digit(byte: u8) -> bool
    ensures { result ≡ digit byte }
{
    byte.is_ascii_digit()
}

// Whether a byte is the digit 0 or the digit 1.
#[tactic(auto, unfolding(crate::specs::Form::bit))]
pub fn is_bit(byte: u8) -> bool
    ensures { result ≡ bit byte }
{
    b'0' <= byte && byte <= b'1'
}
