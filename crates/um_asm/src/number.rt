//! Numbers from their digits.

ghost use Rattle.std.specs.Prelude.{◌≡◌, ◌≤◌, nat_le, Some, None, if◌then◌else◌, length, IsTrue};
ghost use Rattle.std.specs.Char.{digit_value, is_digit};
ghost use Rattle.std.specs.List.{list_all};
ghost use Rattle.std.specs.Str.Parse.{digits_value};

/// A digit's value: 0 to 35 for digits and letters, and 36 for any other byte.
fn digit(byte: u8) -> u64
    ensures { result ≡ digit_value byte }
{
    match char::from(byte).to_digit(36) {
        Some(digit) => digit as u64,
        None => 36,
    }
}

/// The number of the digits, however many, where it is at most the greatest.
pub(crate) fn number_up_to(digits: &[u8], radix: u64, greatest: u32) -> Option<u32>
    requires { (1 ≤ radix) × (radix ≤ 36) }
    ensures { result ≡ (if nat_le (digits_value radix digits.now) greatest
        then Some (digits_value radix digits.now) else None) }
{
    let mut number: u64 = 0;
    for byte in digits {
        number = number * radix + digit(*byte);
        if number > greatest as u64 {
            return None;
        }
    }
    Some(number as u32)
}

/// The word of eight digits.
pub(crate) fn hex_word(digits: &[u8]) -> u32
    requires eight { length digits.now ≡ 8 }
    requires digits { IsTrue (list_all (λ b. is_digit b 16) digits.now) }
    ensures { result ≡ digits_value 16 digits.now }
{
    let mut bytes = [0u8; 4];
    hex::decode_to_slice(digits, &mut bytes).unwrap();
    u32::from_be_bytes(bytes)
}
