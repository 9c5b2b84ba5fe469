ghost use Rattle.std.specs.Prelude.{◌≡◌};
ghost use Rattle.std.specs.Bool.{then_some};
ghost use Rattle.std.specs.Str.Parse.{digits_value};
ghost use Rattle.conc_base_law.specs.Numbers as spec;
ghost use Rattle.conc_base_law.specs.Numbers.{are_digits};

fn is_digit(byte: u8) -> bool
    ensures { result ≡ spec.is_digit byte }
{
    48 <= byte && byte <= 57
}

// The value of 1 to 19 digits, or none.
fn value_of(bytes: &[u8]) -> Option<u64>
    ensures { result ≡ then_some (are_digits bytes.now) (digits_value 10 bytes.now) }
{
    if bytes.is_empty() || bytes.len() > 19 {
        return None;
    }
    let mut value = 0;
    for byte in bytes {
        if !is_digit(*byte) {
            return None;
        }
        value = value * 10 + u64::from(*byte - b'0');
    }
    Some(value)
}

fn not_negative(digits: &[u8]) -> Option<i64>
    ensures { result ≡ spec.not_negative digits.now }
{
    match value_of(digits) {
        Some(value) => 0i64.checked_add_unsigned(value),
        None => None,
    }
}

fn negative(digits: &[u8]) -> Option<i64>
    ensures { result ≡ spec.negative digits.now }
{
    match value_of(digits) {
        Some(value) => 0i64.checked_sub_unsigned(value),
        None => None,
    }
}

/// The number that a cell spells: an optional sign and 1 to 19 digits, of a value that 64 bits
/// hold. It is None exactly where the cell spells none.
#[tactic(auto, unfolding(conc_base_law::specs::Numbers::whole_number))]
pub fn whole_number(cell: &[u8]) -> Option<i64>
    ensures { result ≡ spec.whole_number cell.now }
{
    match cell.split_first() {
        None => None,
        Some((b'+', digits)) => not_negative(digits),
        Some((b'-', digits)) => negative(digits),
        Some(_) => not_negative(cell),
    }
}
