ghost use Rattle.std.specs.Prelude.{◌≡◌, ◌++◌, OnErr, OnOk};
ghost use Rattle.std.specs.Char.{is_ascii_digit};
ghost use Rattle.std.specs.Fmt.{decimal};
ghost use Rattle.std.specs.List.{list_all};
ghost use Rattle.conc_types.specs.Decimals as spec;
ghost use Rattle.conc_types.specs.Decimals.{decimal_value};

use crate::NoMemory;
use itoa::Buffer;

/// Appends the decimal digits of a number, with no sign and no leading zero. Without memory for
/// them the bytes stay as they were.
pub fn put_decimal(out: &mut Vec<u8>, n: u64) -> Result<(), NoMemory>
    ensures ok { OnOk result (out.new.items ≡ out.old.items ++ decimal n) }
    ensures err { OnErr result (out.new.items ≡ out.old.items) }
{
    let mut buffer = Buffer::new();
    out.extend_from_slice(buffer.format(n).as_bytes())?;
    Ok(())
}

fn are_digits(bytes: &[u8]) -> bool
    ensures { result ≡ list_all is_ascii_digit bytes.now }
{
    bytes.iter().all(|byte| byte.is_ascii_digit())
}

fn is_decimal(bytes: &[u8]) -> bool
    ensures { result ≡ spec.is_decimal bytes.now }
{
    match bytes.split_first() {
        None => false,
        Some((first, rest)) => {
            first.is_ascii_digit() && are_digits(rest) && (*first != b'0' || rest.is_empty())
        }
    }
}

/// The number that these bytes spell: `0`, or digits of which the first is not `0`, of a value that
/// 64 bits hold. It is None exactly where they spell none.
pub fn read_decimal(bytes: &[u8]) -> Option<u64>
    ensures { result ≡ decimal_value bytes.now }
{
    if !is_decimal(bytes) {
        return None;
    }
    str::from_utf8(bytes).ok()?.parse().ok()
}
