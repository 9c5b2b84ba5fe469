use super::expect::{same, same_at};
use conc_types::{Cells, is_name, put_decimal, read_decimal};
use std::test::Fail;

// Numbers, and how they are written behind `n=`.
static PUT: [(u64, &str); 5] = [
    (0, "n=0"),
    (7, "n=7"),
    (10, "n=10"),
    (100, "n=100"),
    (u64::MAX, "n=18446744073709551615"),
];

#[test]
fn puts_decimals(rt: HostRuntime) -> Result<(), Fail> {
    for (number, want) in PUT {
        let mut out = b"n=".to_vec(rt.alloc())?;
        put_decimal(&mut out, number)?;
        same_at(&rt, out.as_slice(), want.as_bytes(), number);
    }
    Ok(())
}

// Texts, and the number that is read.
static READ: [(&str, Option<u64>); 13] = [
    ("0", Some(0)),
    ("7", Some(7)),
    ("10", Some(10)),
    ("18446744073709551615", Some(u64::MAX)),
    ("18446744073709551616", None),
    ("100000000000000000000", None),
    ("", None),
    ("00", None),
    ("01", None),
    ("+1", None),
    ("-0", None),
    (" 1", None),
    ("1a", None),
];

#[test]
fn reads_decimals(rt: HostRuntime) {
    for (text, want) in READ {
        same_at(&rt, read_decimal(text.as_bytes()), want, text);
    }
}

// Bytes, and whether they are a name.
static NAMES: [(&[u8], bool); 8] = [
    (&[b'x'; 80], true),
    (&[b'x'; 81], false),
    (b"", false),
    // An e with an acute accent.
    (b"\xc3\xa9", true),
    (b"a b", true),
    (b"a\x7f", false),
    (b"a\x1f", false),
    (b"\xff", false),
];

#[test]
fn tells_names(rt: HostRuntime) {
    for (bytes, want) in NAMES {
        same_at(&rt, is_name(bytes), want, bytes);
    }
}

// Places, and the cell that stands there.
static CELLS: [(usize, Option<&[u8]>); 4] = [
    (0, Some(b"ab")),
    (1, Some(b"")),
    (2, Some(b"c")),
    (3, None),
];

#[test]
fn keeps_cells(rt: HostRuntime) -> Result<(), Fail> {
    let mut cells = Cells::new(rt.alloc());
    for cell in ["ab", "", "c"] {
        cells.push(cell.as_bytes())?;
    }
    same(&rt, cells.len(), 3);
    for (index, want) in CELLS {
        same_at(&rt, cells.get(index), want, index);
    }
    Ok(())
}
