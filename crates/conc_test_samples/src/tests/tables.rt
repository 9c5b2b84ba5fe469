use super::expect::{same, same_at};
use conc_tables::read_table;
use conc_types::{FileKind, ReadFail, Refusal, RefusalKind};
use std::alloc::Global;
use std::test::Fail;

// The table of a text, with `|` between cells and `/` before each row.
fn shown(alloc: Global, text: &[u8]) -> Result<Vec<u8>, ReadFail> {
    let table = read_table(alloc, text, 7)?;
    let mut shown = Vec::new(alloc);
    for name in table.columns() {
        shown.extend_from_slice(name.as_slice())?;
        shown.push(b'|')?;
    }
    for row in 0..table.row_count() {
        shown.push(b'/')?;
        for column in 0..table.columns().len() {
            shown.extend_from_slice(table.cell(row, column))?;
            shown.push(b'|')?;
        }
    }
    Ok(shown)
}

// Texts, and the tables that they are.
static READ: [(&str, &str); 8] = [
    ("k,v\na,1\nb,2\n", "k|v|/a|1|/b|2|"),
    ("k,v\na,1\nb,2", "k|v|/a|1|/b|2|"),
    ("k,v\r\na,1\r\nb,2\r\n", "k|v|/a|1|/b|2|"),
    ("\nk,v\n\na,1\n\n\nb,2\n", "k|v|/a|1|/b|2|"),
    ("k,v\n\"a,b\",\"say \"\"1\"\"\"\n", "k|v|/a,b|say \"1\"|"),
    ("k,v\n\"a\nb\",1\n", "k|v|/a\nb|1|"),
    ("k,v\n,\n", "k|v|/||"),
    ("k", "k|"),
];

// Texts, and the record and the rule for which they are refused.
static REFUSED: [(&str, u64, RefusalKind); 7] = [
    ("", 1, RefusalKind::NoHeader),
    ("\r\n\n", 1, RefusalKind::NoHeader),
    ("k,k\n", 1, RefusalKind::DuplicateColumn),
    ("k,v,k\na\n", 1, RefusalKind::DuplicateColumn),
    ("k,v\na,1\nb\n", 3, RefusalKind::RaggedRow),
    ("k,v\na,1,2\nb\n", 2, RefusalKind::RaggedRow),
    ("k,v\n\n\"a\nb\",1\n\nb\n", 3, RefusalKind::RaggedRow),
];

fn refused(line: u64, kind: RefusalKind) -> Option<ReadFail> {
    let file = FileKind::Table(7);
    Some(ReadFail::Refused(Refusal { file, line, kind }))
}

#[test]
fn reads_tables(rt: HostRuntime) -> Result<(), Fail> {
    for (text, want) in READ {
        let table = shown(rt.alloc(), text.as_bytes())?;
        same_at(&rt, table.as_slice(), want.as_bytes(), text);
    }
    for (text, line, kind) in REFUSED {
        let read = shown(rt.alloc(), text.as_bytes());
        same_at(&rt, read.err(), refused(line, kind), text);
    }
    Ok(())
}

#[test]
fn refuses_a_file_that_is_too_long(rt: HostRuntime) -> Result<(), Fail> {
    let text = vec![in rt.alloc(); b'k'; 67_108_865]?;
    let read = shown(rt.alloc(), text.as_slice());
    same(&rt, read.err(), refused(0, RefusalKind::TooLarge));
    Ok(())
}
