use conc_show_model::{Form, read_words};
use std::alloc::Global;
use std::test::Fail;

// The words of a line, which are set apart by blanks.
fn words(alloc: Global, line: &str) -> Result<Vec<String>, Fail> {
    let mut words = Vec::new(alloc);
    for word in line.split(' ') {
        words.push(String::from_str(alloc, word)?)?;
    }
    Ok(words)
}

#[test]
fn words_name_a_form_and_files(rt: HostRuntime) -> Result<(), Fail> {
    let line = words(rt.alloc(), "json --plan=p - --script s")?;
    let said = read_words(line.as_slice()).ok_or("no command")?;
    assert!(rt; matches!(said.form, Form::Json));
    assert!(rt; said.history == Some(b"-".as_slice()));
    assert!(rt; said.plan == Some(b"p".as_slice()));
    assert!(rt; said.script == Some(b"s".as_slice()));
    Ok(())
}

#[test]
fn other_words_are_no_command(rt: HostRuntime) -> Result<(), Fail> {
    let lines = [
        "",
        "table",
        "csv a b",
        "csv --plan",
        "csv --plan a --plan=b",
        "csv -x",
        "--plan a csv",
    ];
    for line in lines {
        let words = words(rt.alloc(), line)?;
        assert!(rt; read_words(words.as_slice()).is_none(), "{line}");
    }
    Ok(())
}
