use conc_types::read_decimal;
use std::alloc::Global;
use std::process::Abort;
use std::test::Fail;

/// The text that lines stand for: `\` at the end of a line takes its LF away, `\r` is CR, `\t` is TAB, and a line behind
/// `COUNT times: ` stands so often.
pub(crate) fn text_of(alloc: Global, lines: &str) -> Result<String, Fail> {
    let joined = lines.replace(alloc, "\\\n", "")?;
    let plain = joined
        .replace(alloc, "\\r", "\r")?
        .replace(alloc, "\\t", "\t")?;
    let mut text = String::new(alloc);
    for line in plain.split_inclusive('\n') {
        match line.split_once(" times: ") {
            Some((count, line)) => {
                for _ in 0..count.parse::<u32>()? {
                    text.push_str(line)?;
                }
            }
            None => text.push_str(line)?,
        }
    }
    Ok(text)
}

pub(crate) fn number_of(rt: &impl Abort, digits: &str) -> u64 {
    read_decimal(digits.as_bytes()).expect(rt, digits)
}

// Adds a byte for each of these numbers.
fn add_bytes(rt: &impl Abort, bytes: &mut Vec<u8>, numbers: &str) -> Result<(), Fail> {
    for number in numbers.split(' ') {
        bytes.push(number.parse::<u8>().expect(rt, number))?;
    }
    Ok(())
}

// What stands from this place on then stands so many times.
fn repeat_from(
    rt: &impl Abort,
    alloc: Global,
    bytes: &mut Vec<u8>,
    place: u64,
    times: u64,
) -> Result<(), Fail> {
    let piece = bytes
        .get(place as usize..)
        .expect(rt, "a place in the bytes")
        .to_vec(alloc)?;
    for _ in 1..times {
        bytes.extend_from_slice(&piece)?;
    }
    Ok(())
}

/// Changes bytes as each of the lines says:
///
/// - `first COUNT` keeps so many of them;
/// - `text WORDS` adds these words, `bytes NUMBER NUMBER ..` a byte for each number, `zeros COUNT` so many bytes 0;
/// - `put NUMBER at PLACE` gives the byte at this place, from 0, this value;
/// - `COUNT times from PLACE` has what stands from this place on stand so many times.
pub(crate) fn change_bytes(
    rt: &impl Abort,
    alloc: Global,
    bytes: &mut Vec<u8>,
    lines: &str,
) -> Result<(), Fail> {
    for line in lines.lines() {
        let (word, rest) = line.split_once(' ').expect(rt, line);
        if word == "first" {
            bytes.truncate(number_of(rt, rest) as usize);
        } else if word == "text" {
            bytes.extend_from_slice(rest.as_bytes())?;
        } else if word == "bytes" {
            add_bytes(rt, bytes, rest)?;
        } else if word == "zeros" {
            for _ in 0..number_of(rt, rest) {
                bytes.push(0)?;
            }
        } else if word == "put" {
            let (number, place) = rest.split_once(" at ").expect(rt, line);
            let byte = bytes
                .get_mut(number_of(rt, place) as usize)
                .expect(rt, line);
            *byte = number.parse::<u8>().expect(rt, line);
        } else {
            let place = rest.strip_prefix("times from ").expect(rt, line);
            repeat_from(rt, alloc, bytes, number_of(rt, place), number_of(rt, word))?;
        }
    }
    Ok(())
}
