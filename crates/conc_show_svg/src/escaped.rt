//! Texts in XML.
ghost use Rattle.std.specs.Prelude.{◌≡◌, ◌++◌, IsTrue, OnOk};
ghost use Rattle.std.specs.List.{list_all};
ghost use Rattle.conc_show_svg.specs.Escaped.{escaped, escaped_byte, is_plain};

use conc_show_model::put_bytes;
use conc_types::NoMemory;

fn put_escaped_byte(out: &mut Vec<u8>, byte: u8) -> Result<(), NoMemory>
    ensures { OnOk result (out.new.items ≡ out.old.items ++ escaped_byte byte) }
{
    match byte {
        b'<' => put_bytes(out, b"&lt;"),
        b'>' => put_bytes(out, b"&gt;"),
        b'&' => put_bytes(out, b"&amp;"),
        b'"' => put_bytes(out, b"&quot;"),
        _ => put_bytes(out, &[byte]),
    }
}

/// Appends a text, with `&lt;`, `&gt;`, `&amp;` and `&quot;` for what has a meaning in XML.
#[tactic(auto, unfolding(crate::specs::Escaped::escaped))]
pub(crate) fn put_escaped(out: &mut Vec<u8>, text: &[u8]) -> Result<(), NoMemory>
    ensures text { OnOk result (out.new.items ≡ out.old.items ++ escaped text.now) }
    ensures plain { IsTrue (list_all is_plain (escaped text.now)) }
{
    for byte in text {
        put_escaped_byte(out, *byte)?;
    }
    Ok(())
}
