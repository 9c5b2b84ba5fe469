//! Numbers, and the elements of the picture.
ghost use Rattle.std.specs.Prelude.{◌≡◌, ◌++◌, OnOk, decimal};
ghost use Rattle.conc_show_svg.specs.Marks.{box_text, heights_text, hundredths, label_text, path_text, sides_text, start_text};

use crate::geometry::Bar;
use conc_show_model::put_bytes;
use conc_types::NoMemory;
use itoa::Buffer;

/// Appends words and a number.
pub(crate) fn put_number(out: &mut Vec<u8>, words: &[u8], n: u128) -> Result<(), NoMemory>
    ensures { OnOk result (out.new.items ≡ out.old.items ++ words.now ++ decimal n) }
{
    let mut buffer = Buffer::new();
    put_bytes(out, words)?;
    put_bytes(out, buffer.format(n).as_bytes())
}

/// Appends words and a length, which is told in hundredths.
#[tactic(auto, unfolding(crate::specs::Marks::hundredths))]
pub(crate) fn put_length(out: &mut Vec<u8>, words: &[u8], n: u128) -> Result<(), NoMemory>
    ensures { OnOk result (out.new.items ≡ out.old.items ++ words.now ++ hundredths n) }
{
    put_number(out, words, n / 100)?;
    put_bytes(
        out,
        &[b'.', b'0' + (n / 10 % 10) as u8, b'0' + (n % 10) as u8],
    )
}

/// Appends the end of the value in front, and from where to where a rectangle lies.
#[tactic(auto, unfolding(crate::specs::Marks::sides_text))]
pub(crate) fn put_sides(out: &mut Vec<u8>, bar: Bar) -> Result<(), NoMemory>
    ensures { OnOk result (out.new.items ≡ out.old.items ++ sides_text bar) }
{
    put_length(out, b"\" x=\"", bar.left)?;
    put_length(out, b"\" width=\"", bar.width)
}

/// Appends how high a rectangle stands, up to the end of its last value.
#[tactic(auto, unfolding(crate::specs::Marks::heights_text))]
pub(crate) fn put_heights(out: &mut Vec<u8>, top: u128, height: u128) -> Result<(), NoMemory>
    ensures { OnOk result (out.new.items ≡ out.old.items ++ heights_text top height) }
{
    put_number(out, b"\" y=\"", top)?;
    put_number(out, b"\" height=\"", height)?;
    put_bytes(out, b"\"")
}

/// Appends the head of a rectangle of a class, up to the end of its last value.
#[tactic(auto, unfolding(crate::specs::Marks::box_text))]
pub(crate) fn put_box(
    out: &mut Vec<u8>,
    class: &[u8],
    bar: Bar,
    top: u128,
    height: u128,
) -> Result<(), NoMemory>
    ensures { OnOk result (out.new.items ≡ out.old.items ++ box_text class.now bar top height) }
{
    put_bytes(out, b"<rect class=\"")?;
    put_bytes(out, class)?;
    put_sides(out, bar)?;
    put_heights(out, top, height)
}

// Where a line begins.
#[tactic(auto, unfolding(crate::specs::Marks::start_text))]
fn put_start(out: &mut Vec<u8>, class: &[u8], x: u128, y: u128) -> Result<(), NoMemory>
    ensures { OnOk result (out.new.items ≡ out.old.items ++ start_text class.now x y) }
{
    put_bytes(out, b"<path class=\"")?;
    put_bytes(out, class)?;
    put_length(out, b"\" d=\"M", x)?;
    put_number(out, b" ", y)
}

/// A line.
#[derive(Clone, Copy)]
pub(crate) enum Path {
    /// From left to right: from an x to another, at a y.
    Across(u128, u128, u128),
    /// From top to bottom: at an x, from a y to another.
    Down(u128, u128, u128),
}

/// Appends the head of a line of a class, up to the end of its last value.
#[tactic(auto, unfolding(crate::specs::Marks::across_text, crate::specs::Marks::down_text))]
pub(crate) fn put_path(out: &mut Vec<u8>, class: &[u8], path: Path) -> Result<(), NoMemory>
    ensures { OnOk result (out.new.items ≡ out.old.items ++ path_text class.now path) }
{
    match path {
        Path::Across(left, right, y) => {
            put_start(out, class, left, y)?;
            put_length(out, b"H", right)?;
            put_bytes(out, b"\"")
        }
        Path::Down(x, top, bottom) => {
            put_start(out, class, x, top)?;
            put_number(out, b"V", bottom)?;
            put_bytes(out, b"\"")
        }
    }
}

/// Appends the head of a text of a class.
#[tactic(auto, unfolding(crate::specs::Marks::label_text))]
pub(crate) fn put_label(out: &mut Vec<u8>, class: &[u8], x: u128, y: u128) -> Result<(), NoMemory>
    ensures { OnOk result (out.new.items ≡ out.old.items ++ label_text class.now x y) }
{
    put_bytes(out, b"<text class=\"")?;
    put_bytes(out, class)?;
    put_length(out, b"\" x=\"", x)?;
    put_number(out, b"\" y=\"", y)?;
    put_bytes(out, b"\">")
}
