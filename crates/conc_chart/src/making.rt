ghost use Rattle.std.specs.Prelude.{◌≡◌, IfOk};
ghost use Rattle.conc_chart.specs.Faults.{form_text};

use conc_show_model::{Chart, Form};
use conc_show_svg::put_svg;
use conc_show_tables::{put_csv, put_json};
use conc_show_timeline::put_timeline;
use conc_types::NoMemory;
use std::alloc::Global;

/// The bytes of a form of a chart, for a terminal with colours where they are wanted.
pub(crate) fn made(
    alloc: Global,
    form: Form,
    colours: bool,
    chart: &Chart,
) -> Result<Vec<u8>, NoMemory>
    ensures { IfOk result (λ bytes. bytes.items ≡ form_text form colours chart.now) }
{
    let mut bytes = Vec::new(alloc);
    match form {
        Form::Timeline => put_timeline(alloc, &mut bytes, chart, colours)?,
        Form::Svg => put_svg(alloc, &mut bytes, chart)?,
        Form::Csv => put_csv(alloc, &mut bytes, chart)?,
        Form::Json => put_json(alloc, &mut bytes, chart)?,
    }
    Ok(bytes)
}
