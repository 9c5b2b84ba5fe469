use conc_show_model::{Chart, read_chart};
use conc_show_svg::put_svg;
use conc_show_timeline::put_timeline;
use std::alloc::Global;
use std::test::Fail;

// Eight events, so that each of them has six columns.
const HISTORY: &[u8] = b"tick 2025-03-03T09:00:00
do 1
let 1
start 1 1.1
end 1 Error 0 61
tick 2025-03-03T09:30:00
let 2
start 2 2.1
--
1 Completed Error Backlog
2 Running Normal A <B> & \"C\"
";

const TIMELINE: &[u8] = b"1.1    | 1 |
2.1    | | 2

                             |-----------------------------|-----------------
    1 Backlog                            ......======E                        Completed Error
    2 A <B> & \"C\"                                                ......====== Running Normal
";

const ERROR_IN_LANE: &[u8] =
    b"<rect class=\"bar error\" data-request=\"1\" data-lane=\"1.1\" x=\"552.50\" width=\"97.50\"";

const RUNNING_IN_LANE: &[u8] =
    b"<rect class=\"bar running\" data-request=\"2\" data-lane=\"2.1\" x=\"942.50\" width=\"97.50\"";

fn chart(alloc: Global) -> Result<Chart, Fail> {
    Ok(read_chart(alloc, HISTORY)?)
}

// How often a part stands in a text.
fn count(text: &[u8], part: &[u8]) -> usize {
    let mut found = 0;
    for i in 0..text.len() {
        if text[i..].starts_with(part) {
            found += 1;
        }
    }
    found
}

#[test]
fn timeline(rt: HostRuntime) -> Result<(), Fail> {
    let mut text = b"what stands in front\n".to_vec(rt.alloc())?;
    put_timeline(rt.alloc(), &mut text, &chart(rt.alloc())?, false)?;
    let all = text.as_slice();
    assert!(rt; all.starts_with(b"what stands in front\n"));
    assert!(rt; all.ends_with(TIMELINE));
    assert_eq!(rt; all.len(), 21 + TIMELINE.len());
    Ok(())
}

#[test]
fn colours(rt: HostRuntime) -> Result<(), Fail> {
    let mut text = Vec::new(rt.alloc());
    put_timeline(rt.alloc(), &mut text, &chart(rt.alloc())?, true)?;
    assert_eq!(rt; count(text.as_slice(), b"======\x1b[31mE\x1b[0m  "), 1);
    assert_eq!(rt; count(text.as_slice(), b"\x1b"), 2);
    Ok(())
}

// Each run has a bar in its lane, and one in its row beside the one of the legend.
#[test]
fn svg(rt: HostRuntime) -> Result<(), Fail> {
    let mut text = Vec::new(rt.alloc());
    put_svg(rt.alloc(), &mut text, &chart(rt.alloc())?)?;
    let all = text.as_slice();
    assert_eq!(rt; count(all, b"<rect class=\"error\""), 2);
    assert_eq!(rt; count(all, b"<rect class=\"running\""), 2);
    assert_eq!(rt; count(all, ERROR_IN_LANE), 1);
    assert_eq!(rt; count(all, RUNNING_IN_LANE), 1);
    assert_eq!(rt; count(all, b"<rect class=\"normal\""), 1);
    assert_eq!(rt; count(all, b"<rect class=\"lane\""), 2);
    assert_eq!(rt; count(all, b"<g class=\"row\" data-request=\"1\">"), 1);
    assert_eq!(rt; count(all, b"<g class=\"row\" data-request=\"2\">"), 1);
    assert_eq!(rt; count(all, b"</g>"), 2);
    assert_eq!(rt; count(all, b"<path class=\"wait\""), 3);
    assert_eq!(rt; count(all, b"<path class=\"reading\""), 3);
    assert_eq!(rt; count(all, b"<text class=\"name\""), 2);
    assert_eq!(rt; count(all, b"<text class=\"k\""), 2);
    assert_eq!(rt; count(all, b">A &lt;B&gt; &amp; &quot;C&quot;</text>"), 1);
    // The run of request 1 begins with the fourth of eight events, and ends with the fifth one.
    assert_eq!(rt; count(all, b"x=\"552.50\" width=\"97.50\""), 2);
    assert!(rt; all.ends_with(b"</svg>\n"));
    Ok(())
}
