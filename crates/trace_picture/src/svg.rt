//! The picture as one SVG: on a sheet, from behind to the front, bands, lines of time, rows, bars, marks.

use crate::facts::{Answer, Blamed, Facts, Piece, Request};
use crate::layout::{Bar, HEAD, Layout, Scene, step_of};
use crate::words::{Name, PieceTitle, ShortName, class_word};
use ntstatus::NtStatus;
use std::fmt::Display;
use std::io;
use std::io::Write;

/// Colours, after Okabe and Ito, sizes of letters, patterns that tell colours apart without colours, and marks.
const STYLE: &str =
    "<style>text{font:11px ui-monospace,Menlo,Consolas,'DejaVu Sans Mono',monospace;fill:#222;pointer-events:none}
.h{font-size:15px}.h,.c{font-weight:bold}.e{text-anchor:end}.m{text-anchor:middle}.line{stroke:#e4e4e4}use{pointer-events:none}
.b{font-size:10px;paint-order:stroke;stroke:#fff;stroke-width:2.4px;stroke-opacity:.8}
.request,.open{fill:#e6e6e6;fill-opacity:.75;stroke:#888}.open{stroke-dasharray:4 3}
.good,.busy,.bad,.out{stroke:#333;stroke-width:.8}
.good{fill:#63c9a9}.busy{fill:url(#busy)}.bad{fill:url(#bad)}.out{fill:#c4e3f6;stroke-dasharray:3 2}
.paused,.removing,.surprise,.removed{opacity:.4}
.paused{fill:url(#paused)}.removing{fill:url(#removing)}.surprise{fill:url(#surprise)}.removed{fill:#b0b0b0}
.cross{fill:none;stroke:#000;stroke-width:1.8}.stop{stroke:#000;stroke-width:1.2;stroke-dasharray:2 2}</style>
<defs>
<pattern id=\"busy\" width=\"7\" height=\"7\" patternUnits=\"userSpaceOnUse\" patternTransform=\"rotate(45)\"><path fill=\"#f3b63f\" d=\"M0 0h7v7h-7z\"/><path fill=\"#b87900\" d=\"M0 0h2v7h-2z\"/></pattern>
<pattern id=\"bad\" width=\"6\" height=\"6\" patternUnits=\"userSpaceOnUse\"><path fill=\"#e5855c\" d=\"M0 0h6v6h-6z\"/><path fill=\"#7d2f00\" d=\"M1 1h2v2h-2z\"/></pattern>
<pattern id=\"paused\" width=\"8\" height=\"8\" patternUnits=\"userSpaceOnUse\" patternTransform=\"rotate(-45)\"><path fill=\"#ecd3e1\" d=\"M0 0h8v8h-8z\"/><path fill=\"#cc79a7\" d=\"M0 0h2v8h-2z\"/></pattern>
<pattern id=\"removing\" width=\"6\" height=\"6\" patternUnits=\"userSpaceOnUse\"><path fill=\"#d4d4d4\" d=\"M0 0h6v6h-6z\"/><path fill=\"#8a8a8a\" d=\"M0 0h6v1h-6z\"/></pattern>
<pattern id=\"surprise\" width=\"6\" height=\"6\" patternUnits=\"userSpaceOnUse\"><path fill=\"#d4d4d4\" d=\"M0 0h6v6h-6z\"/><path fill=\"#555\" d=\"M0 0h6v1h-6zM0 0h1v6h-1z\"/></pattern>
<path id=\"call\" fill=\"#333\" d=\"M-5 -5l10 5l-10 5z\"/><path id=\"cancel\" class=\"cross\" d=\"M-5 -5l10 10m0 -10l-10 10\"/>
<circle id=\"success\" r=\"5\" fill=\"#007a59\" stroke=\"#fff\"/><path id=\"failure\" fill=\"#c04a00\" stroke=\"#fff\" d=\"M-5 0l5 5l5 -5l-5 -5z\"/>
<circle id=\"act\" r=\"2\"/><path id=\"fault\" class=\"cross\" d=\"M-3 -3l6 6m0 -6l-6 6\"/></defs><rect width=\"100%\" height=\"100%\" fill=\"#fff\"/>
";

/// What colours and marks say.
const LEGEND: &str =
    "<text class=\"c\" x=\"8\" y=\"51\">piece</text><rect class=\"good\" x=\"90\" y=\"40\" width=\"26\" height=\"14\"/><rect class=\"busy\" x=\"170\" y=\"40\" width=\"26\" height=\"14\"/><rect class=\"bad\" x=\"250\" y=\"40\" width=\"26\" height=\"14\"/><rect class=\"out\" x=\"320\" y=\"40\" width=\"26\" height=\"14\"/><use href=\"#act\" x=\"466\" y=\"47\"/><use href=\"#fault\" x=\"530\" y=\"47\"/>
<text y=\"51\"><tspan x=\"122\">good</tspan><tspan x=\"202\">busy</tspan><tspan x=\"282\">bad</tspan><tspan x=\"352\">out, not back</tspan><tspan x=\"476\">act</tspan><tspan x=\"540\">fault</tspan></text>
<text class=\"c\" x=\"8\" y=\"75\">request</text><use href=\"#call\" x=\"95\" y=\"71\"/><use href=\"#cancel\" x=\"165\" y=\"71\"/><use href=\"#success\" x=\"255\" y=\"71\"/><use href=\"#failure\" x=\"395\" y=\"71\"/>
<text y=\"75\"><tspan x=\"106\">call</tspan><tspan x=\"176\">cancel</tspan><tspan x=\"266\">answer SUCCESS</tspan><tspan x=\"406\">another answer</tspan><tspan x=\"540\">? fits nothing before it</tspan></text>
<text class=\"c\" x=\"8\" y=\"99\">device</text><rect class=\"paused\" x=\"90\" y=\"88\" width=\"26\" height=\"14\"/><rect class=\"removing\" x=\"190\" y=\"88\" width=\"26\" height=\"14\"/><rect class=\"surprise\" x=\"300\" y=\"88\" width=\"26\" height=\"14\"/><rect class=\"removed\" x=\"460\" y=\"88\" width=\"26\" height=\"14\"/>
<text y=\"99\"><tspan x=\"122\">paused</tspan><tspan x=\"222\">removing</tspan><tspan x=\"332\">surprise removal</tspan><tspan x=\"492\">removed</tspan></text>
";

pub(crate) fn write_svg<W: Write>(out: &mut W, scene: Scene<'_>) -> io::Result<()> {
    write_sheet(out, scene)?;
    write_bands(out, scene)?;
    write_times(out, scene)?;
    write_tags(out, scene)?;
    write_requests(out, scene)?;
    write_pieces(out, scene)?;
    write_ends(out, scene)?;
    if let Some(blamed) = &scene.facts.blamed {
        write_ring(out, scene, blamed)?;
    }
    out.write_all(b"</svg>\n")
}

fn write_sheet<W: Write>(out: &mut W, scene: Scene<'_>) -> io::Result<()> {
    let (facts, layout) = (scene.facts, scene.layout);
    let (width, height) = (layout.width(), layout.bottom.saturating_add(26));
    write!(out, "<svg xmlns=\"http://www.w3.org/2000/svg\"")?;
    write!(out, " width=\"{width}\" height=\"{height}\"")?;
    writeln!(out, " viewBox=\"0 0 {width} {height}\">")?;
    out.write_all(STYLE.as_bytes())?;
    if layout.column < 12 {
        out.write_all(b"<style>#call,#success,#failure,#cancel{transform:scale(.6)}</style>\n")?;
    }
    write_heading(out, facts)?;
    out.write_all(LEGEND.as_bytes())
}

fn write_heading<W: Write>(out: &mut W, facts: &Facts) -> io::Result<()> {
    let (labels, requests, pieces) = (facts.labels, facts.requests.len(), facts.pieces.len());
    write!(out, "<text class=\"h\" x=\"8\" y=\"24\">{labels} labels")?;
    writeln!(out, ", {requests} requests, {pieces} pieces</text>")?;
    match &facts.blamed {
        Some(blamed) => write_text(out, "n", 420, 24, &first_line(blamed)),
        None => Ok(()),
    }
}

/// The first line of what is said of a label that broke a rule.
fn first_line(blamed: &Blamed) -> &str {
    let said = blamed.said.as_str();
    match said.split_once('\n') {
        Some((first, _)) => first,
        None => said,
    }
}

/// Writes a ring around the label that broke a rule, where it is shown, with what is said of it.
fn write_ring<W: Write>(out: &mut W, scene: Scene<'_>, blamed: &Blamed) -> io::Result<()> {
    let layout = scene.layout;
    if !layout.has(blamed.line) {
        return Ok(());
    }
    let (x, y) = (layout.x_of(blamed.line), height_of_line(scene, blamed.line));
    write!(out, "<circle cx=\"{x}\" cy=\"{y}\" r=\"9\" fill=\"none\"")?;
    out.write_all(b" stroke=\"#d00000\" stroke-width=\"2.4\">")?;
    writeln!(out, "<title>{}</title></circle>", blamed.said.as_str())
}

/// The height at which the label of a line stands: in the row of its tag or of its request, or above all rows.
fn height_of_line(scene: Scene<'_>, line: u64) -> u64 {
    if let Some(y) = height_on_tag(scene, line) {
        return y;
    }
    match height_of_request(scene, line) {
        Some(y) => y,
        None => HEAD + 14,
    }
}

/// The height of the row of the piece that a line is of.
fn height_on_tag(scene: Scene<'_>, line: u64) -> Option<u64> {
    for piece in scene.facts.pieces.iter() {
        if piece.is_in(line) {
            return Some(scene.layout.tags[piece.tag as usize]?.saturating_add(13));
        }
    }
    None
}

/// The height of the bar of the request that a line is of.
fn height_of_request(scene: Scene<'_>, line: u64) -> Option<u64> {
    for (place, request) in scene.facts.requests.iter().enumerate() {
        if request.is_in(line) {
            return Some(scene.layout.request_bar(request, place)?.middle());
        }
    }
    None
}

/// Writes, behind all rows, when the device is paused or removed, and the labels that fit nothing.
fn write_bands<W: Write>(out: &mut W, scene: Scene<'_>) -> io::Result<()> {
    let layout = scene.layout;
    let height = layout.bottom.saturating_sub(HEAD);
    for band in scene.facts.bands.iter() {
        if !layout.shows(band.start, band.end) {
            continue;
        }
        let bar = layout.bar_of(band.start, band.end, HEAD);
        let y = HEAD;
        write_bar(out, band.word, Bar { y, height, ..bar }, &band.word)?;
        if band.word.len() as u64 <= bar.width / 8 {
            write_text(out, "c", bar.x.saturating_add(4), HEAD + 20, &band.word)?;
        }
    }
    for line in scene.facts.strays.iter() {
        if layout.has(*line) {
            write_text(out, "c m", layout.x_of(*line), HEAD + 10, &"?")?;
        }
    }
    Ok(())
}

/// Writes the lines of time, each with its number above and below.
fn write_times<W: Write>(out: &mut W, scene: Scene<'_>) -> io::Result<()> {
    let (layout, bottom) = (scene.layout, scene.layout.bottom);
    let step = step_of(layout.column);
    let (first, last) = layout.lines();
    let before = first.saturating_sub(1).checked_div(step).unwrap_or(0);
    for count in before.saturating_add(1)..=last.checked_div(step).unwrap_or(0) {
        let line = count.saturating_mul(step);
        let x = layout.x_of(line);
        writeln!(out, "<path class=\"line\" d=\"M{x} {HEAD}V{bottom}\"/>")?;
        write_text(out, "m", x, HEAD - 5, &line)?;
        write_text(out, "m", x, bottom.saturating_add(14), &line)?;
    }
    Ok(())
}

fn write_row<W: Write>(out: &mut W, y: u64, width: u64, name: &str) -> io::Result<()> {
    writeln!(out, "<path class=\"line\" d=\"M0 {y}H{width}\"/>")?;
    let y = y.saturating_add(17);
    write_text(out, "n", 8, y, &name)
}

/// Writes the rows of the tags, with their pieces.
fn write_tags<W: Write>(out: &mut W, scene: Scene<'_>) -> io::Result<()> {
    let layout = scene.layout;
    write_text(out, "c", 8, HEAD + 18, &"tags")?;
    for (tag, y) in layout.tags.iter().enumerate() {
        if let Some(y) = y {
            let name = format!(in scene.facts.alloc; "tag {tag}")?;
            write_row(out, *y, layout.width(), name.as_str())?;
        }
    }
    for piece in scene.facts.pieces.iter() {
        if let Some(y) = layout.tags[piece.tag as usize]
            && layout.shows(piece.start, piece.end())
        {
            write_on_tag(out, scene, piece, y)?;
        }
    }
    Ok(())
}

/// Writes a piece in the row of its tag, with its act or its fault.
fn write_on_tag<W: Write>(out: &mut W, scene: Scene<'_>, piece: &Piece, y: u64) -> io::Result<()> {
    let layout = scene.layout;
    let bar = layout.bar_of(piece.start, piece.end(), y);
    write_piece(out, scene, piece, bar)?;
    let y = y.saturating_add(19);
    match piece.fate {
        Some((line, word)) if layout.has(line) => write_mark(out, word, layout.x_of(line), y),
        _ => Ok(()),
    }
}

/// Writes the bar of a piece, with its title, and its number where there is room.
fn write_piece<W: Write>(out: &mut W, scene: Scene<'_>, piece: &Piece, bar: Bar) -> io::Result<()> {
    let facts = scene.facts;
    let word = class_word(piece.back);
    let owner = facts.owner_of(piece);
    write_bar(out, word, bar, &PieceTitle { piece, owner })?;
    let number = format!(in facts.alloc; "{}", piece.number)?;
    if (number.len() as u64).saturating_add(1) > bar.width / 6 {
        return Ok(());
    }
    let (x, y) = (bar.x.saturating_add(4), bar.y.saturating_add(10));
    write_text(out, "b", x, y, &number)
}

/// Writes the rows of the requests, with their bars, calls and names.
fn write_requests<W: Write>(out: &mut W, scene: Scene<'_>) -> io::Result<()> {
    let layout = scene.layout;
    write_text(out, "c", 8, layout.requests.saturating_add(18), &"requests")?;
    for row in layout.rows.iter() {
        write_row(out, row.y, layout.width(), "")?;
    }
    for (place, request) in scene.facts.requests.iter().enumerate() {
        if let Some(bar) = layout.request_bar(request, place) {
            write_request(out, layout, request, bar)?;
        }
    }
    Ok(())
}

/// Writes the bar of a request, and its name: a short one left of the bar where it shares the row.
fn write_request<W: Write>(out: &mut W, layout: &Layout, of: &Request, bar: Bar) -> io::Result<()> {
    let class = if of.answer.is_some() {
        "request"
    } else {
        "open"
    };
    let y = bar.middle().saturating_add(4);
    if layout.is_shared {
        write_text(out, "e", bar.x.saturating_sub(8), y, &ShortName(of))?;
    } else {
        write_text(out, "n", 8, y, &Name(of))?;
    }
    write_bar(out, class, bar, &Name(of))?;
    if layout.has(of.call) {
        return write_mark(out, "call", bar.x, bar.middle());
    }
    Ok(())
}

/// Writes all pieces in the bars of their requests.
fn write_pieces<W: Write>(out: &mut W, scene: Scene<'_>) -> io::Result<()> {
    for piece in scene.facts.pieces.iter() {
        if let Some(bar) = scene.layout.piece_bar(scene.facts, piece)
            && scene.layout.shows(piece.start, piece.end())
        {
            write_piece(out, scene, piece, bar)?;
        }
    }
    Ok(())
}

/// Writes the cancels and the answers of all requests.
fn write_ends<W: Write>(out: &mut W, scene: Scene<'_>) -> io::Result<()> {
    let layout = scene.layout;
    for (place, request) in scene.facts.requests.iter().enumerate() {
        let Some(bar) = layout.request_bar(request, place) else {
            continue;
        };
        if let Some(line) = request.cancel
            && layout.has(line)
        {
            write_cancel(out, layout.x_of(line), bar)?;
        }
        if let Some(answer) = request.answer
            && layout.has(answer.line)
        {
            write_answer(out, layout, answer, bar)?;
        }
    }
    Ok(())
}

/// Writes the line of a cancel, with a cross.
fn write_cancel<W: Write>(out: &mut W, x: u64, bar: Bar) -> io::Result<()> {
    let (y, height) = (bar.y, bar.height);
    writeln!(out, "<path class=\"stop\" d=\"M{x} {y}v{height}\"/>")?;
    write_mark(out, "cancel", x, bar.middle())
}

/// Writes the mark of an answer, and its status; where rows are shared only one that isn't SUCCESS.
fn write_answer<W: Write>(out: &mut W, layout: &Layout, end: Answer, bar: Bar) -> io::Result<()> {
    let is_success = end.status == NtStatus::Success;
    let mark = if is_success { "success" } else { "failure" };
    let (x, y) = (layout.x_of(end.line), bar.middle());
    write_mark(out, mark, x, y)?;
    if is_success && layout.is_shared {
        return Ok(());
    }
    let (x, y) = (x.saturating_add(9), y.saturating_add(4));
    write_text(out, "n", x, y, &end.status.name())
}

/// Writes a rectangle of a class, with a title.
fn write_bar<W: Write, T: Display>(
    out: &mut W,
    class: &str,
    bar: Bar,
    title: &T,
) -> io::Result<()> {
    let (x, y) = (bar.x, bar.y);
    let (width, height) = (bar.width, bar.height);
    write!(out, "<rect class=\"{class}\" x=\"{x}\" y=\"{y}\"")?;
    write!(out, " width=\"{width}\" height=\"{height}\">")?;
    writeln!(out, "<title>{title}</title></rect>")
}

/// Writes a text of a class, which says whether it begins, has its middle or ends at `x`.
fn write_text<W: Write, T: Display>(
    out: &mut W,
    class: &str,
    x: u64,
    y: u64,
    text: &T,
) -> io::Result<()> {
    write!(out, "<text class=\"{class}\" x=\"{x}\" y=\"{y}\">")?;
    writeln!(out, "{text}</text>")
}

fn write_mark<W: Write>(out: &mut W, mark: &str, x: u64, y: u64) -> io::Result<()> {
    writeln!(out, "<use href=\"#{mark}\" x=\"{x}\" y=\"{y}\"/>")
}
