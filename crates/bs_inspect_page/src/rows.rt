//! The rows of signals, as HTML.
ghost use Rattle.std.specs.Prelude.{◌≡◌, ◌<◌, ◌+◌, ◌^◌, ◌++◌, length, map, All, OnOk};
ghost use Rattle.std.specs.List.{flat_map};
ghost use Rattle.bs_inspect_view.specs.Signals.{signal_in};
ghost use Rattle.bs_inspect_html.specs.Cells.{ValueCell, cell_from};
ghost use Rattle.bs_inspect_html.specs.Figures.{figure_in};
ghost use Rattle.bs_inspect_page.specs.Rows.{cell_at, cell_text, cells_text, group_text, value_class, look_text, open_word, row_text, signal_rows, span_words, title_words};

use bs_bits::{NoMemory, push_piece};
use bs_inspect_html::{Figure, begins, bits_at, end_of, is_open, push_between, push_name_cell};
use bs_inspect_view::{Signal, push_value};

/// Appends the class of a value.
fn push_kind(text: &mut Vec<u8>, bits: &[bool]) -> Result<(), NoMemory>
    ensures { OnOk result (text.new.items ≡ text.old.items ++ value_class bits.now) }
{
    match bits {
        [true] => push_piece(text, b"h"),
        [false] => push_piece(text, b"l"),
        _ => push_piece(text, b"v"),
    }
}

/// Appends the class of an open value.
fn push_open(text: &mut Vec<u8>, marked: bool) -> Result<(), NoMemory>
    ensures { OnOk result (text.new.items ≡ text.old.items ++ open_word marked) }
{
    if marked {
        push_piece(text, b" u")
    } else {
        Ok(())
    }
}

/// Appends how many columns a cell spans.
fn push_span(text: &mut Vec<u8>, count: usize) -> Result<(), NoMemory>
    ensures { OnOk result (text.new.items ≡ text.old.items ++ span_words count) }
{
    if count == 1 {
        return Ok(());
    }
    push_between(text, b" colspan='", count as u64, b"'")
}

/// Appends a value that may be cut where it is drawn.
fn push_title(text: &mut Vec<u8>, bits: &[bool]) -> Result<(), NoMemory>
    requires { length bits.now < 2 ^ 32 }
    ensures { OnOk result (text.new.items ≡ text.old.items ++ title_words bits.now) }
{
    if 32 < bits.len() {
        push_piece(text, b" title='")?;
        push_value(text, bits)?;
        return push_piece(text, b"'");
    }
    Ok(())
}

/// Appends how a cell is drawn.
#[tactic(auto, unfolding(crate::specs::Rows::look_text))]
fn push_look(
    text: &mut Vec<u8>,
    from: usize,
    to: usize,
    bits: &[bool],
    marked: bool,
) -> Result<(), NoMemory>
    requires { length bits.now < 2 ^ 32 }
    ensures { OnOk result (text.new.items ≡ text.old.items ++ look_text (record { from = from; to = to; bits = bits.now; marked = marked })) }
{
    push_piece(text, b"<td class='")?;
    push_kind(text, bits)?;
    push_open(text, marked)?;
    push_piece(text, b"'")?;
    push_span(text, to.saturating_sub(from))?;
    push_title(text, bits)
}

/// Appends a cell.
#[tactic(auto, unfolding(crate::specs::Rows::cell_text))]
fn push_cell(
    text: &mut Vec<u8>,
    from: usize,
    to: usize,
    bits: &[bool],
    marked: bool,
) -> Result<(), NoMemory>
    requires { length bits.now < 2 ^ 32 }
    ensures { OnOk result (text.new.items ≡ text.old.items ++ cell_text (record { from = from; to = to; bits = bits.now; marked = marked })) }
{
    push_look(text, from, to, bits, marked)?;
    push_piece(text, b"><b>")?;
    push_value(text, bits)?;
    push_piece(text, b"</b></td>")
}

/// Appends the cell that begins at a moment.
fn push_cell_from(
    text: &mut Vec<u8>,
    figure: Figure<'_>,
    places: &[u32],
    i: usize,
) -> Result<(), NoMemory>
    requires few { length places.now < 2 ^ 32 }
    requires there { i < length figure.moments.now }
    requires small { i + 1 < 2 ^ 64 }
    ensures { OnOk result (text.new.items ≡ text.old.items ++ cell_text (cell_from (figure_in figure.entry) places.now i)) }
{
    let bits = bits_at(*text.allocator(), figure, places, i)?;
    push_cell(
        text,
        i,
        end_of(figure, places, i),
        bits.as_slice(),
        is_open(figure, places, i),
    )
}

/// Appends the cell that begins at a moment, if one does.
fn push_cell_at(
    text: &mut Vec<u8>,
    figure: Figure<'_>,
    places: &[u32],
    i: usize,
) -> Result<(), NoMemory>
    requires few { length places.now < 2 ^ 32 }
    requires there { i < length figure.moments.now }
    requires small { i + 1 < 2 ^ 64 }
    ensures { OnOk result (text.new.items ≡ text.old.items ++ cell_at (figure_in figure.entry) places.now i) }
{
    if begins(figure, places, i) {
        push_cell_from(text, figure, places, i)
    } else {
        Ok(())
    }
}

/// Appends the cells of a signal.
#[tactic(auto, using(bs_bits::proofs::RangeLemmas::places_step), unfolding(crate::specs::Rows::cells_text))]
fn push_cells(text: &mut Vec<u8>, figure: Figure<'_>, places: &[u32]) -> Result<(), NoMemory>
    requires { length places.now < 2 ^ 32 }
    ensures { OnOk result (text.new.items ≡ text.old.items ++ cells_text (figure_in figure.entry) places.now) }
{
    'moments: for i in 0..figure.moments.len() {
        push_cell_at(text, figure, places, i)?;
    }
    Ok(())
}

/// Appends the row of a signal.
fn push_row(text: &mut Vec<u8>, figure: Figure<'_>, signal: &Signal<'_>) -> Result<(), NoMemory>
    requires { length signal.now.places < 2 ^ 32 }
    ensures { OnOk result (text.new.items ≡ text.old.items ++ row_text (figure_in figure.entry) (signal_in signal.now)) }
{
    push_name_cell(text, figure.signed, signal)?;
    push_cells(text, figure, signal.places.slice())?;
    push_piece(text, b"</tr>\n")?;
    Ok(())
}

/// Appends the rows of signals.
#[tactic(auto, using(crate::proofs::RowLemmas::rows_more))]
fn push_rows(text: &mut Vec<u8>, figure: Figure<'_>, signals: &[Signal<'_>]) -> Result<(), NoMemory>
    requires { All (λ s. length s.places < 2 ^ 32) signals.now }
    ensures { OnOk result (text.new.items ≡ text.old.items ++ signal_rows (figure_in figure.entry) (map signal_in signals.now)) }
{
    'signals: for signal in signals {
        push_row(text, figure, signal)?;
    }
    Ok(())
}

/// Appends the rows of signals under a heading.
pub(crate) fn push_group(
    text: &mut Vec<u8>,
    heading: &[u8],
    figure: Figure<'_>,
    signals: &[Signal<'_>],
) -> Result<(), NoMemory>
    requires { All (λ s. length s.places < 2 ^ 32) signals.now }
    ensures { OnOk result (text.new.items ≡ text.old.items ++ group_text heading.now (figure_in figure.entry) (map signal_in signals.now)) }
{
    push_piece(text, b"<tbody><tr><th class='g' scope='rowgroup'>")?;
    push_piece(text, heading)?;
    push_piece(text, b"</th></tr>\n")?;
    push_rows(text, figure, signals)?;
    push_piece(text, b"</tbody>\n")?;
    Ok(())
}
