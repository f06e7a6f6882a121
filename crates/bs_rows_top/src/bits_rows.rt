//! Bits, lists, lines, words and numbers: worked texts and orders, and each call that allocates with ample memory.
use bs_bits::{
    Bits, List, NoMemory, end_line, is_name, next_line, next_word, push_line, push_number,
    push_number_line, push_piece, read_number,
};
use std::alloc::Global;
use std::cmp::Ordering;
use std::test::Fail;

/// The text of bits.
fn text_of(alloc: Global, bits: &Bits) -> Result<Vec<u8>, NoMemory> {
    let mut text = Vec::new(alloc);
    bits.text(&mut text)?;
    Ok(text)
}

/// A copy of bits, with the last one exchanged.
fn exchanged(bits: &Bits) -> Result<Bits, NoMemory> {
    let mut copied = bits.copy()?;
    let count = copied.len();
    if count > 0 {
        copied.set(count - 1, !bits.get(count - 1));
    }
    Ok(copied)
}

/// How the bits of two texts are ordered, and whether they are equal.
fn compared(
    alloc: Global,
    first: &str,
    second: &str,
) -> Result<Option<(Ordering, bool)>, NoMemory> {
    let first = Bits::read_text(alloc, first.as_bytes())?;
    let second = Bits::read_text(alloc, second.as_bytes())?;
    match (first, second) {
        (Some(first), Some(second)) => Ok(Some((first.order(&second), first.equals(&second)))),
        _ => Ok(None),
    }
}

/// The bits 10, bit by bit, as a text.
fn pushed(alloc: Global) -> Result<Vec<u8>, NoMemory> {
    let mut bits = Bits::new(alloc);
    bits.push(true)?;
    bits.push(false)?;
    text_of(alloc, &bits)
}

/// Whether bytes that are made are a text.
fn makes(bytes: Result<Vec<u8>, NoMemory>, text: &str) -> Result<bool, NoMemory> {
    match bytes {
        Ok(bytes) => Ok(bytes.as_slice() == text.as_bytes()),
        Err(fault) => Err(fault),
    }
}

/// Texts, and those of their bits with the last one exchanged.
static TEXTS: [(&str, Option<&str>); 7] = [
    ("011", Some("010")),
    (".", Some(".")),
    ("0", Some("1")),
    ("0x", None),
    ("", None),
    ("..", None),
    ("0 ", None),
];

/// Whether bits, with the last one exchanged, have this text.
fn have_exchanged(alloc: Global, bits: &Bits, want: &str) -> Result<bool, NoMemory> {
    let copied = exchanged(bits)?;
    makes(text_of(alloc, &copied), want)
}

/// Whether the bits of a text, with the last one exchanged, have this text.
fn is_exchanged(alloc: Global, (text, want): &(&str, Option<&str>)) -> Result<bool, NoMemory> {
    match (Bits::read_text(alloc, text.as_bytes())?, want) {
        (Some(bits), Some(want)) => have_exchanged(alloc, &bits, want),
        (None, None) => Ok(true),
        _ => Ok(false),
    }
}

/// Texts of bits, and their order.
static ORDERS: [(&str, &str, Ordering); 6] = [
    ("011", "011", Ordering::Equal),
    ("011", "10", Ordering::Less),
    ("1", "011", Ordering::Greater),
    ("01", "011", Ordering::Less),
    (".", "0", Ordering::Less),
    (".", ".", Ordering::Equal),
];

/// Whether the bits of two texts are so ordered.
fn is_ordered(
    alloc: Global,
    (first, second, want): &(&str, &str, Ordering),
) -> Result<bool, NoMemory> {
    let same = *want == Ordering::Equal;
    Ok(compared(alloc, first, second)? == Some((*want, same)))
}

#[test]
fn bit_texts_and_orders(rt: HostRuntime) -> Result<(), Fail> {
    assert!(rt; makes(pushed(rt.alloc()), "10")?);
    for row in &TEXTS {
        assert!(rt; is_exchanged(rt.alloc(), row)?);
    }
    for row in &ORDERS {
        assert!(rt; is_ordered(rt.alloc(), row)?);
    }
    Ok(())
}

/// Appends three lines.
fn push_three(text: &mut Vec<u8>) -> Result<(), NoMemory> {
    push_piece(text, "a".as_bytes())?;
    push_number(text, 10)?;
    end_line(text)?;
    push_line(text, "".as_bytes())?;
    push_number_line(text, "run x ".as_bytes(), u64::MAX)
}

/// Three lines.
fn three_lines(alloc: Global) -> Result<Vec<u8>, NoMemory> {
    let mut text = Vec::new(alloc);
    push_three(&mut text)?;
    Ok(text)
}

/// The lengths of the first four lines of a text.
fn lengths(alloc: Global, text: &[u8]) -> Result<List<usize>, NoMemory> {
    let mut lines = List::new(alloc);
    let mut rest = text;
    for _ in 0..4 {
        if let Some((line, behind)) = next_line(rest) {
            lines.push(line.len())?;
            rest = behind;
        }
    }
    Ok(lines)
}

/// A list of one number.
fn one_number(alloc: Global, number: usize) -> Result<List<usize>, NoMemory> {
    let mut list = List::new(alloc);
    list.push(number)?;
    Ok(list)
}

/// The lengths of a text's lines, and a number behind them.
fn lengths_and(alloc: Global, text: &[u8], number: usize) -> Result<List<usize>, NoMemory> {
    let mut lines = lengths(alloc, text)?;
    lines.append(one_number(alloc, number)?)?;
    Ok(lines)
}

/// Whether these are the lengths of the three lines.
fn are_lengths(
    alloc: Global,
    text: &[u8],
    number: usize,
    want: &[usize],
) -> Result<bool, NoMemory> {
    let lines = lengths_and(alloc, text, number)?;
    Ok(lines.slice() == want)
}

/// The same of a text that is made.
fn have_lengths(
    alloc: Global,
    text: Result<Vec<u8>, NoMemory>,
    want: &[usize],
) -> Result<bool, NoMemory> {
    match text {
        Ok(text) => are_lengths(alloc, &text, 7, want),
        Err(fault) => Err(fault),
    }
}

/// Lines, their first words, and what stands behind them.
static WORDS: [(&str, &str, Option<&str>); 4] = [
    ("run x 5", "run", Some("x 5")),
    ("run", "run", None),
    (" x", "", Some("x")),
    ("", "", None),
];

/// Whether a line has this first word.
fn has_word((line, want, rest): &(&str, &str, Option<&str>)) -> bool {
    let (word, behind) = next_word(line.as_bytes());
    word == want.as_bytes() && behind == rest.map(str::as_bytes)
}

/// Texts, and the numbers that they are.
static NUMBERS: [(&str, Option<u64>); 10] = [
    ("0", Some(0)),
    ("10", Some(10)),
    ("18446744073709551615", Some(u64::MAX)),
    ("18446744073709551616", None),
    ("184467440737095516150", None),
    ("00", None),
    ("01", None),
    ("+1", None),
    ("1 ", None),
    ("", None),
];

/// Whether a text is read as its number.
fn is_number((text, want): &(&str, Option<u64>)) -> bool {
    read_number(text.as_bytes()) == *want
}

/// Words, and whether they are names.
static NAMES: [(&str, bool); 4] = [
    ("a~!", true),
    ("", false),
    ("a b", false),
    ("\u{7f}", false),
];

/// Whether a word is a name where it is to be one.
fn is_judged((word, want): &(&str, bool)) -> bool {
    is_name(word.as_bytes()) == *want
}

#[test]
fn lines_words_and_numbers(rt: HostRuntime) -> Result<(), Fail> {
    let alloc = rt.alloc();
    assert!(rt; makes(three_lines(alloc), "a10\n\nrun x 18446744073709551615\n")?);
    assert!(rt; have_lengths(alloc, three_lines(alloc), &[3, 0, 26, 7])?);
    for row in &WORDS {
        assert!(rt; has_word(row));
    }
    for row in &NUMBERS {
        assert!(rt; is_number(row));
    }
    for row in &NAMES {
        assert!(rt; is_judged(row));
    }
    Ok(())
}
