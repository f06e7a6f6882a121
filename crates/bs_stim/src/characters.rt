//! The characters of an input line, one a bit.
ghost use Rattle.std.specs.Prelude.{◌≡◌, ◌≤◌, ◌||◌, ◌==◌, length, map, option_map, IfOk, IfSome};
ghost use Rattle.std.specs.List.{list_all};
ghost use Rattle.bs_bits.specs.Text.{bits_of, is_dot as is_dot_text};
ghost use Rattle.bs_stim.specs.Packing.{is_one};
ghost use Rattle.bs_stim.specs.StimulusText.{of_width as of_width_from};
ghost use Rattle.bs_bits.specs.Reading.{Answers};
ghost use Rattle.bs_stim.specs.declared.fault.StimFault.TheVariants.{NoMemory as Want};

use crate::fault::StimFault;

/// Whether all characters are `0` or `1`.
fn are_digits(text: &[u8]) -> bool
    ensures { result ≡ list_all (λ c. (c == 48) || (c == 49)) text.now }
{
    text.iter().all(|&c| c == b'0' || c == b'1')
}

/// Whether a text is `.`.
fn is_dot(text: &[u8]) -> bool
    ensures { result ≡ is_dot_text text.now }
{
    text == b".".as_slice()
}

/// A character `0` or `1` for each bit that a text stands for, if it stands for bits.
pub fn bit_characters(text: &[u8]) -> Option<&[u8]>
    ensures reads { option_map (λ characters. map is_one characters.now) result ≡ bits_of text.now }
    ensures short { IfSome result (λ characters. length characters.now ≤ length text.now) }
{
    if text.is_empty() {
        return None;
    }
    if is_dot(text) {
        return Some(&text[1..]);
    }
    if are_digits(text) { Some(text) } else { None }
}

/// The characters of a width; or the refusal of the line with this number.
pub fn of_width(width: usize, number: u32, characters: Option<&[u8]>) -> Result<&[u8], StimFault>
    ensures reads { Answers Want (λ c. map is_one c.now) result (of_width_from width number (option_map (λ c. map is_one c.now) characters.entry)) }
    ensures width { IfOk result (λ c. length c.now ≡ width) }
    ensures same { IfOk result (λ c. IfSome characters.entry (λ d. c.now ≡ d.now)) }
{
    match characters {
        Some(characters) => {
            if characters.len() == width {
                Ok(characters)
            } else {
                Err(StimFault::Width(number))
            }
        }
        None => Err(StimFault::Line(number)),
    }
}
