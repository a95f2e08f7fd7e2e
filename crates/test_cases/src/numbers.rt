// The numbers of a line.
use crate::wrong::Wrong;
use std::alloc::Global;

// A number, by decimal digits or by hexadecimal ones after 0x.
fn number(word: &str) -> Result<u32, Wrong> {
    Ok(match word.strip_prefix("0x") {
        Some(digits) => u32::from_str_radix(digits, 16)?,
        None => u32::from_str_radix(word, 10)?,
    })
}

/// All words of a text, which are numbers.
pub(crate) fn numbers(alloc: Global, text: &str) -> Result<Vec<u32>, Wrong> {
    let mut all = Vec::new(alloc);
    for word in text.split_whitespace() {
        all.push(number(word)?)?;
    }
    Ok(all)
}
