// Rows of tables, whose fields have bars between them.

/// The field of this number; the empty text where the row has fewer.
pub fn field(row: &str, number: usize) -> &str {
    row.split('|').nth(number).unwrap_or("")
}

/// The number that a field has; 0 where it has none.
pub fn number(row: &str, number: usize) -> u32 {
    field(row, number).parse().unwrap_or(0)
}

/// Whether the numbers are those of this text, with spaces between them.
pub fn are_numbers(numbers: &[u32], text: &str) -> bool {
    let mut words = text.split_whitespace();
    let mut are_told = true;
    for number in numbers {
        are_told &= words.next().unwrap_or("").parse() == Ok(*number);
    }
    are_told & words.next().is_none()
}
