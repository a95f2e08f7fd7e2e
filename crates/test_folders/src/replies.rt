// What sessions print, beside tables of what they are to print.

/// How many of some replies were printed, where nothing else was but a prefix of the next.
pub fn replies_in(replies: &[&[u8]], printed: &[u8]) -> Option<usize> {
    let mut rest = printed;
    let mut count: usize = 0;
    for reply in replies {
        let Some(behind) = rest.strip_prefix(*reply) else {
            return if reply.starts_with(rest) {
                Some(count)
            } else {
                None
            };
        };
        rest = behind;
        count = count.wrapping_add(1);
    }
    if rest.is_empty() { Some(count) } else { None }
}

/// Whether this is the text of a table that belongs to so many commands.
pub fn is_row(table: &[&[u8]], done: usize, text: &[u8]) -> bool {
    match table.get(done) {
        Some(row) => *row == text,
        None => false,
    }
}
