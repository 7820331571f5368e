// Parts of a line.

// The key's first letter; an empty line counts as a comment.
pub fn key(line: &[u8]) -> u8 {
    line.first().copied().unwrap_or(b'#')
}

// The numbers of a line, and behind a semicolon and a blank its name.
pub fn parts(line: &[u8]) -> (&[u8], &[u8]) {
    match line.iter().position(|byte| *byte == b';') {
        Some(end) => (&line[..end], line.get(end + 2..).unwrap_or(b"")),
        None => (line, b""),
    }
}

// The first elements of a slice; all, if there are fewer.
pub fn front<T>(items: &[T], n: usize) -> &[T] {
    items.get(..n).unwrap_or(items)
}
