// Tables of sentences.

/// The text of a row of a table, by its key. A row is a line: the key, a space and the text.
pub fn row(table: &'static str, key: &str) -> Option<&'static str> {
    for line in table.split('\n') {
        if let Some((first, text)) = line.split_once(' ') {
            if first == key {
                return Some(text);
            }
        }
    }
    None
}
