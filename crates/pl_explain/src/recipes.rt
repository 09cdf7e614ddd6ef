// The faults of a line of a recipe. The manual page has the same table.

/// Each kind of faults, by its number, with its sentence.
pub const SENTENCES: &str =
    "1 The line is not in the grammar of recipes, or a name in it is not valid; the first line has to say what is made.
2 A number of the line is over its limit, a word passes the data, or a packed word is at an odd offset or meets another one.
3 The line names a symbol or a version that no line of the recipe defines.
4 The line says a second time what may stand once, or defines a symbol of the same name again.
5 No line is wrong, but the tables or the file of the recipe would be too large.";
