// What writes text: words and numbers, arrows, lines.
pub mod arrows;
pub mod lines;
pub mod words;
