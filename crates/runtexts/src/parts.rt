// What writes the text of a run: its phases, the whole.
pub mod jobs;
pub mod phasing;
