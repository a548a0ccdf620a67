// What the walks through factors use.
pub mod walks;
