// What the replay programs share: reading the lists that they play, and the text of what they found.
#![tactic(auto)]

pub mod bytes;
pub mod closures;
pub mod list;
mod playing;
pub mod said;
pub mod words;
