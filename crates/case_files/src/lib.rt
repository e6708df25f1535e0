//! Files and journals in memory as the lines of a table describe them: texts, frames of recordings, and pieces that stand in many. It promises
//! nothing beyond safety.
#![tactic(auto)]

mod files;
mod frames;
mod texts;

pub use files::CaseFiles;
