// Files in memory, under numbers and names.
#![tactic(auto)]

mod block;
mod blocks;
mod content;
mod file;
mod files;
mod search;
mod table;
#[cfg(test)]
mod tests;

pub use files::Files;
