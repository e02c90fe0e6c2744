// Pages with rights: a map from page numbers to 4,096 bytes and the rights to read, write and execute them.
#![tactic(auto)]

mod access;
mod cached;
mod copy;
mod entry;
mod frame;
mod pages;
mod range;
mod tree;

pub use access::Refused;
pub use cached::CachedPages;
pub use pages::Pages;
pub use tree::NoPage;

#[cfg(test)]
mod tests;
