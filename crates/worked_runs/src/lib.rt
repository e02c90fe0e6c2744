// The worked runs: the whole program in memory, by the call that it makes, against what is worked out by hand.
#![tactic(auto)]

#[cfg(test)]
mod files;
#[cfg(test)]
mod images;
#[cfg(test)]
mod in_memory;
#[cfg(test)]
mod play;
#[cfg(test)]
mod processes;
#[cfg(test)]
mod reports;
#[cfg(test)]
mod runs;
#[cfg(test)]
mod scripts;
#[cfg(test)]
mod texts;
