// Worked rows: calls, words of instructions, lines of events and texts of the assembler, against what is worked out by hand.
#![tactic(auto)]

#[cfg(test)]
mod assembler;
#[cfg(test)]
mod calls;
#[cfg(test)]
mod lines;
#[cfg(test)]
mod lists;
#[cfg(test)]
mod words;
