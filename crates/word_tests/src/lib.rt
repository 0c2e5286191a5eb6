//! Tests of `guest_script`, `guest_words` and `guest_input`: what is read of a script, an order, the words of a run and the files that
//! they name, and which is refused.
#![tactic(auto)]

#[cfg(test)]
mod inputs;
#[cfg(test)]
mod scripts;
#[cfg(test)]
mod words;
