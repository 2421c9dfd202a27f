//! Worked cases of what the tokenizer stands on, of the sinks beside it, and of the texts of errors.
#![tactic(auto)]

#[cfg(test)]
mod bytes;
#[cfg(test)]
mod collector;
#[cfg(test)]
mod errors;
#[cfg(test)]
mod lent;
#[cfg(test)]
mod links;
#[cfg(test)]
mod made;
#[cfg(test)]
mod names;
#[cfg(test)]
mod options;
#[cfg(test)]
mod print_sink;
#[cfg(test)]
mod refusing;
#[cfg(test)]
mod small_char_set;
#[cfg(test)]
mod states;
#[cfg(test)]
mod tags_only;
#[cfg(test)]
mod text_runs;
#[cfg(test)]
mod texts;
#[cfg(test)]
mod tokens;
