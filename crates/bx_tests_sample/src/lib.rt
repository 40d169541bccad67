//! Tests of samples, over the public calls of `bx_sample` and of the readers of its texts. What is expected of the
//! larger texts was made by another program, from the rule alone.
#![tactic(auto)]

#[cfg(test)]
mod asserts;
#[cfg(test)]
mod library;
#[cfg(test)]
mod mixed;
#[cfg(test)]
mod sample;
