#![tactic(auto)]
//! Traces as text and as words: the words of a line, the line that they name, and operations and answers written out.
//! Every function takes any bytes and any words.
pub mod answer;
pub mod argument;
pub mod aside;
pub mod expected;
pub mod lex;
pub mod line;
pub mod names;
pub mod parse;
pub mod reason;
pub mod words;
pub mod write;
