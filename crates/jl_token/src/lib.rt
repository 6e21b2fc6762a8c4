//! A lexer of JSON text that takes one byte after another, and the trees of its tokens.
#![tactic(auto)]

mod kinds;
mod lexers;
mod moves;
mod name_stacks;
mod names;
mod nexts;
mod numbers;
mod open_trees;
mod opens;
mod readings;
mod runs;
mod shapes;
mod skips;
mod states;
mod steps;
mod strings;
mod tree_states;
mod trees;
mod within;
mod words;

pub use jl_model::Token;
pub use lexers::{
    Lexer, law_front, law_one_fault, law_one_place, law_one_reading, law_tokens_utf8, law_utf8,
};
pub use names::Names;
pub use numbers::InNumber;
pub use open_trees::{OpenTree, OpenTrees, WaitingKey};
pub use opens::{Open, Opens};
pub use readings::{Reading, Spot};
pub use shapes::Shape;
pub use states::LexState;
pub use steps::{LexStop, Next, Sign, Signs, Step};
pub use strings::InString;
pub use tree_states::{Growth, TreeState};
pub use trees::{Tree, law_begun, law_one_tree, law_tree_of_text};
pub use words::InWord;

#[cfg(test)]
mod lexer_tests;
#[cfg(test)]
mod tree_tests;
