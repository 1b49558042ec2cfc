//! The tokens that types, paths, expressions and predicates are printed as: definitions alone, which printing and parsing both cite.
#![tactic(auto)]
