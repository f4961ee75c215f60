//! Codes of the definitions' words, by which models may store them. Nobody has to believe them.
#![tactic(auto)]
