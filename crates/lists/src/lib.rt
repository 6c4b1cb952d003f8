// What every layer says of lists and of tests: definitions and laws alone, under all other crates.
#![tactic(auto)]
