// The rules of the hall as definitions, in specs/. There is no code here: the crates above compute what these say.
#![tactic(auto)]
