// Document 01 as definitions over an abstract line. The code that keeps to them stands in the crates above.
#![tactic(auto)]
