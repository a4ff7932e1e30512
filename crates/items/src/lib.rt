// The state check item by item, over the abstract line. The code that goes by it stands in the crates above.
#![tactic(auto)]
