// How a line lies in its lent buffer, as definitions and laws. The code that reads and writes it in place stands in the crates above.
#![tactic(auto)]
