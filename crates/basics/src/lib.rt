// Laws that several crates cite. No code.
#![tactic(auto)]
