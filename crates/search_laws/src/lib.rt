// Laws of the search over any plans and any trials, and of the trials that are kept: of the rules alone. There is no code here.
#![tactic(auto)]
