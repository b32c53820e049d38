// Laws of plans: what a word, a vehicle and a whole plan come to by the rules. There is no code here.
#![tactic(auto)]
